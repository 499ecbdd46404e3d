ghost use Rattle.std.specs.Prelude.{◌≡◌, ◌≤◌, [], ◌∷◌, All, IfOk, codes, length, negsuc};
ghost use Rattle.asm_domain.specs.Universe.{Named, Numbers, numbers_between};

use asm_domain::{Domain, Names, Value};
use asm_list::{Listed, Name};
use asm_node::Stop;
use asm_sign::{DeclaredDomain, Domains, FunKind, Function, Functions, Signature};
use asm_source::{Place, Source, Sources, Text};
use asm_state::MapStore;
use asm_text::{print_location, print_state, print_stop, print_value};
use std::alloc::{AllocError, Global};
use std::test::Fail;

// The enumeration of `AA` and `BB`.
fn letters(alloc: Global) -> Result<Domain, AllocError>
    ensures { IfOk result (λ d. d ≡ Named 0 (codes "AA" ∷ codes "BB" ∷ [])) }
{
    let first = Name::of(alloc, "AA")?;
    let second = Name::of(alloc, "BB")?;
    let names = Names::from_vec(vec![in alloc; first, second]?);
    match Domain::named(0, names) {
        Ok(domain) => Ok(domain),
        Err(_) => Err(AllocError),
    }
}

// The numbers -2 and -1.
fn numbers() -> Result<Domain, AllocError>
    ensures { IfOk result (λ d. d ≡ Numbers (numbers_between (negsuc 1) (negsuc 0))) }
{
    match Domain::range(-2, -1) {
        Ok(domain) => Ok(domain),
        Err(_) => Err(AllocError),
    }
}

fn function(
    alloc: Global,
    name: &str,
    kind: FunKind,
    domains: &[u32],
) -> Result<Function, AllocError>
    ensures { IfOk result (λ f. (f.kind ≡ kind) × (f.domains ≡ domains.now) × (f.codomain ≡ 0)) }
{
    Ok(Function {
        name: Name::of(alloc, name)?,
        kind,
        domains: Listed::from_slice(alloc, domains)?,
        codomain: 0,
    })
}

// A controlled function `f` of a letter and a number, and a monitored one `m` without arguments.
fn signature_over(alloc: Global, letters: Domain, numbers: Domain) -> Result<Signature, AllocError>
    requires letters { letters ≡ Named 0 (codes "AA" ∷ codes "BB" ∷ []) }
    requires numbers { numbers ≡ Numbers (numbers_between (negsuc 1) (negsuc 0)) }
{
    let first = DeclaredDomain {
        name: None,
        domain: letters,
    };
    let second = DeclaredDomain {
        name: None,
        domain: numbers,
    };
    let domains = Domains::from_vec(vec![in alloc; first, second]?);
    let two = function(alloc, "f", FunKind::Controlled, &[0, 1])?;
    let none = function(alloc, "m", FunKind::Monitored, &[])?;
    let functions = Functions::from_vec(vec![in alloc; two, none]?);
    Signature::new(alloc, domains, functions)
}

fn sources_of(alloc: Global) -> Result<Sources, AllocError>
    ensures { IfOk result (λ sources. All (λ source. length source.text ≤ 1048576) sources) }
{
    let name = Name::of(alloc, "a.asm")?;
    let text = Text::from_slice(alloc, b"par\nbeta")?;
    let mut sources = Sources::new(alloc);
    sources.push(Source { name, text })?;
    Ok(sources)
}

// The state in which every location is undefined.
fn first_state(alloc: Global, signature: &Signature) -> Result<Text, AllocError> {
    let store = MapStore::new(alloc, signature)?;
    let mut text = Text::new(alloc);
    print_state(signature, &store, &mut text)?;
    Ok(text)
}

// The signature of these functions over the letters and the numbers.
fn signature_of(alloc: Global) -> Result<Signature, AllocError> {
    let letters = letters(alloc)?;
    let numbers = numbers()?;
    signature_over(alloc, letters, numbers)
}

fn value_text(alloc: Global, signature: &Signature, value: &Value) -> Result<Text, AllocError> {
    let mut text = Text::new(alloc);
    print_value(signature, value, &mut text)?;
    Ok(text)
}

#[test]
fn values_have_texts(rt: HostRuntime) -> Result<(), Fail> {
    let signature = signature_of(rt.alloc())?;
    for (value, want) in [
        (Value::Undef, "undef"),
        (Value::Bool(true), "true"),
        (Value::Bool(false), "false"),
        (Value::Int(-2), "-2"),
        (Value::Elem(0, 1), "BB"),
        (Value::Elem(1, 0), ""),
    ] {
        let text = value_text(rt.alloc(), &signature, &value)?;
        assert_eq!(rt; text.slice(), want.as_bytes(), "{want}");
    }
    Ok(())
}

fn location_text(alloc: Global, signature: &Signature, slot: u32) -> Result<Text, AllocError> {
    let mut text = Text::new(alloc);
    print_location(signature, slot, &mut text)?;
    Ok(text)
}

#[test]
fn locations_have_texts(rt: HostRuntime) -> Result<(), Fail> {
    let signature = signature_of(rt.alloc())?;
    for (slot, want) in [(0, "f(AA,-2)"), (3, "f(BB,-1)"), (4, "m"), (5, "")] {
        let text = location_text(rt.alloc(), &signature, slot)?;
        assert_eq!(rt; text.slice(), want.as_bytes(), "{want}");
    }
    Ok(())
}

#[test]
fn a_state_has_a_text(rt: HostRuntime) -> Result<(), Fail> {
    let signature = signature_of(rt.alloc())?;
    let text = first_state(rt.alloc(), &signature)?;
    let state = "  f(AA,-2) = undef\n  f(AA,-1) = undef\n  f(BB,-2) = undef\n  f(BB,-1) = undef\n";
    assert_eq!(rt; text.slice(), state.as_bytes());
    Ok(())
}

// The line of a stop in a file of two lines.
fn stop_text(alloc: Global, signature: &Signature, stop: &Stop) -> Result<Text, AllocError> {
    let sources = sources_of(alloc)?;
    let mut text = Text::new(alloc);
    print_stop(signature, &sources, stop, &mut text)?;
    Ok(text)
}

#[test]
fn stops_have_texts(rt: HostRuntime) -> Result<(), Fail> {
    let signature = signature_of(rt.alloc())?;
    for (stop, want) in [
        (
            Stop::Clash(0, Value::Elem(0, 0), Value::Elem(0, 1)),
            "stop: clash at f(AA,-2): AA and BB\n",
        ),
        (
            Stop::BadValue(Place { file: 0, at: 5 }, 3, Value::Int(-7)),
            "stop: bad value -7 for f(BB,-1) at a.asm:2:2\n",
        ),
        (
            Stop::UndefGuard(Place { file: 0, at: 99 }),
            "stop: undefined guard at a.asm:2:5\n",
        ),
        (
            Stop::BadArgument(Place { file: 1, at: 0 }),
            "stop: bad argument at :1:1\n",
        ),
    ] {
        let text = stop_text(rt.alloc(), &signature, &stop)?;
        assert_eq!(rt; text.slice(), want.as_bytes(), "{want}");
    }
    Ok(())
}
