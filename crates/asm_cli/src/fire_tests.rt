//! One taking of the main rule of a model that was read.

use asm_domain::Value;
use asm_eval::initial;
use asm_fire::{FireError, fire, rules_are_sound};
use asm_io::{NoFaultShelf, Place, Sources};
use asm_list::Listed;
use asm_node::{Input, Model, Stop, Words};
use asm_resolve::resolve;
use asm_unit::load_all;
use asm_update::Updates;
use std::alloc::{AllocError, Global};
use std::test::Fail;

/// What is wanted: the pairs of the update set in their order, or a stop at the main rule.
#[derive(Clone, Copy)]
enum Wanted {
    Set(&'static [(u32, Value)]),
    BadValue(u32, Value),
    UndefGuard,
    Choice,
}

/// Definitions, main rule and initial value of `x`, and choice words; what is wanted, and how many words are taken.
struct FireCase {
    definitions: &'static str,
    main: &'static str,
    x: &'static str,
    words: &'static [u32],
    wanted: Wanted,
    taken: usize,
}

/// Of functions `x` and `y` with the values 1 to 3.
const FIRES: [FireCase; 8] = [
    FireCase {
        definitions: "",
        main: "par x := 2 x := 1 endpar",
        x: "3",
        words: &[],
        wanted: Wanted::Set(&[(0, Value::Int(1)), (0, Value::Int(2))]),
        taken: 0,
    },
    FireCase {
        definitions: "",
        main: "seq par x := 1 x := 2 endpar y := 3 endseq",
        x: "3",
        words: &[],
        wanted: Wanted::Set(&[(0, Value::Int(1)), (0, Value::Int(2))]),
        taken: 0,
    },
    FireCase {
        definitions: "",
        main: "x := x + 1",
        x: "3",
        words: &[],
        wanted: Wanted::BadValue(0, Value::Int(4)),
        taken: 0,
    },
    FireCase {
        definitions: "",
        main: "if y > 1 then x := 1 endif",
        x: "undef",
        words: &[],
        wanted: Wanted::UndefGuard,
        taken: 0,
    },
    FireCase {
        definitions: "",
        main: "choose $v in D do x := $v",
        x: "undef",
        words: &[7, 0],
        wanted: Wanted::Set(&[(0, Value::Int(2))]),
        taken: 1,
    },
    FireCase {
        definitions: "",
        main: "choose $v in D do x := $v",
        x: "undef",
        words: &[],
        wanted: Wanted::Choice,
        taken: 0,
    },
    FireCase {
        definitions: "",
        main: "let ($v = x) in seq x := x + 1 y := $v endseq endlet",
        x: "1",
        words: &[],
        wanted: Wanted::Set(&[(0, Value::Int(2)), (1, Value::Int(1))]),
        taken: 0,
    },
    FireCase {
        definitions: "rule r_two($p in D) = seq x := x + 1 y := $p endseq",
        main: "r_two[x]",
        x: "1",
        words: &[],
        wanted: Wanted::Set(&[(0, Value::Int(2)), (1, Value::Int(2))]),
        taken: 0,
    },
];

/// The model of a file, where it is one.
fn model_of(alloc: Global, held: &str) -> Result<Option<Model>, AllocError> {
    let mut shelf = NoFaultShelf::new(alloc);
    shelf.add(alloc, "t.asm", held.as_bytes())?;
    let mut sources = Sources::new(alloc);
    match load_all(alloc, &mut shelf, "t.asm", &mut sources) {
        Ok(units) => Ok(resolve(alloc, &units).ok()),
        Err(_) => Ok(None),
    }
}

/// What the main rule gives in the initial state, where there is one.
fn fire_main(
    alloc: Global,
    model: &Model,
    words: &mut Words,
) -> Option<Result<Updates, FireError>> {
    let Ok(store) = initial(alloc, model) else {
        return None;
    };
    let input = Input::new(alloc);
    rules_are_sound();
    Some(fire(alloc, model, &store, &input, words, model.main()))
}

/// Whether the result is what is wanted of a main rule at this place.
fn is_wanted(fired: &Result<Updates, FireError>, wanted: Wanted, place: Place) -> bool {
    match (fired, wanted) {
        (Ok(updates), Wanted::Set(pairs)) => updates.pairs() == pairs,
        (Err(FireError::Stop(stop)), Wanted::BadValue(slot, value)) => {
            *stop == Stop::BadValue(place, slot, value)
        }
        (Err(FireError::Stop(stop)), Wanted::UndefGuard) => *stop == Stop::UndefGuard(place),
        (Err(FireError::Stop(stop)), Wanted::Choice) => *stop == Stop::Choice(place),
        _ => false,
    }
}

/// A case's text up to its main rule.
fn front(alloc: Global, case: &FireCase) -> Result<String, Fail> {
    Ok(format!(in alloc;
        "asm t signature: domain D subsetof Integer controlled x : D controlled y : D definitions: domain D = {{1:3}} {} main rule r_Main = ",
        case.definitions
    )?)
}

/// A case's text.
fn held(alloc: Global, case: &FireCase) -> Result<String, Fail> {
    let front = front(alloc, case)?;
    Ok(format!(in alloc;
        "{front}{} default init s0: function x = {}",
        case.main, case.x
    )?)
}

/// The place of a case's main rule.
fn place_of_main(alloc: Global, case: &FireCase) -> Result<Place, Fail> {
    let front = front(alloc, case)?;
    let at = front.len().min(1 << 20) as u32;
    Ok(Place { file: 0, at })
}

/// Whether the main rule of a case's model gives what is wanted, and how many words it takes.
fn fired_over(
    alloc: Global,
    case: &FireCase,
    model: &Model,
    place: Place,
) -> Result<Option<(bool, usize)>, Fail> {
    let mut words = Words::of(Listed::from_slice(alloc, case.words)?);
    match fire_main(alloc, model, &mut words) {
        Some(result) => Ok(Some((is_wanted(&result, case.wanted, place), words.taken()))),
        None => Ok(None),
    }
}

/// Whether a case's main rule gives what is wanted, and how many words it takes, where the text is a model's.
fn fired(alloc: Global, case: &FireCase) -> Result<Option<(bool, usize)>, Fail> {
    let place = place_of_main(alloc, case)?;
    let held = held(alloc, case)?;
    match model_of(alloc, &held)? {
        Some(model) => fired_over(alloc, case, &model, place),
        None => Ok(None),
    }
}

#[test]
fn each_main_rule_gives_its_set(rt: HostRuntime) -> Result<(), Fail> {
    for case in &FIRES {
        let found = fired(rt.alloc(), case)?;
        assert_eq!(rt; found, Some((true, case.taken)), "{}", case.main);
    }
    Ok(())
}
