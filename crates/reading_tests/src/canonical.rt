use asm_canonical::print_unit;
use asm_list::{Boxed, Listed, Name};
use asm_source::Text;
use asm_tree::rule::{RawRule, RawRuleKind};
use asm_tree::term::{RawName, RawTerm, RawTermKind};
use asm_tree::unit::{
    RawDeclaration, RawFunction, RawFunctionKind, RawInit, RawMain, RawUnit, RawUnitKind,
};
use asm_tree::{Op, UnaryOp};
use std::alloc::{AllocError, Global};
use std::test::Fail;

fn name(alloc: Global, text: &str) -> Result<RawName, AllocError> {
    let text = Name::of(alloc, text)?;
    Ok(RawName { at: 0, text })
}

fn term(alloc: Global, kind: RawTermKind) -> RawTerm {
    let first = Name::new(alloc);
    RawTerm { at: 0, first, kind }
}

/// The value of the function `x`.
fn location(alloc: Global) -> Result<RawTerm, AllocError> {
    let function = Name::of(alloc, "x")?;
    Ok(term(alloc, RawTermKind::Call(function, Listed::new(alloc))))
}

/// `x = true`
fn guard(alloc: Global) -> Result<RawTerm, AllocError> {
    let left = Boxed::new(alloc, location(alloc)?)?;
    let right = Boxed::new(alloc, term(alloc, RawTermKind::Truth(true)))?;
    Ok(term(alloc, RawTermKind::Binary(Op::Equal, left, right)))
}

/// `x := not x`
fn update(alloc: Global) -> Result<RawRule, AllocError> {
    let operand = Boxed::new(alloc, location(alloc)?)?;
    let value = term(alloc, RawTermKind::Unary(UnaryOp::Not, operand));
    let function = Name::of(alloc, "x")?;
    let kind = RawRuleKind::Update(function, Listed::new(alloc), value);
    Ok(RawRule { at: 0, kind })
}

fn main_rule(alloc: Global) -> Result<RawMain, AllocError> {
    let yes = Boxed::new(alloc, update(alloc)?)?;
    let skip = RawRule {
        at: 0,
        kind: RawRuleKind::Skip,
    };
    let no = Boxed::new(alloc, skip)?;
    let kind = RawRuleKind::If(guard(alloc)?, yes, no);
    Ok(RawMain {
        name: name(alloc, "r_Main")?,
        rule: RawRule { at: 0, kind },
    })
}

fn initial(alloc: Global) -> Result<RawInit, AllocError> {
    let mut functions = Listed::new(alloc);
    functions.push(RawFunction {
        name: name(alloc, "x")?,
        parameters: Listed::new(alloc),
        term: term(alloc, RawTermKind::Truth(true)),
    })?;
    Ok(RawInit {
        name: name(alloc, "s0")?,
        functions,
    })
}

#[test]
fn a_unit_is_printed(rt: HostRuntime) -> Result<(), Fail> {
    let alloc = rt.alloc();
    let mut declarations = Listed::new(alloc);
    declarations.push(RawDeclaration::Function(
        RawFunctionKind::Controlled,
        name(alloc, "x")?,
        Listed::new(alloc),
        name(alloc, "Boolean")?,
    ))?;
    let unit = RawUnit {
        kind: RawUnitKind::Asm,
        name: name(alloc, "t")?,
        imports: Listed::new(alloc),
        declarations,
        definitions: Listed::new(alloc),
        main: Some(main_rule(alloc)?),
        init: Some(initial(alloc)?),
    };
    let mut text = Text::new(alloc);
    print_unit(alloc, &unit, &mut text)?;
    let expected =
        "asm t\nsignature:\n  controlled x : Boolean\ndefinitions:\nmain rule r_Main =\n  if x = true then\n    x := not x\n  else\n    skip\n  endif\ndefault init s0:\n  function x = true\n";
    assert_eq!(rt; text.slice(), expected.as_bytes());
    Ok(())
}
