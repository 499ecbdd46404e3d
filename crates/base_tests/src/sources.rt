use asm_source::{
    Name, Place, Source, Sources, Spot, Text, append_integer, append_number, append_str,
};
use std::alloc::Global;
use std::test::Fail;

#[test]
fn numbers_in_a_text(rt: HostRuntime) -> Result<(), Fail> {
    let mut text = Text::new(rt.alloc());
    append_number(&mut text, 0)?;
    append_str(&mut text, " .. ")?;
    append_number(&mut text, u64::MAX)?;
    append_integer(&mut text, -4096)?;
    assert_eq!(rt; text.slice(), b"0 .. 18446744073709551615-4096".as_slice());
    Ok(())
}

// The spot of a place in a text that stands after another one.
fn spot(alloc: Global, text: &str, at: u32) -> Result<Spot, Fail> {
    let mut sources = Sources::new(alloc);
    for text in ["asm swap", text] {
        let name = Name::of(alloc, "swap.asm")?;
        let text = Text::from_slice(alloc, text.as_bytes())?;
        sources.push(Source { name, text })?;
    }
    match sources.item(1) {
        Some(source) if at < 100 && at as usize <= source.text.len() => {
            Ok(sources.spot(Place { file: 1, at }))
        }
        _ => Ok(Spot { line: 0, column: 0 }),
    }
}

#[test]
fn places_have_spots(rt: HostRuntime) -> Result<(), Fail> {
    for (at, line, column) in [(0, 1, 1), (2, 1, 3), (3, 2, 1), (4, 3, 1), (6, 3, 3)] {
        assert_eq!(rt;
            spot(rt.alloc(), "ab\n\ncd", at)?,
            Spot { line, column },
            "{at}"
        );
    }
    Ok(())
}
