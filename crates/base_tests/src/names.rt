use asm_list::Name;
use name_table::Table;
use std::test::Fail;

#[test]
fn numbers_of_names(rt: HostRuntime) -> Result<(), Fail> {
    let mut table = Table::new(rt.alloc());
    for text in ["r_Main", "f", "f", ""] {
        table.add(&Name::of(rt.alloc(), text)?)?;
    }
    assert_eq!(rt; table.len(), 4);
    for (text, want) in [
        ("r_Main", Some(0)),
        ("f", Some(1)),
        ("", Some(3)),
        ("r", None),
    ] {
        let found = table.find(&Name::of(rt.alloc(), text)?);
        assert_eq!(rt; found, want, "name {text}");
    }
    Ok(())
}
