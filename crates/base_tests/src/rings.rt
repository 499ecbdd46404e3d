//! The texts of a ring.
use asm_gen::{hold, pair, stations};
use std::test::Fail;

const ABSTRACT_OF_8: &str =
    "asm ringA\nsignature:\n  domain Station subsetof Integer\n  controlled holder : Station\ndefinitions:\n  domain Station = {0..7}\nmain rule r_Main =\n  holder := (holder + 1) mod 8\ndefault init s0:\n  function holder = 0\n";

const CONCRETE_OF_8: &str =
    "asm ringC\nsignature:\n  domain Station subsetof Integer\n  domain Count subsetof Integer\n  controlled has : Station -> Boolean\n  controlled wait : Station -> Count\n  derived holder : Station\ndefinitions:\n  domain Station = {0..7}\n  domain Count = {0..7}\n  function holder = if has(0) then 0 else if has(1) then 1 else if has(2) then 2 else if has(3) then 3 else if has(4) then 4 else if has(5) then 5 else if has(6) then 6 else if has(7) then 7 else undef endif endif endif endif endif endif endif endif\n  invariant over has : (exist unique $s in Station with has($s))\nmain rule r_Main =\n  forall $s in Station with has($s) do\n    if wait($s) > 0 then\n      wait($s) := wait($s) - 1\n    else\n      par\n        has($s) := false\n        has(($s + 1) mod 8) := true\n        wait(($s + 1) mod 8) := 7\n      endpar\n    endif\ndefault init s0:\n  function has($s in Station) = $s = 0\n  function wait($s in Station) = 7\n";

#[test]
fn a_ring_has_its_texts(rt: HostRuntime) -> Result<(), Fail> {
    let ring = pair(rt.alloc(), 41)?;
    assert_eq!(rt; ring.abstract_model.slice(), ABSTRACT_OF_8.as_bytes());
    assert_eq!(rt; ring.concrete_model.slice(), CONCRETE_OF_8.as_bytes());
    assert_eq!(rt; ring.links.slice(), "holder = holder;".as_bytes());
    Ok(())
}

#[test]
fn rings_have_their_sizes(rt: HostRuntime) -> Result<(), Fail> {
    for (k, count, held) in [
        (0, 3, 1),
        (5, 8, 1),
        (6, 3, 2),
        (41, 8, 7),
        (42, 3, 1),
        (u64::MAX, 6, 3),
    ] {
        assert_eq!(rt; (stations(k), hold(k)), (count, held), "ring {k}");
    }
    Ok(())
}
