use crate::exit::Exit;
use crate::top::asmeta;
use crate::words::read_words;
use asm_io::{MemoryShelf, MemorySink, NoFaultShelf, NoFaultSink};
use asm_list::Name;
use std::alloc::Global;
use std::env::FillError;
use std::rt::Env;
use std::test::Fail;

/// A model of nine lines.
fn model(
    alloc: Global,
    signature: &str,
    definitions: &str,
    main: &str,
    init: &str,
) -> Result<String, Fail> {
    Ok(format!(in alloc;
        "asm t\nsignature:\n{signature}\ndefinitions:\n{definitions}\nmain rule r_Main =\n{main}\ndefault init s0:\n{init}\n"
    )?)
}

fn words(alloc: Global, texts: &[&str]) -> Result<Vec<Name>, Fail> {
    let mut words = Vec::new(alloc);
    for text in texts {
        words.push(Name::of(alloc, text)?)?;
    }
    Ok(words)
}

/// How a command over these files ends, and what it prints.
fn answer(
    alloc: Global,
    files: &[(&str, &[u8])],
    texts: &[&str],
) -> Result<(Exit, NoFaultSink), Fail> {
    let mut shelf = NoFaultShelf::new(alloc);
    for (name, held) in files {
        shelf.add(alloc, name, held)?;
    }
    let mut sink = NoFaultSink::new(alloc);
    let words = words(alloc, texts)?;
    let exit = asmeta(alloc, &words, &mut shelf, &mut sink);
    Ok((exit, sink))
}

/// How a command over the one file `t.asm` ends, and what it prints.
fn run(alloc: Global, held: &str, texts: &[&str]) -> Result<(Exit, NoFaultSink), Fail> {
    answer(alloc, &[("t.asm", held.as_bytes())], texts)
}

/// A model, with the input file `in.txt`, the words of a command, the code and what is printed.
struct RunCase {
    signature: &'static str,
    definitions: &'static str,
    main: &'static str,
    init: &'static str,
    inputs: &'static str,
    words: &'static [&'static str],
    code: u8,
    printed: &'static str,
}

const RUNS: [RunCase; 23] = [
    RunCase {
        signature: "controlled x : Boolean controlled y : Boolean",
        definitions: "",
        main: "par x := y y := x endpar",
        init: "function x = true function y = false",
        inputs: "",
        words: &["run", "t.asm", "--steps", "2"],
        code: 0,
        printed: "state 0\n  x = true\n  y = false\nstate 1\n  x = false\n  y = true\nstate 2\n  x = true\n  y = false\nend\n",
    },
    RunCase {
        signature: "controlled x : Boolean",
        definitions: "",
        main: "skip",
        init: "",
        inputs: "",
        words: &["run", "t.asm"],
        code: 0,
        printed: "state 0\n  x = undef\nend\n",
    },
    RunCase {
        signature: "controlled x : Boolean",
        definitions: "",
        main: "par x := true x := true endpar",
        init: "",
        inputs: "",
        words: &["run", "t.asm", "--steps", "1"],
        code: 0,
        printed: "state 0\n  x = undef\nstate 1\n  x = true\nend\n",
    },
    RunCase {
        signature: "domain D subsetof Integer controlled x : D controlled y : D",
        definitions: "domain D = {1:3}",
        main: "par x := 2 x := 1 endpar",
        init: "function x = 3",
        inputs: "",
        words: &["run", "t.asm", "--steps", "1"],
        code: 4,
        printed: "state 0\n  x = 3\n  y = undef\nstop: clash at x: 1 and 2\n",
    },
    RunCase {
        signature: "domain D subsetof Integer controlled x : D controlled y : D",
        definitions: "domain D = {1:3}",
        main: "seq par x := 1 x := 2 endpar y := 3 endseq",
        init: "function x = 3",
        inputs: "",
        words: &["run", "t.asm", "--steps", "1"],
        code: 4,
        printed: "state 0\n  x = 3\n  y = undef\nstop: clash at x: 1 and 2\n",
    },
    RunCase {
        signature: "domain D subsetof Integer controlled x : D controlled y : D",
        definitions: "domain D = {1:3}",
        main: "x := x + 1",
        init: "function x = 3",
        inputs: "",
        words: &["run", "t.asm", "--steps", "1"],
        code: 4,
        printed: "state 0\n  x = 3\n  y = undef\nstop: bad value 4 for x at t.asm:7:1\n",
    },
    RunCase {
        signature: "domain D subsetof Integer controlled x : D controlled y : D",
        definitions: "domain D = {1:3}",
        main: "if y > 1 then x := 1 endif",
        init: "",
        inputs: "",
        words: &["run", "t.asm", "--steps", "1"],
        code: 4,
        printed: "state 0\n  x = undef\n  y = undef\nstop: undefined guard at t.asm:7:1\n",
    },
    RunCase {
        signature: "domain D subsetof Integer controlled x : D controlled y : D",
        definitions: "domain D = {1:3}",
        main: "choose $v in D do x := $v",
        init: "",
        inputs: "",
        words: &["run", "t.asm", "--steps", "2", "--choices", "7"],
        code: 4,
        printed: "state 0\n  x = undef\n  y = undef\nstate 1\n  x = 2\n  y = undef\nstop: no choice word at t.asm:7:1\n",
    },
    RunCase {
        signature: "domain D subsetof Integer controlled x : D controlled y : D",
        definitions: "domain D = {1:3}",
        main: "choose $v in D with $v > 3 do x := $v ifnone x := 1",
        init: "",
        inputs: "",
        words: &["run", "t.asm", "--steps", "1"],
        code: 0,
        printed: "state 0\n  x = undef\n  y = undef\nstate 1\n  x = 1\n  y = undef\nend\n",
    },
    RunCase {
        signature: "domain D subsetof Integer controlled x : D controlled y : D",
        definitions: "domain D = {1:3}",
        main: "let ($v = x) in seq x := x + 1 y := $v endseq endlet",
        init: "function x = 1",
        inputs: "",
        words: &["run", "t.asm", "--steps", "1"],
        code: 0,
        printed: "state 0\n  x = 1\n  y = undef\nstate 1\n  x = 2\n  y = 1\nend\n",
    },
    RunCase {
        signature: "domain D subsetof Integer controlled x : D controlled y : D",
        definitions: "domain D = {1:3} rule r_two($p in D) = seq x := x + 1 y := $p endseq",
        main: "r_two[x]",
        init: "function x = 1",
        inputs: "",
        words: &["run", "t.asm", "--steps", "1"],
        code: 0,
        printed: "state 0\n  x = 1\n  y = undef\nstate 1\n  x = 2\n  y = 2\nend\n",
    },
    RunCase {
        signature: "monitored m : Boolean monitored n : Boolean controlled x : Boolean",
        definitions: "",
        main: "x := m and n",
        init: "",
        inputs: "set m := true; set n := true; step step",
        words: &["run", "t.asm", "in.txt"],
        code: 4,
        printed: "state 0\n  x = undef\nstate 1\n  x = true\nstop: no input for m\n",
    },
    RunCase {
        signature: "domain D subsetof Integer controlled x : D",
        definitions: "domain D = {1:3} invariant over x : x < 3",
        main: "x := x + 1",
        init: "function x = 1",
        inputs: "",
        words: &["run", "t.asm", "--steps", "5"],
        code: 4,
        printed: "state 0\n  x = 1\nstate 1\n  x = 2\nstate 2\n  x = 3\nstop: invariant 1\n",
    },
    RunCase {
        signature: "domain D subsetof Integer controlled x : D",
        definitions: "domain D = {1:3} invariant over x : x < 3",
        main: "x := x + 1",
        init: "function x = 3",
        inputs: "",
        words: &["run", "t.asm", "--steps", "5"],
        code: 4,
        printed: "state 0\n  x = 3\nstop: invariant 1\n",
    },
    RunCase {
        signature: "shared s : Boolean controlled x : Boolean",
        definitions: "",
        main: "par x := s s := false endpar",
        init: "",
        inputs: "set s := true; step step",
        words: &["run", "t.asm", "in.txt"],
        code: 0,
        printed: "state 0\n  s = undef\n  x = undef\nstate 1\n  s = false\n  x = true\nstate 2\n  s = false\n  x = false\nend\n",
    },
    RunCase {
        signature: "domain D subsetof Integer controlled x : D controlled y : D",
        definitions: "domain D = {1:3}",
        main: "skip",
        init: "function x = 7",
        inputs: "",
        words: &["run", "t.asm"],
        code: 4,
        printed: "stop: bad initial value 7 for x\n",
    },
    RunCase {
        signature: "controlled x : Boolean",
        definitions: "",
        main: "skip",
        init: "",
        inputs: "set x := true; step",
        words: &["run", "t.asm", "in.txt"],
        code: 3,
        printed: "in.txt:1:5: bad set: x\n",
    },
    RunCase {
        signature: "monitored m : Boolean",
        definitions: "",
        main: "skip",
        init: "",
        inputs: "set m := 1; step",
        words: &["run", "t.asm", "in.txt"],
        code: 3,
        printed: "in.txt:1:5: bad set: m\n",
    },
    RunCase {
        signature: "monitored m : Boolean",
        definitions: "",
        main: "skip",
        init: "",
        inputs: "set m := true step",
        words: &["run", "t.asm", "in.txt"],
        code: 3,
        printed: "in.txt:1:15: syntax error\n",
    },
    RunCase {
        signature: "monitored m : Boolean",
        definitions: "",
        main: "skip",
        init: "",
        inputs: "",
        words: &["run", "t.asm", "none.txt"],
        code: 3,
        printed: "none.txt: no such file\n",
    },
    RunCase {
        signature: "enum domain C = {AA, BB} domain D subsetof Integer abstract domain E static ee : E controlled f : Prod(C, D) -> E",
        definitions: "domain D = {-1, 2}",
        main: "f(BB, -1) := ee",
        init: "",
        inputs: "",
        words: &["run", "t.asm", "--steps", "1"],
        code: 0,
        printed: "state 0\n  f(AA,-1) = undef\n  f(AA,2) = undef\n  f(BB,-1) = undef\n  f(BB,2) = undef\nstate 1\n  f(AA,-1) = undef\n  f(AA,2) = undef\n  f(BB,-1) = ee\n  f(BB,2) = undef\nend\n",
    },
    RunCase {
        signature: "domain D subsetof Integer monitored m : D -> D controlled x : D -> D",
        definitions: "domain D = {1:2}",
        main: "forall $d in D do x($d) := m($d)",
        init: "",
        inputs: "set m(1) := 2; set m(2) := 1; set m(1) := 1; step",
        words: &["run", "t.asm", "in.txt"],
        code: 0,
        printed: "state 0\n  x(1) = undef\n  x(2) = undef\nstate 1\n  x(1) = 1\n  x(2) = 1\nend\n",
    },
    RunCase {
        signature: "domain D subsetof Integer controlled x : D -> D controlled y : D",
        definitions: "domain D = {1:3}",
        main: "x(y) := 1",
        init: "",
        inputs: "",
        words: &["run", "t.asm", "--steps", "1"],
        code: 4,
        printed: "state 0\n  x(1) = undef\n  x(2) = undef\n  x(3) = undef\n  y = undef\nstop: bad argument at t.asm:7:1\n",
    },
];

/// How the command of a case ends, and what it prints.
fn answer_of(alloc: Global, case: &RunCase) -> Result<(Exit, NoFaultSink), Fail> {
    let held = model(
        alloc,
        case.signature,
        case.definitions,
        case.main,
        case.init,
    )?;
    let mut shelf = NoFaultShelf::new(alloc);
    shelf.add(alloc, "t.asm", held.as_bytes())?;
    shelf.add(alloc, "in.txt", case.inputs.as_bytes())?;
    let mut sink = NoFaultSink::new(alloc);
    let words = words(alloc, case.words)?;
    let exit = asmeta(alloc, &words, &mut shelf, &mut sink);
    Ok((exit, sink))
}

#[test]
fn each_model_has_its_run(rt: HostRuntime) -> Result<(), Fail> {
    let alloc = rt.alloc();
    for case in &RUNS {
        let (exit, sink) = answer_of(alloc, case)?;
        assert_eq!(rt; exit, Exit::Code(case.code), "{}", case.main);
        assert_eq!(rt; sink.bytes(), case.printed.as_bytes(), "{}", case.main);
    }
    Ok(())
}

/// Words, with the code and what is printed over one file `t.asm` that is empty.
const WORDS: [(&[&str], u8, &str); 28] = [
    (&[], 2, "asmeta: bad arguments\n"),
    (&["run"], 2, "asmeta: bad arguments\n"),
    (&["run", ""], 2, "asmeta: bad arguments\n"),
    (
        &["run", "t.asm", "--steps", "01"],
        2,
        "asmeta: bad arguments\n",
    ),
    (
        &["run", "t.asm", "--steps", "100001"],
        2,
        "asmeta: bad arguments\n",
    ),
    (
        &["run", "t.asm", "--steps", "1", "--steps", "1"],
        2,
        "asmeta: bad arguments\n",
    ),
    (
        &["run", "t.asm", "--choices", "1,,2"],
        2,
        "asmeta: bad arguments\n",
    ),
    (
        &["run", "t.asm", "--choices", "4294967296"],
        2,
        "asmeta: bad arguments\n",
    ),
    (
        &["run", "t.asm", "--steps", "1", "in.txt"],
        2,
        "asmeta: bad arguments\n",
    ),
    (
        &["run", "t.asm", "in.txt", "in.txt"],
        2,
        "asmeta: bad arguments\n",
    ),
    (
        &["run", "t.asm", "--budget", "1"],
        2,
        "asmeta: bad arguments\n",
    ),
    (
        &[
            "run",
            "t.asm",
            "in.txt",
            "--choices",
            "0,4294967295",
            "--steps",
            "9",
        ],
        3,
        "t.asm:1:1: syntax error\n",
    ),
    (&["check"], 2, "asmeta: bad arguments\n"),
    (
        &["check", "t.asm", "--steps", "1"],
        2,
        "asmeta: bad arguments\n",
    ),
    (&["check", "./t.asm"], 3, "t.asm:1:1: syntax error\n"),
    (&["format"], 2, "asmeta: bad arguments\n"),
    (&["format", "--t.asm"], 2, "asmeta: bad arguments\n"),
    (
        &["format", "t.asm", "--steps", "1"],
        2,
        "asmeta: bad arguments\n",
    ),
    (&["format", "a/../t.asm"], 3, "t.asm:1:1: syntax error\n"),
    (&["format", "./u.asm"], 3, "u.asm: no such file\n"),
    (&["run", "./a//../t.asm"], 3, "t.asm:1:1: syntax error\n"),
    (
        &["run", "t.asm", "--steps", "100000"],
        3,
        "t.asm:1:1: syntax error\n",
    ),
    (&["run", "sub/../../u.asm"], 3, "../u.asm: no such file\n"),
    (&["play"], 2, "asmeta: bad arguments\n"),
    (
        &["play", "t.asm", "--steps", "1"],
        2,
        "asmeta: bad arguments\n",
    ),
    (
        &["play", "t.asm", "--budget", "10000001"],
        2,
        "asmeta: bad arguments\n",
    ),
    (
        &["play", "t.asm", "--budget", "0", "--choices", "1"],
        3,
        "t.asm:1:1: syntax error\n",
    ),
    (&["play", "u.avalla"], 3, "u.avalla: no such file\n"),
];

#[test]
fn each_command_line_has_its_answer(rt: HostRuntime) -> Result<(), Fail> {
    let alloc = rt.alloc();
    for (texts, code, printed) in WORDS {
        let (exit, sink) = run(alloc, "", texts)?;
        assert_eq!(rt; exit, Exit::Code(code), "{texts:?}");
        assert_eq!(rt; sink.bytes(), printed.as_bytes(), "{texts:?}");
    }
    Ok(())
}

/// A file that has a fault, or is no model, and the line of its run.
const FAULTS: [(&str, &str); 24] = [
    (
        "asm t import u signature: definitions:",
        "u.asm: no such file\n",
    ),
    (
        "asm t import t signature: definitions:",
        "t.asm: import cycle\n",
    ),
    (
        "asm t import a/../t.asm signature: definitions:",
        "t.asm: import cycle\n",
    ),
    ("asm t\n  #", "t.asm:2:3: unexpected byte\n"),
    ("skip \u{e4}", "t.asm:1:6: unexpected byte\n"),
    ("asm t !", "t.asm:1:7: unexpected byte\n"),
    ("asm t $1", "t.asm:1:7: unexpected byte\n"),
    ("asm t /* x", "t.asm:1:7: comment not closed\n"),
    ("asm t /*/", "t.asm:1:7: comment not closed\n"),
    ("// asm t", "t.asm:1:9: syntax error\n"),
    ("asm t 2147483649", "t.asm:1:7: number too big\n"),
    ("asm t 00000000002147483649", "t.asm:1:7: number too big\n"),
    ("asm t 2147483648", "t.asm:1:7: syntax error\n"),
    ("asm t", "t.asm:1:6: syntax error\n"),
    ("asm t\n", "t.asm:2:1: syntax error\n"),
    ("asm t\nwhile", "t.asm:2:1: not supported: while\n"),
    (
        "asm t signature: controlled x : Real",
        "t.asm:1:33: not supported: Real\n",
    ),
    (
        "asm t signature: controlled par : Boolean definitions:",
        "t.asm:1:29: syntax error\n",
    ),
    (
        "asm t signature: controlled self : Boolean definitions:",
        "t.asm:1:29: not supported: self\n",
    ),
    (
        "asm t signature: controlled X : Boolean definitions:",
        "t.asm:1:29: syntax error\n",
    ),
    (
        "module t signature: definitions: main rule r_M = skip",
        "t.asm:1:34: syntax error\n",
    ),
    (
        "asm t signature: definitions: default init s: x",
        "t.asm:1:47: syntax error\n",
    ),
    (
        "module t signature: definitions:",
        "t.asm:1:8: no main rule: t\n",
    ),
    (
        "asm t signature: definitions: invariant over x : true main rule r_Main = skip default init s0:",
        "t.asm:1:46: unknown name: x\n",
    ),
];

#[test]
fn each_fault_of_a_file_has_its_line(rt: HostRuntime) -> Result<(), Fail> {
    let alloc = rt.alloc();
    for (held, printed) in FAULTS {
        let (exit, sink) = run(alloc, held, &["run", "t.asm"])?;
        assert_eq!(rt; exit, Exit::Code(3), "{held}");
        assert_eq!(rt; sink.bytes(), printed.as_bytes(), "{held}");
    }
    Ok(())
}

/// How many bytes of the text below are left, and the column at which the rest is refused; 0 where it is
/// a unit without a main rule.
const CUTS: [(usize, usize); 17] = [
    (0, 1),
    (1, 1),
    (3, 4),
    (5, 6),
    (10, 7),
    (15, 16),
    (16, 17),
    (24, 18),
    (29, 30),
    (35, 36),
    (51, 52),
    (52, 0),
    (56, 54),
    (57, 58),
    (65, 66),
    (72, 73),
    (76, 75),
];

#[test]
fn each_cut_text_has_its_line(rt: HostRuntime) -> Result<(), Fail> {
    let alloc = rt.alloc();
    let whole =
        "asm t signature: controlled x : Boolean definitions: main rule r_M = skip default init s0:";
    for (count, column) in CUTS {
        let cut = &whole.as_bytes()[..count.min(whole.len())];
        let (exit, sink) = answer(alloc, &[("t.asm", cut)], &["run", "t.asm"])?;
        let printed = if column == 0 {
            String::from_str(alloc, "t.asm:1:5: no main rule: t\n")?
        } else {
            format!(in alloc; "t.asm:1:{column}: syntax error\n")?
        };
        assert_eq!(rt; exit, Exit::Code(3), "{count}");
        assert_eq!(rt; sink.bytes(), printed.as_bytes(), "{count}");
    }
    let (exit, _) = run(alloc, whole, &["run", "t.asm"])?;
    assert_eq!(rt; exit, Exit::Code(0));
    Ok(())
}

/// What stands in the place of the main rule of the first model of `RUNS`, to the end of the text, and
/// the line of its run.
const ENDS: [(&str, &str); 2] = [
    ("par x := y y := x endp", "t.asm:7:23: syntax error\n"),
    ("par x := y y := x ", "t.asm:7:19: syntax error\n"),
];

/// How the run of a model that ends with this text ends, and what it prints.
fn run_to_end(alloc: Global, rule: &str) -> Result<(Exit, NoFaultSink), Fail> {
    let held = format!(in alloc;
        "asm t\nsignature:\ncontrolled x : Boolean controlled y : Boolean\ndefinitions:\n\nmain rule r_Main =\n{rule}"
    )?;
    run(alloc, &held, &["run", "t.asm"])
}

#[test]
fn each_cut_rule_has_its_line(rt: HostRuntime) -> Result<(), Fail> {
    let alloc = rt.alloc();
    for (rule, printed) in ENDS {
        let (exit, sink) = run_to_end(alloc, rule)?;
        assert_eq!(rt; exit, Exit::Code(3), "{rule}");
        assert_eq!(rt; sink.bytes(), printed.as_bytes(), "{rule}");
    }
    Ok(())
}

/// A file `t.asm` that imports others, which import others, and the line of its run.
const IMPORTS: [(&str, &str, &str, &str); 5] = [
    (
        "asm t import u signature: definitions:",
        "module u import v signature: definitions:",
        "module v signature: definitions: x",
        "v.asm:1:34: syntax error\n",
    ),
    (
        "asm t import u signature: definitions:",
        "module u import v signature: definitions:",
        "module v import u signature: definitions:",
        "u.asm: import cycle\n",
    ),
    (
        "asm t import u import v signature: definitions:",
        "module u import v signature: definitions:",
        "module v signature: definitions:",
        "t.asm:1:5: no main rule: t\n",
    ),
    (
        "asm t import u import w signature: definitions:",
        "module u import v signature: definitions:",
        "module v signature: definitions: #",
        "v.asm:1:34: unexpected byte\n",
    ),
    (
        "asm t import w import u signature: definitions:",
        "module u",
        "",
        "w.asm: no such file\n",
    ),
];

#[test]
fn imports_are_read_in_order(rt: HostRuntime) -> Result<(), Fail> {
    let alloc = rt.alloc();
    for (t, u, v, printed) in IMPORTS {
        let files = [
            ("t.asm", t.as_bytes()),
            ("u.asm", u.as_bytes()),
            ("v.asm", v.as_bytes()),
        ];
        let (exit, sink) = answer(alloc, &files, &["run", "t.asm"])?;
        assert_eq!(rt; exit, Exit::Code(3), "{t} {u} {v}");
        assert_eq!(rt; sink.bytes(), printed.as_bytes(), "{t} {u} {v}");
    }
    Ok(())
}

/// How a run of `t0.asm` ends, where each of so many files imports the next, and what it prints.
fn chain(alloc: Global, count: usize) -> Result<(Exit, NoFaultSink), Fail> {
    let mut shelf = NoFaultShelf::new(alloc);
    for number in 0..count {
        let name = format!(in alloc; "t{number}.asm")?;
        let next = number.saturating_add(1);
        let import = if next < count {
            format!(in alloc; "import t{next}")?
        } else {
            String::new(alloc)
        };
        let held = format!(in alloc; "asm t {import} signature: definitions:")?;
        shelf.add(alloc, &name, held.as_bytes())?;
    }
    let mut sink = NoFaultSink::new(alloc);
    let words = words(alloc, &["run", "t0.asm"])?;
    let exit = asmeta(alloc, &words, &mut shelf, &mut sink);
    Ok((exit, sink))
}

#[test]
fn at_most_64_files_are_read(rt: HostRuntime) -> Result<(), Fail> {
    let alloc = rt.alloc();
    for (count, printed) in [
        (64, "t0.asm:1:5: no main rule: t\n"),
        (65, "t64.asm: too many files\n"),
    ] {
        let (exit, sink) = chain(alloc, count)?;
        assert_eq!(rt; exit, Exit::Code(3), "{count} files");
        assert_eq!(rt; sink.bytes(), printed.as_bytes(), "{count} files");
    }
    Ok(())
}

/// Signature, definitions and main rule of a model of nine lines, with the code and the line of its check.
const CHECKS: [(&str, &str, &str, u8, &str); 30] = [
    (
        "domain D subsetof Integer controlled x : D controlled y : D",
        "domain D = {1:3} rule r_two($p in D) = seq x := x + 1 y := $p endseq",
        "r_two[x]",
        0,
        "ok: 1 domains, 2 functions, 2 rules, 0 invariants, 2 locations\n",
    ),
    (
        "monitored m : Boolean derived p : Boolean static f : Boolean -> Boolean controlled g : Prod(Boolean, Boolean) -> Boolean",
        "function p = f(m) function f($b in Boolean) = not $b invariant over g : g(true, false) or isUndef(g(true, false))",
        "g(p, true) := undef",
        0,
        "ok: 0 domains, 4 functions, 1 rules, 1 invariants, 5 locations\n",
    ),
    (
        "controlled x : Boolean controlled x : Boolean",
        "",
        "skip",
        3,
        "t.asm:3:35: declared twice: x\n",
    ),
    (
        "controlled x : Boolean controlled x : Boolean controlled x : Boolean",
        "function y = 1",
        "z := 2",
        3,
        "t.asm:3:35: declared twice: x\n",
    ),
    (
        "",
        "domain D = {1}",
        "skip",
        3,
        "t.asm:5:8: unknown name: D\n",
    ),
    (
        "enum domain D = {AA}",
        "domain D = {1}",
        "skip",
        3,
        "t.asm:5:8: wrong kind: D\n",
    ),
    (
        "domain D subsetof Boolean",
        "domain D = {1}",
        "skip",
        3,
        "t.asm:3:19: wrong kind: Boolean\n",
    ),
    (
        "domain D subsetof Integer",
        "domain D = {1, 2, 1}",
        "skip",
        3,
        "t.asm:5:19: declared twice: 1\n",
    ),
    (
        "domain D subsetof Integer",
        "",
        "skip",
        3,
        "t.asm:3:8: no definition: D\n",
    ),
    (
        "domain D subsetof Integer controlled x : D",
        "domain D = {3:1}",
        "skip",
        3,
        "t.asm:3:8: empty domain: D\n",
    ),
    (
        "domain D subsetof Integer",
        "domain D = {0:256}",
        "skip",
        3,
        "t.asm:3:8: domain too large: D\n",
    ),
    (
        "controlled x : D",
        "",
        "skip",
        3,
        "t.asm:3:16: unknown name: D\n",
    ),
    (
        "controlled x : Integer",
        "",
        "skip",
        3,
        "t.asm:3:16: domain too large: Integer\n",
    ),
    (
        "static f : Prod(Boolean, Boolean, Boolean, Boolean, Boolean) -> Boolean",
        "",
        "skip",
        3,
        "t.asm:3:8: wrong number of arguments: f\n",
    ),
    (
        "domain D subsetof Integer controlled f : Prod(D, D) -> D",
        "domain D = {0:99}",
        "skip",
        3,
        "t.asm:3:38: too many locations: f\n",
    ),
    ("", "", "x := true", 3, "t.asm:7:1: unknown name: x\n"),
    (
        "monitored m : Boolean",
        "",
        "m := true",
        3,
        "t.asm:7:1: wrong kind: m\n",
    ),
    (
        "derived p : Boolean",
        "function p = true function p = false",
        "skip",
        3,
        "t.asm:5:28: declared twice: p\n",
    ),
    (
        "derived p : Boolean",
        "function p = true",
        "if p(true) then skip endif",
        3,
        "t.asm:7:4: wrong number of arguments: p\n",
    ),
    (
        "controlled x : Boolean",
        "",
        "x := 1",
        3,
        "t.asm:7:6: wrong type: 1\n",
    ),
    (
        "controlled x : Boolean",
        "",
        "par if 1 then x := 2 endif x := 3 endpar",
        3,
        "t.asm:7:8: wrong type: 1\n",
    ),
    (
        "controlled x : Boolean",
        "",
        "x := $v",
        3,
        "t.asm:7:6: unbound variable: $v\n",
    ),
    (
        "",
        "invariant over y : true",
        "skip",
        3,
        "t.asm:5:16: unknown name: y\n",
    ),
    (
        "derived p : Boolean",
        "",
        "skip",
        3,
        "t.asm:3:9: no definition: p\n",
    ),
    (
        "controlled x : Boolean derived p : Boolean derived q : Boolean",
        "function p = q function q = p",
        "skip",
        3,
        "t.asm:5:10: defined by itself: p\n",
    ),
    (
        "",
        "rule r_a = r_b[] rule r_b = par skip r_a[] endpar",
        "skip",
        3,
        "t.asm:5:6: defined by itself: r_a\n",
    ),
    (
        "monitored m : Boolean static p : Boolean",
        "function p = m",
        "skip",
        3,
        "t.asm:5:10: forbidden read: p\n",
    ),
    (
        "monitored m : Boolean derived p : Boolean",
        "function p = m invariant over p : p",
        "skip",
        3,
        "t.asm:5:16: forbidden read: invariant\n",
    ),
    (
        "controlled x : Boolean",
        "",
        "x := 2147483648 * 2147483648 * 2 > 0",
        3,
        "t.asm:7:6: range too wide: 2147483648\n",
    ),
    (
        "controlled x : Boolean",
        "",
        "x := 2147483648 * 2147483648 > 0",
        0,
        "ok: 0 domains, 1 functions, 1 rules, 0 invariants, 1 locations\n",
    ),
];

/// How the check of a model of nine lines ends, and what it prints.
fn check_of(
    alloc: Global,
    signature: &str,
    definitions: &str,
    main: &str,
) -> Result<(Exit, NoFaultSink), Fail> {
    let held = model(alloc, signature, definitions, main, "")?;
    run(alloc, &held, &["check", "t.asm"])
}

#[test]
fn each_model_is_checked(rt: HostRuntime) -> Result<(), Fail> {
    let alloc = rt.alloc();
    for (signature, definitions, main, code, printed) in CHECKS {
        let (exit, sink) = check_of(alloc, signature, definitions, main)?;
        assert_eq!(rt; exit, Exit::Code(code), "{signature} {definitions} {main}");
        assert_eq!(rt;
            sink.bytes(),
            printed.as_bytes(),
            "{signature} {definitions} {main}"
        );
    }
    Ok(())
}

/// A file, with the code and the line of its check.
const WHOLE_CHECKS: [(&str, u8, &str); 4] = [
    (
        "module t signature: definitions:",
        3,
        "t.asm:1:8: no main rule: t\n",
    ),
    (
        "asm t signature: definitions: default init s0:",
        3,
        "t.asm:1:5: no main rule: t\n",
    ),
    (
        "asm t signature: definitions: main rule r_Main = skip",
        3,
        "t.asm:1:5: no default init: t\n",
    ),
    (
        "asm t import StandardLibrary signature: abstract domain D static aa : D controlled at : D -> D definitions: main rule r_Main = forall $d in D do at($d) := aa default init s0: function at($d in D) = $d",
        0,
        "ok: 1 domains, 2 functions, 1 rules, 0 invariants, 1 locations\n",
    ),
];

#[test]
fn each_whole_file_is_checked(rt: HostRuntime) -> Result<(), Fail> {
    let alloc = rt.alloc();
    for (held, code, printed) in WHOLE_CHECKS {
        let (exit, sink) = run(alloc, held, &["check", "t.asm"])?;
        assert_eq!(rt; exit, Exit::Code(code), "{held}");
        assert_eq!(rt; sink.bytes(), printed.as_bytes(), "{held}");
    }
    Ok(())
}

/// A file, with the code and what `format` prints of it.
const FORMATS: [(&str, u8, &str); 9] = [
    (
        "asm t signature: dynamic controlled x : Boolean definitions: main rule r_Main = if eq(x,true) then x := not(x) endif default init s0: function x = (true)",
        0,
        "asm t\nsignature:\n  controlled x : Boolean\ndefinitions:\nmain rule r_Main =\n  if x = true then\n    x := not x\n  else\n    skip\n  endif\ndefault init s0:\n  function x = true\n",
    ),
    (
        "asm t signature: definitions: function p = (a implies b) implies c",
        0,
        "asm t\nsignature:\ndefinitions:\n  function p = (a implies b) implies c\n",
    ),
    (
        "asm t signature: definitions: function p = a implies (b implies c)",
        0,
        "asm t\nsignature:\ndefinitions:\n  function p = a implies b implies c\n",
    ),
    (
        "module t import u export * signature: definitions: // no such file\ndomain D = {01:3}",
        0,
        "module t\nimport u\nsignature:\ndefinitions:\n  domain D = {1..3}\n",
    ),
    (
        "asm t import t signature: definitions:",
        0,
        "asm t\nimport t\nsignature:\ndefinitions:\n",
    ),
    ("", 3, "t.asm:1:1: syntax error\n"),
    ("asm t /* x", 3, "t.asm:1:7: comment not closed\n"),
    (
        "asm t signature: controlled x : Real",
        3,
        "t.asm:1:33: not supported: Real\n",
    ),
    (
        "asm t signature: definitions: function p = a = b = c",
        3,
        "t.asm:1:50: syntax error\n",
    ),
];

#[test]
fn each_file_has_its_canonical_text(rt: HostRuntime) -> Result<(), Fail> {
    let alloc = rt.alloc();
    for (held, code, printed) in FORMATS {
        let (exit, sink) = run(alloc, held, &["format", "t.asm"])?;
        assert_eq!(rt; exit, Exit::Code(code), "{held}");
        assert_eq!(rt; sink.bytes(), printed.as_bytes(), "{held}");
    }
    Ok(())
}

/// A text so many times.
fn repeated(alloc: Global, text: &str, times: usize) -> Result<String, Fail> {
    let mut all = String::new(alloc);
    for _ in 0..times {
        all.push_str(text)?;
    }
    Ok(all)
}

/// The declarations of so many functions.
fn functions(alloc: Global, count: usize) -> Result<String, Fail> {
    let mut all = String::new(alloc);
    for number in 0..count {
        write!(all, "controlled f{number} : Boolean ")?;
    }
    Ok(all)
}

/// How the run of a model of so many bytes ends, of which most are blanks.
fn run_of_size(alloc: Global, count: usize) -> Result<Exit, Fail> {
    let mut held = model(alloc, "", "", "skip", "")?;
    let blanks = repeated(alloc, " ", count - held.len().min(count))?;
    held.push_str(&blanks)?;
    let (exit, _) = run(alloc, &held, &["run", "t.asm"])?;
    Ok(exit)
}

#[test]
fn at_most_262_144_bytes_are_read(rt: HostRuntime) -> Result<(), Fail> {
    for (count, code) in [(262_144, 0), (262_145, 3)] {
        let exit = run_of_size(rt.alloc(), count)?;
        assert_eq!(rt; exit, Exit::Code(code), "{count} bytes");
    }
    Ok(())
}

/// How a step of a main rule ends that nests so many times.
fn run_of_depth(alloc: Global, count: usize) -> Result<Exit, Fail> {
    let begin = repeated(alloc, "par ", count)?;
    let end = repeated(alloc, " endpar", count)?;
    let rule = format!(in alloc; "{begin}skip{end}")?;
    let held = model(alloc, "", "", &rule, "")?;
    let (exit, _) = run(alloc, &held, &["run", "t.asm", "--steps", "1"])?;
    Ok(exit)
}

#[test]
fn rules_nest_64_deep(rt: HostRuntime) -> Result<(), Fail> {
    for (count, code) in [(64, 0), (65, 3)] {
        let exit = run_of_depth(rt.alloc(), count)?;
        assert_eq!(rt; exit, Exit::Code(code), "nested {count} times");
    }
    Ok(())
}

/// How a step of a model of so many functions ends.
fn run_of_functions(alloc: Global, count: usize) -> Result<Exit, Fail> {
    let signature = functions(alloc, count)?;
    let held = model(alloc, &signature, "", "skip", "")?;
    let (exit, _) = run(alloc, &held, &["run", "t.asm", "--steps", "1"])?;
    Ok(exit)
}

#[test]
fn at_most_4096_locations_are_kept(rt: HostRuntime) -> Result<(), Fail> {
    for (count, code) in [(4096, 0), (4097, 3)] {
        let exit = run_of_functions(rt.alloc(), count)?;
        assert_eq!(rt; exit, Exit::Code(code), "{count} functions");
    }
    Ok(())
}

/// How a command ends over an update by a term that opens so many parentheses, and what it prints.
fn opened(alloc: Global, count: usize, command: &str) -> Result<(Exit, NoFaultSink), Fail> {
    let parentheses = repeated(alloc, "(", count)?;
    let rule = format!(in alloc; "x := {parentheses}")?;
    let held = model(alloc, "controlled x : Boolean", "", &rule, "")?;
    run(alloc, &held, &[command, "t.asm"])
}

#[test]
fn parentheses_nest_64_deep(rt: HostRuntime) -> Result<(), Fail> {
    for (count, command, printed) in [
        (64, "run", "t.asm:8:1: syntax error\n"),
        (65, "run", "t.asm:7:70: nested too deep\n"),
        (64, "format", "t.asm:8:1: syntax error\n"),
        (65, "format", "t.asm:7:70: nested too deep\n"),
    ] {
        let (exit, sink) = opened(rt.alloc(), count, command)?;
        assert_eq!(rt; exit, Exit::Code(3), "{count} parentheses");
        assert_eq!(rt; sink.bytes(), printed.as_bytes(), "{count} parentheses");
    }
    Ok(())
}

const SMALL_MODEL: &str =
    "asm t signature: controlled x : Boolean definitions: main rule r_M = skip default init s0:";

const SMALL_MODULE: &str = "module t signature: definitions:";

/// How a command over the one file `t.asm` ends where the call of this number of the shelf, or of the sink, fails, the latter
/// after so many bytes, and what it prints. No call has the number 0.
fn failing(
    alloc: Global,
    command: &str,
    held: &str,
    read: u64,
    write: u64,
    taken: u64,
) -> Result<(Exit, MemorySink), Fail> {
    let mut shelf = MemoryShelf::new(alloc);
    shelf.add(alloc, "t.asm", held.as_bytes())?;
    shelf.fail(read)?;
    let mut sink = MemorySink::new(alloc);
    sink.fail(write)?;
    sink.taken(taken);
    let words = words(alloc, &[command, "t.asm"])?;
    let exit = asmeta(alloc, &words, &mut shelf, &mut sink);
    Ok((exit, sink))
}

#[test]
fn faults_end_the_call(rt: HostRuntime) -> Result<(), Fail> {
    for (command, held, read, write, taken, exit, printed) in [
        ("run", SMALL_MODEL, 1, 0, 0, Exit::ReadFault, ""),
        ("run", SMALL_MODEL, 0, 1, 0, Exit::WriteFault, ""),
        ("run", SMALL_MODEL, 0, 1, 3, Exit::WriteFault, "sta"),
        (
            "run",
            SMALL_MODEL,
            0,
            2,
            1,
            Exit::WriteFault,
            "state 0\n  x = undef\ne",
        ),
        ("format", SMALL_MODULE, 1, 0, 0, Exit::ReadFault, ""),
        ("format", SMALL_MODULE, 0, 1, 4, Exit::WriteFault, "modu"),
    ] {
        let (end, sink) = failing(rt.alloc(), command, held, read, write, taken)?;
        assert_eq!(rt; end, exit, "{command} {read} {write} {taken}");
        assert_eq!(rt;
            sink.bytes(),
            printed.as_bytes(),
            "{command} {read} {write} {taken}"
        );
    }
    Ok(())
}

/// The words `run`, one byte that is no text, and `x`, after the program's name.
struct ThreeWords;

impl Env for ThreeWords {
    fn arg(&self, i: usize, buf: &mut [u8]) -> Result<usize, FillError> {
        let word: &[u8] = match i {
            0 => b"asmeta",
            1 => b"run",
            2 => b"\xff",
            3 => b"x",
            _ => return Err(FillError::NotPresent),
        };
        if buf.len() < word.len() {
            return Err(FillError::TooLong);
        }
        buf[..word.len()].copy_from_slice(word);
        Ok(word.len())
    }

    fn var(&self, _name: &str, _buf: &mut [u8]) -> Result<usize, FillError> {
        Err(FillError::NotPresent)
    }

    fn var_at(&self, _i: usize, _buf: &mut [u8]) -> Result<usize, FillError> {
        Err(FillError::NotPresent)
    }
}

#[test]
fn a_word_that_is_no_text_is_empty(rt: HostRuntime) -> Result<(), Fail> {
    let words = read_words(rt.alloc(), &ThreeWords)?;
    assert_eq!(rt; words.len(), 3);
    for (word, text) in words.iter().zip(["run", "", "x"].iter()) {
        assert_eq!(rt; word.text(), *text);
    }
    Ok(())
}

/// A model that counts up to 3, one that keeps what two monitored functions say, and one with a shared function.
const MODELS: [(&str, &str); 3] = [
    (
        "t.asm",
        "asm t\nsignature:\ndomain D subsetof Integer controlled x : D\ndefinitions:\ndomain D = {1:3} rule r_to($v in D) = x := $v\nmain rule r_Main =\nif x < 3 then x := x + 1 endif\ndefault init s0:\nfunction x = 1\n",
    ),
    (
        "m.asm",
        "asm m signature: monitored m : Boolean monitored n : Boolean controlled x : Boolean definitions: main rule r_Main = x := m and n default init s0:",
    ),
    (
        "h.asm",
        "asm h signature: shared s : Boolean controlled x : Boolean definitions: invariant over x : x main rule r_Main = par x := s s := false endpar default init s0: function s = true function x = true",
    ),
];

/// The words behind `play s.avalla`, the model, the commands from the third line on, the code and what is printed.
const PLAYS: [(&[&str], &str, &str, u8, &str); 28] = [
    (
        &[],
        "t.asm",
        "begin up step end check x = 2; execblock up; check x = 3;",
        0,
        "state 0\n  x = 1\nstate 1\n  x = 2\ncheck 1 passed\nstate 2\n  x = 3\ncheck 2 passed\npassed\n",
    ),
    (
        &["--budget", "5"],
        "t.asm",
        "step until x = 9;",
        4,
        "state 0\n  x = 1\nstate 1\n  x = 2\nstate 2\n  x = 3\nstate 3\n  x = 3\nstate 4\n  x = 3\nstate 5\n  x = 3\nstop: budget 5 used up\n",
    ),
    (
        &["--budget", "2"],
        "t",
        "step until x = 3; step until x = 3;",
        0,
        "state 0\n  x = 1\nstate 1\n  x = 2\nstate 2\n  x = 3\npassed\n",
    ),
    (
        &["--budget", "1"],
        "./t.asm",
        "step until x = 2; step until x = 3;",
        0,
        "state 0\n  x = 1\nstate 1\n  x = 2\nstate 2\n  x = 3\npassed\n",
    ),
    (
        &["--budget", "0"],
        "t",
        "step until x = 1; step until x = 2;",
        4,
        "state 0\n  x = 1\nstop: budget 0 used up\n",
    ),
    (
        &[],
        "t.asm",
        "check x = 2; step",
        1,
        "state 0\n  x = 1\ncheck 1 failed\nfailed\n",
    ),
    (
        &[],
        "t.asm",
        "exec x := 3; check x = 3;",
        0,
        "state 0\n  x = 1\nstate 1\n  x = 3\ncheck 1 passed\npassed\n",
    ),
    (
        &[],
        "t.asm",
        "exec let ($v = x + 1) in r_to[$v] endlet; check x = 2;",
        0,
        "state 0\n  x = 1\nstate 1\n  x = 2\ncheck 1 passed\npassed\n",
    ),
    (
        &[],
        "t.asm",
        "execblock up;",
        3,
        "s.avalla:3:11: no such block: up\n",
    ),
    (
        &[],
        "t.asm",
        "begin up step execblock up; end",
        3,
        "s.avalla:3:25: no such block: up\n",
    ),
    (
        &[],
        "t.asm",
        "begin go exec x := 3; end begin go exec x := 2; end execblock go;",
        0,
        "state 0\n  x = 1\nstate 1\n  x = 3\nstate 2\n  x = 2\nstate 3\n  x = 2\npassed\n",
    ),
    (
        &[],
        "t.asm",
        "begin one step end begin two execblock one; end execblock two;",
        0,
        "state 0\n  x = 1\nstate 1\n  x = 2\nstate 2\n  x = 3\nstate 3\n  x = 3\npassed\n",
    ),
    (
        &[],
        "t.asm",
        "exec x := undef; step",
        4,
        "state 0\n  x = 1\nstate 1\n  x = undef\nstop: undefined guard at t.asm:7:1\n",
    ),
    (&[], "t.asm", "set x := 1;", 3, "s.avalla:3:5: bad set: x\n"),
    (
        &[],
        "t.asm",
        "check x; set x := 1;",
        3,
        "s.avalla:3:7: wrong type: x\n",
    ),
    (
        &[],
        "t.asm",
        "check x = $v;",
        3,
        "s.avalla:3:11: unbound variable: $v\n",
    ),
    (
        &[],
        "t.asm",
        "step until 2147483648 * 2147483648 * 2 > 0;",
        3,
        "s.avalla:3:12: range too wide: 2147483648\n",
    ),
    (
        &[],
        "t.asm",
        "exec r_up[1];",
        3,
        "s.avalla:3:6: unknown name: r_up\n",
    ),
    (
        &[],
        "t.asm",
        "exec x := 4;",
        4,
        "state 0\n  x = 1\nstop: bad value 4 for x at s.avalla:3:6\n",
    ),
    (&[], "u", "", 3, "u.asm: no such file\n"),
    (&[], "t.asm", "check", 3, "s.avalla:4:1: syntax error\n"),
    (&[], "s.avalla", "", 3, "s.avalla:1:1: syntax error\n"),
    (
        &[],
        "m.asm",
        "set m := true; set n := true; step step check x;",
        0,
        "state 0\n  x = undef\nstate 1\n  x = true\nstate 2\n  x = true\ncheck 1 passed\npassed\n",
    ),
    (
        &[],
        "m.asm",
        "check isUndef(x); check m;",
        4,
        "state 0\n  x = undef\ncheck 1 passed\nstop: no input for m\n",
    ),
    (
        &[],
        "m.asm",
        "check x;",
        1,
        "state 0\n  x = undef\ncheck 1 failed\nfailed\n",
    ),
    (
        &[],
        "h.asm",
        "set s := true; check s; step check not s;",
        0,
        "state 0\n  s = true\n  x = true\ncheck 1 passed\nstate 1\n  s = false\n  x = true\ncheck 2 passed\npassed\n",
    ),
    (
        &[],
        "h.asm",
        "step set s := true; step step check true;",
        4,
        "state 0\n  s = true\n  x = true\nstate 1\n  s = false\n  x = true\nstate 2\n  s = false\n  x = true\nstate 3\n  s = false\n  x = false\nstop: invariant 1\n",
    ),
    (
        &["--choices", "1,0"],
        "t.asm",
        "exec choose $v in D do x := $v; exec choose $v in D do x := $v;",
        0,
        "state 0\n  x = 1\nstate 1\n  x = 2\nstate 2\n  x = 1\npassed\n",
    ),
];

/// How the play of a scenario over these models ends, and what it prints.
fn play(alloc: Global, held: &str, options: &[&str]) -> Result<(Exit, NoFaultSink), Fail> {
    let mut shelf = NoFaultShelf::new(alloc);
    for (name, model) in MODELS {
        shelf.add(alloc, name, model.as_bytes())?;
    }
    shelf.add(alloc, "s.avalla", held.as_bytes())?;
    let mut words = words(alloc, &["play", "s.avalla"])?;
    for option in options {
        words.push(Name::of(alloc, option)?)?;
    }
    let mut sink = NoFaultSink::new(alloc);
    let exit = asmeta(alloc, &words, &mut shelf, &mut sink);
    Ok((exit, sink))
}

/// How the play of a scenario with these commands ends, and what it prints.
fn play_of(
    alloc: Global,
    options: &[&str],
    load: &str,
    commands: &str,
) -> Result<(Exit, NoFaultSink), Fail> {
    let held = format!(in alloc; "scenario s\nload {load}\n{commands}\n")?;
    play(alloc, &held, options)
}

#[test]
fn each_scenario_has_its_play(rt: HostRuntime) -> Result<(), Fail> {
    let alloc = rt.alloc();
    for (options, load, commands, code, printed) in PLAYS {
        let (exit, sink) = play_of(alloc, options, load, commands)?;
        assert_eq!(rt; exit, Exit::Code(code), "{commands}");
        assert_eq!(rt; sink.bytes(), printed.as_bytes(), "{commands}");
    }
    Ok(())
}

/// A scenario of five blocks that unfold to 100,000 commands, and of further ones.
fn long_scenario(alloc: Global, further: &str) -> Result<String, Fail> {
    let sets = repeated(alloc, "set m := true; ", 10)?;
    let b = repeated(alloc, "execblock a; ", 9)?;
    let c = repeated(alloc, "execblock a; execblock b; ", 9)?;
    let d = repeated(alloc, "execblock a; execblock b; execblock c; ", 9)?;
    let e = repeated(
        alloc,
        "execblock a; execblock b; execblock c; execblock d; ",
        9,
    )?;
    Ok(format!(in alloc;
        "scenario s load m.asm begin a {sets}end begin b {b}end begin c {c}end begin d {d}end begin e {e}end {further}"
    )?)
}

/// How the play of such a scenario ends, and what it prints.
fn long_play(alloc: Global, further: &str) -> Result<(Exit, NoFaultSink), Fail> {
    let held = long_scenario(alloc, further)?;
    play(alloc, &held, &[])
}

#[test]
fn at_most_100_000_commands_are_met(rt: HostRuntime) -> Result<(), Fail> {
    let alloc = rt.alloc();
    for (further, code, printed) in [
        ("", 0, "state 0\n  x = undef\npassed\n"),
        ("set m := true;", 3, "s.avalla: scenario too long\n"),
    ] {
        let (exit, sink) = long_play(alloc, further)?;
        assert_eq!(rt; exit, Exit::Code(code), "further: {further}");
        assert_eq!(rt; sink.bytes(), printed.as_bytes(), "further: {further}");
    }
    Ok(())
}

/// How the play of a scenario of so many blocks without commands ends, and what it prints.
fn blocks_play(alloc: Global, count: usize) -> Result<(Exit, NoFaultSink), Fail> {
    let blocks = repeated(alloc, "begin a end ", count)?;
    let held = format!(in alloc; "scenario s load m.asm {blocks}")?;
    play(alloc, &held, &[])
}

#[test]
fn at_most_64_blocks_are_taken(rt: HostRuntime) -> Result<(), Fail> {
    let alloc = rt.alloc();
    for (count, code, printed) in [
        (64, 0, "state 0\n  x = undef\npassed\n"),
        (65, 3, "s.avalla: scenario too long\n"),
    ] {
        let (exit, sink) = blocks_play(alloc, count)?;
        assert_eq!(rt; exit, Exit::Code(code), "{count} blocks");
        assert_eq!(rt; sink.bytes(), printed.as_bytes(), "{count} blocks");
    }
    Ok(())
}
