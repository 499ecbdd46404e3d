use asm_io::{
    FolderShelf, MemoryShelf, MemorySink, NoFaultShelf, NoFaultSink, OutSink, ReadError, Shelf,
    Sink, SinkError, Text, write_both, write_text,
};
use std::alloc::Global;
use std::io::Write;
use std::test::Fail;
use std::{fs, io};

// Reads of the one file `a`, which is `one`: the name, the limit, whether the call is to fail, and
// what it answers.
const READS: [(&str, u64, bool, Result<(), ReadError>); 6] = [
    ("a", 3, false, Ok(())),
    ("a", 2, false, Err(ReadError::TooLong)),
    ("b", 3, false, Err(ReadError::Absent)),
    ("a", 3, true, Err(ReadError::Failed)),
    ("a", 2, true, Err(ReadError::Failed)),
    ("b", 3, true, Err(ReadError::Failed)),
];

fn answer_of(answer: Result<Text, ReadError>) -> Result<(), ReadError> {
    match answer {
        Ok(_) => Ok(()),
        Err(error) => Err(error),
    }
}

fn memory_shelf(alloc: Global, fails: bool) -> Result<MemoryShelf, Fail> {
    let mut shelf = MemoryShelf::new(alloc);
    shelf.add(alloc, "a", b"older")?;
    shelf.add(alloc, "a", b"one")?;
    if fails {
        shelf.fail(1)?;
    }
    Ok(shelf)
}

fn no_fault_shelf(alloc: Global) -> Result<NoFaultShelf, Fail> {
    let mut shelf = NoFaultShelf::new(alloc);
    shelf.add(alloc, "a", b"one")?;
    Ok(shelf)
}

#[test]
fn shelves_in_memory(rt: HostRuntime) -> Result<(), Fail> {
    let alloc = rt.alloc();
    for (name, limit, fails, answer) in READS {
        let mut shelf = memory_shelf(alloc, fails)?;
        assert_eq!(rt;
            answer_of(shelf.read(alloc, name, limit)),
            answer,
            "{name} {limit}"
        );
        if !fails {
            let mut shelf = no_fault_shelf(alloc)?;
            assert_eq!(rt;
                answer_of(shelf.read(alloc, name, limit)),
                answer,
                "{name} {limit}"
            );
        }
    }
    Ok(())
}

#[test]
fn sinks_in_memory(rt: HostRuntime) -> Result<(), Fail> {
    let alloc = rt.alloc();
    let mut sure = NoFaultSink::new(alloc);
    write_both(&mut sure, b"one", b"two")?;
    assert_eq!(rt; sure.bytes(), b"onetwo".as_slice());
    let mut sink = MemorySink::new(alloc);
    sink.taken(2);
    sink.fail(2)?;
    assert_eq!(rt;
        write_both(&mut sink, b"one", b"two"),
        Err(SinkError::Failed)
    );
    assert_eq!(rt; sink.bytes(), b"onetw".as_slice());
    write_text(&mut sink, b".")?;
    assert_eq!(rt; sink.bytes(), b"onetw.".as_slice());
    Ok(())
}

#[test]
fn a_folder_gives_its_files(rt: HostRuntime) -> Result<(), Fail> {
    let alloc = rt.alloc();
    fs::write(&rt, "real.txt", "four")?;
    fs::create_dir(&rt, "sub")?;
    let mut shelf = FolderShelf::new(&rt);
    let text = shelf.read(alloc, "real.txt", 4)?;
    assert_eq!(rt; text.slice(), b"four".as_slice());
    for (name, limit, error) in [
        ("real.txt", 3, ReadError::TooLong),
        ("none.txt", 4, ReadError::Absent),
        ("real.txt/x", 4, ReadError::Absent),
        ("sub", 4, ReadError::Absent),
        ("", 4, ReadError::Absent),
    ] {
        assert_eq!(rt;
            shelf.read(alloc, name, limit).map(|_| ()),
            Err(error),
            "{name}"
        );
    }
    Ok(())
}

// A writer that takes so many bytes and then fails.
#[derive(Drop)]
struct Narrow {
    room: usize,
}

impl Write for Narrow {
    fn write(&mut self, buf: &[u8]) -> io::Result<usize> {
        if self.room == 0 {
            return Err(io::Error::from(io::ErrorKind::StorageFull));
        }
        let count = buf.len().min(self.room);
        self.room -= count;
        Ok(count)
    }

    fn flush(&mut self) -> io::Result<()> {
        Ok(())
    }
}

#[test]
fn an_output_takes_what_is_written(rt: HostRuntime) -> Result<(), Fail> {
    write_text(&mut OutSink::new(io::writer(&rt)), b"to standard output\n")?;
    let mut file = OutSink::new(fs::create(&rt, "written.txt")?);
    write_both(&mut file, b"one\n", b"two\n")?;
    let text = FolderShelf::new(&rt).read(rt.alloc(), "written.txt", 99)?;
    assert_eq!(rt; text.slice(), b"one\ntwo\n".as_slice());
    let mut narrow = OutSink::new(Narrow { room: 5 });
    assert_eq!(rt; narrow.write(b"one"), Ok(()));
    assert_eq!(rt; narrow.write(b"two"), Err(SinkError::Failed));
    Ok(())
}
