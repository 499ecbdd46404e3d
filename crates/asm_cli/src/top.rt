//! The top call.
ghost use Rattle.std.specs.Prelude.{◌≡◌, ◌≢◌, ◌≤◌, ◌↔◌, codes};
ghost use Rattle.asm_io.specs.Outside.{Told, Rose};
ghost use Rattle.asm_cli.specs.Exit.{OnCode, OnFault};
ghost use Rattle.asm_cli.specs.Words.{IsBadWords, seen};
ghost use Rattle.asm_cli.specs.Answer.{answer, says_task, OneAnswer, Prints, PrintsPart, HasCause, HasFailed, HasFileFault, IsDone, IsStopped, Says};

use crate::check::check_model;
use crate::command::{Task, asked};
use crate::exit::Exit;
use crate::format::format_file;
use crate::play::play_scenario;
use crate::run::run_model;
use crate::say::say;
use asm_io::{Shelf, Sink};
use asm_list::Name;
use std::alloc::Global;

/// Does all that the program does, and answers how it ends. The words are those of the command line
/// without the program's name.
pub fn asmeta<S: Shelf, K: Sink>(alloc: Global, words: &[Name], shelf: &mut S, sink: &mut K) -> Exit
    // What is written is what the definitions say of these words and files, or a prefix of it.
    ensures answer { Told (S.files shelf.old) (λ files. OnCode result (Prints (K.written sink.old) (K.written sink.new) (answer words.now files))) }
    ensures prefix { Told (S.files shelf.old) (λ files. OnFault result (PrintsPart (K.written sink.old) (K.written sink.new) (answer words.now files))) }

    // Each end has its cause. Want of memory alone is free.
    ensures read_fault { result ≡ Exit.ReadFault → Rose (S.faults shelf.old) (S.faults shelf.new) }
    ensures write_fault { result ≡ Exit.WriteFault → Rose (K.faults sink.old) (K.faults sink.new) }
    ensures bad_words { OnCode result (λ code. (code ≡ 2) ↔ IsBadWords words.now) }
    ensures bad_line { IsBadWords words.now → OnCode result (Prints (K.written sink.old) (K.written sink.new) (Says (codes "asmeta: bad arguments") 2)) }
    ensures few_codes { OnCode result (λ code. code ≤ 4) }
    ensures file_fault { Told (S.files shelf.old) (λ files. OnCode result (λ code. (code ≡ 3) ↔ HasFileFault words.now files)) }
    ensures stopped { Told (S.files shelf.old) (λ files. OnCode result (λ code. (code ≡ 4) ↔ IsStopped words.now files)) }
    ensures failed { Told (S.files shelf.old) (λ files. OnCode result (λ code. (code ≡ 1) ↔ HasFailed words.now files)) }
    ensures done { Told (S.files shelf.old) (λ files. OnCode result (λ code. (code ≡ 0) ↔ IsDone words.now files)) }
    ensures complete { Told (S.files shelf.old) (λ files. OnCode result (HasCause words.now files)) }

    // The shelf's files stay, and no count of faults falls.
    ensures files { S.files shelf.new ≡ S.files shelf.old }
    ensures shelf_later { S.faults shelf.old ≤ S.faults shelf.new }
    ensures sink_later { K.faults sink.old ≤ K.faults sink.new }
{
    command(alloc, words, shelf, sink)
}

/// The law that the words and the files determine what is printed, and the code.
#[tactic(auto, using(crate::proofs::Answering::one_answer))]
pub fn one_answer()
    ensures { OneAnswer }
{}

/// The command that the words ask. Which code comes where follows from what is printed.
fn command<S: Shelf, K: Sink>(alloc: Global, words: &[Name], shelf: &mut S, sink: &mut K) -> Exit
    ensures answer { Told (S.files shelf.old) (λ files. OnCode result (Prints (K.written sink.old) (K.written sink.new) (answer words.now files))) }
    ensures prefix { Told (S.files shelf.old) (λ files. OnFault result (PrintsPart (K.written sink.old) (K.written sink.new) (answer words.now files))) }
    ensures read_fault { result ≡ Exit.ReadFault → Rose (S.faults shelf.old) (S.faults shelf.new) }
    ensures write_fault { result ≡ Exit.WriteFault → Rose (K.faults sink.old) (K.faults sink.new) }
    ensures bad_words { OnCode result (λ code. (code ≡ 2) ↔ IsBadWords words.now) }
    ensures bad_line { IsBadWords words.now → OnCode result (Prints (K.written sink.old) (K.written sink.new) (Says (codes "asmeta: bad arguments") 2)) }
    ensures few_codes { OnCode result (λ code. code ≤ 4) }
    ensures files { S.files shelf.new ≡ S.files shelf.old }
    ensures shelf_later { S.faults shelf.old ≤ S.faults shelf.new }
    ensures sink_later { K.faults sink.old ≤ K.faults sink.new }
{
    match asked(alloc, words) {
        Ok(Some(task)) => serve(alloc, task, shelf, sink),
        Ok(None) => say(sink, b"asmeta: bad arguments\n", 2),
        Err(_) => Exit::Memory,
    }
}

/// Does what is asked.
fn serve<S: Shelf, K: Sink>(alloc: Global, task: Task<'_>, shelf: &mut S, sink: &mut K) -> Exit
    ensures answer { Told (S.files shelf.old) (λ files. OnCode result (Prints (K.written sink.old) (K.written sink.new) (says_task (seen task.entry) files))) }
    ensures prefix { Told (S.files shelf.old) (λ files. OnFault result (PrintsPart (K.written sink.old) (K.written sink.new) (says_task (seen task.entry) files))) }
    ensures good_words { OnCode result (λ code. code ≢ 2) }
    ensures few_codes { OnCode result (λ code. code ≤ 4) }
    ensures read_fault { result ≡ Exit.ReadFault → Rose (S.faults shelf.old) (S.faults shelf.new) }
    ensures write_fault { result ≡ Exit.WriteFault → Rose (K.faults sink.old) (K.faults sink.new) }
    ensures files { S.files shelf.new ≡ S.files shelf.old }
    ensures shelf_later { S.faults shelf.old ≤ S.faults shelf.new }
    ensures sink_later { K.faults sink.old ≤ K.faults sink.new }
{
    match task {
        Task::Run(run) => run_model(alloc, run, shelf, sink),
        Task::Format(model) => format_file(alloc, model, shelf, sink),
        Task::Check(model) => check_model(alloc, model, shelf, sink),
        Task::Play(plan) => play_scenario(alloc, plan, shelf, sink),
    }
}
