//! The program: reads Abstract State Machines, checks them, prints their canonical text, runs them, and plays scenarios on them.
#![tactic(auto)]

mod check;
mod command;
mod counts;
mod exit;
mod fault;
#[cfg(test)]
mod fire_tests;
mod format;
mod model_fault;
mod option;
mod play;
mod run;
mod say;
mod scenario_file;
mod settings;
#[cfg(test)]
mod tests;
mod top;
mod words;

use crate::exit::Exit;
use crate::top::asmeta;
use crate::words::read_words;
use asm_io::{FolderShelf, OutSink};
use std::io;
use std::process::ExitCode;

fn main(rt: HostRuntime) -> ExitCode {
    let alloc = rt.alloc();
    let exit = match read_words(alloc, &rt) {
        Ok(words) => {
            let mut shelf = FolderShelf::new(&rt);
            let mut sink = OutSink::new(io::writer(&rt));
            asmeta(alloc, &words, &mut shelf, &mut sink)
        }
        Err(_) => Exit::Memory,
    };
    ExitCode::from(exit.status())
}
