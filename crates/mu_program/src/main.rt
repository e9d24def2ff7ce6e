//! The program: the words of the command line, standard input and standard output, handed to the commands.
#![tactic(auto)]

mod absent;
mod standard;
#[cfg(test)]
mod tests;

use absent::{NoClock, NoFlash, NoLink};
use mu_top::{Ended, Status, WordList, top};
use standard::{StandardInput, StandardOutput};
use std::env;
use std::io::{self, ErrorKind};
use std::process::ExitCode;
use std::rt::Env;

/// The words behind the program's name. A word that isn't UTF-8 is an error.
fn command_line<R: Env + Alloc>(rt: &R) -> io::Result<WordList> {
    let mut words = WordList::new();
    for word in env::args(rt)?.skip(1) {
        words.add(word.as_str());
    }
    Ok(words)
}

/// Runs a command. No command that there is uses a flash, a link or a clock.
fn run<R: AllocGlobal + Input + Print>(rt: &R, words: &WordList) -> u8 {
    let mut source = StandardInput::new(rt.reader());
    let mut sink = StandardOutput::new(io::writer(rt));
    let Ended { status, flash: _ } = top(
        rt.alloc(),
        words,
        &mut source,
        &mut sink,
        NoFlash::new(),
        &mut NoLink::new(),
        &mut NoClock,
    );
    status
}

fn main(rt: HostRuntime) -> ExitCode {
    let status = match command_line(&rt) {
        Ok(words) => run(&rt, &words),
        Err(fault) if fault.kind() == ErrorKind::OutOfMemory => Status::NoMemory.number(),
        Err(_) => Status::Usage.number(),
    };
    ExitCode::from(status)
}
