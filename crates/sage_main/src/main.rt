//! The program `sage`: the real files, output and errors, and the top call.
#![tactic(auto)]

mod usage;

use sage::run;
use sage_outside::{FileShelf, NoDoor, NoLink, WriteSink};
use std::alloc::Global;
use std::env;
use std::io::{ErrorKind, Write};
use std::process::ExitCode;
use term_core::{Items, Memory, Text, TextFault};

/// Why there are no words to run.
enum WordsFault {
    /// An argument is not UTF-8.
    NotUtf8,
    /// There was no memory for the words.
    Memory,
}

impl From<Memory> for WordsFault {
    fn from(_: Memory) -> Self {
        WordsFault::Memory
    }
}

impl From<TextFault> for WordsFault {
    fn from(fault: TextFault) -> Self {
        match fault {
            TextFault::NotUtf8 { .. } => WordsFault::NotUtf8,
            TextFault::Memory => WordsFault::Memory,
        }
    }
}

/// The words after the program's name.
fn words_of(rt: &HostRuntime, alloc: Global) -> Result<Items<Text>, WordsFault> {
    let args = match env::args(rt) {
        Ok(args) => args,
        Err(e) if e.kind() == ErrorKind::OutOfMemory => return Err(WordsFault::Memory),
        Err(_) => return Err(WordsFault::NotUtf8),
    };
    let mut words = Items::new(alloc);
    for word in args.skip(1) {
        words.push(Text::from_bytes(alloc, word.as_bytes())?)?;
    }
    Ok(words)
}

/// The text that a lone option asks for, if the words are one.
fn told_of(words: &[Text]) -> Option<&'static str> {
    match words {
        [word] if word.as_str() == "--help" => Some(usage::USAGE),
        [word] if word.as_str() == "--version" => Some(usage::VERSION),
        _ => None,
    }
}

fn print(rt: &HostRuntime, text: &str) -> u8 {
    match rt.stdout().write_all(text.as_bytes()) {
        Ok(()) => 0,
        Err(_) => 9,
    }
}

fn run_words(rt: &HostRuntime, alloc: Global, words: &[Text]) -> u8 {
    let mut shelf = FileShelf::new(alloc, rt);
    let mut out = WriteSink::new(rt.stdout());
    let mut err = WriteSink::new(rt.stderr());
    run(
        alloc,
        words,
        &mut shelf,
        &mut NoLink::new(),
        &mut NoDoor::new(),
        &mut out,
        &mut err,
    )
}

/// Tells why there are no words, and answers the status.
fn refuse(rt: &HostRuntime, message: &str, status: u8) -> u8 {
    let _ = rt.stderr().write_all(message.as_bytes());
    status
}

fn main(rt: HostRuntime) -> ExitCode {
    let alloc = rt.alloc();
    let status = match words_of(&rt, alloc) {
        Ok(words) => match told_of(words.as_slice()) {
            Some(text) => print(&rt, text),
            None => run_words(&rt, alloc, words.as_slice()),
        },
        Err(WordsFault::NotUtf8) => refuse(&rt, "sage: words\n", 2),
        Err(WordsFault::Memory) => refuse(&rt, "sage: memory\n", 1),
    };
    ExitCode::from(status)
}
