//! `forces`: forwarding and control elements of one router, over standard input and output and TCP.
#![tactic(auto)]

use fc_base::{Memory, StdSink, StdSource, Text};
use fc_hub::{FileRounds, Patient, Sockets, TcpHub};
use fc_tool::run;
use fc_words::{Command, WordFault, command};
use std::alloc::Global;
use std::fs::File;
use std::io::ErrorKind;
use std::os::fd::AsRawFd;
use std::process::ExitCode;
use std::rt::Env;
use std::{env, io};

const NO_MEMORY: u8 = 9;
// The last descriptor of the standard streams.
const STANDARD_ERROR: i32 = 2;

// The words after the program's name. Words that are no text in UTF-8 make none, which is no command.
fn words(alloc: Global, rt: &(impl Env + AllocGlobal)) -> Result<Vec<String>, Memory> {
    let mut words = Vec::new(alloc);
    match env::args(rt) {
        Ok(args) => {
            for word in args.skip(1) {
                words.push(word)?;
            }
        }
        Err(error) if error.kind() == ErrorKind::OutOfMemory => return Err(Memory),
        Err(_) => {}
    }
    Ok(words)
}

// The command that the words mean, if they mean one.
fn meant(alloc: Global, words: &[String]) -> Result<Option<Command>, Memory> {
    match command(alloc, words) {
        Ok(meant) => Ok(Some(meant)),
        Err(WordFault::NoCommand) => Ok(None),
        Err(WordFault::Memory) => Err(Memory),
    }
}

// The hub that the words ask for. Where they ask for none, it is never called.
fn hub<'a>(
    alloc: Global,
    rt: &'a HostRuntime,
    words: &[String],
) -> Result<TcpHub<Sockets<&'a HostRuntime>>, Memory> {
    let Some(meant) = meant(alloc, words)? else {
        return TcpHub::listen(alloc, rt, "", 1);
    };
    match meant {
        Command::Show | Command::Make | Command::World | Command::Gen { .. } => TcpHub::listen(
            alloc, rt, "", 1,
        ),
        Command::Element {
            address,
            connections,
            ..
        } => TcpHub::listen(alloc, rt, address.as_str(), connections),
        Command::Control {
            addresses,
            connections,
            ..
        } => TcpHub::dial(alloc, rt, addresses, connections),
    }
}

// The file of the rounds that the words ask for. Where they ask for none, it is never read.
fn rounds_file(alloc: Global, words: &[String]) -> Result<Text, Memory> {
    let Some(meant) = meant(alloc, words)? else {
        return Text::from_str(alloc, "");
    };
    match meant {
        Command::Show
        | Command::Make
        | Command::World
        | Command::Gen { .. }
        | Command::Element { .. } => Text::from_str(alloc, ""),
        Command::Control { rounds_file, .. } => Ok(rounds_file),
    }
}

// A descriptor in the place of a standard stream that was closed, if one was: a directory, from which nothing can be read and to
// which nothing can be written.
fn held(rt: &HostRuntime) -> Option<File> {
    match File::open(rt, "/") {
        Ok(file) if file.as_raw_fd() <= STANDARD_ERROR => Some(file),
        _ => None,
    }
}

fn main(rt: HostRuntime) -> ExitCode {
    let alloc = rt.alloc();
    // Else a socket would take the number of a stream that was closed, and the report would go to an element.
    let _held = [held(&rt), held(&rt), held(&rt)];
    let Ok(words) = words(alloc, &rt) else {
        return ExitCode::from(NO_MEMORY);
    };
    let Ok(mut hub) = hub(alloc, &rt, words.as_slice()) else {
        return ExitCode::from(NO_MEMORY);
    };
    let Ok(file) = rounds_file(alloc, words.as_slice()) else {
        return ExitCode::from(NO_MEMORY);
    };
    let Ok(mut rounds) = FileRounds::at(alloc, &rt, file.as_str()) else {
        return ExitCode::from(NO_MEMORY);
    };
    let mut input = StdSource::new(Patient::new(&rt, rt.reader()));
    let mut out = StdSink::new(Patient::new(&rt, io::writer(&rt)));
    let status = run(
        alloc,
        words.as_slice(),
        &mut input,
        &mut out,
        &mut hub,
        &mut rounds,
    );
    hub.finish();
    ExitCode::from(status)
}
