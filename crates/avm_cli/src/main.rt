//! The program: its words, the files of the system, a file as the store, and standard output.
#![tactic(auto)]

use avm_outside::Sink;
use avm_top::{avm, spare_word, store_word};
use real_outside::{RealDisk, RealFiles, RealSink};
use std::alloc::AllocError;
use std::process::ExitCode;
use std::{env, io};

fn main(rt: HostRuntime) -> ExitCode {
    let mut files = RealFiles::new(&rt);
    let mut out = RealSink::new(&rt);
    let words = match words(&rt) {
        Ok(words) => words,
        Err(AllocError) => return no_memory(&mut out),
    };
    let mut disk = store(&rt, &words);
    let mut spare = spare(&rt, &words);
    let status = avm(
        rt.alloc(),
        &words,
        &mut files,
        &mut disk,
        &mut spare,
        &mut out,
    );
    ExitCode::from(status)
}

// The file of a job's store, which a command that makes a store also makes; no disk where it doesn't open.
fn store(rt: &HostRuntime, words: &[String]) -> RealDisk {
    match store_word(words) {
        Some(name) => RealDisk::open(rt, name, makes_store(words)),
        None => RealDisk::absent(),
    }
}

// The file that a store is moved into, made where it isn't there.
fn spare(rt: &HostRuntime, words: &[String]) -> RealDisk {
    match spare_word(words) {
        Some(name) => RealDisk::open(rt, name, true),
        None => RealDisk::absent(),
    }
}

// Whether the command makes a store or a roll.
fn makes_store(words: &[String]) -> bool {
    match words {
        [command, ..] => matches!(command.as_str(), "format" | "roll"),
        [] => false,
    }
}

// The end of a run whose words find no memory, as `avm` ends for want of it.
fn no_memory(out: &mut RealSink<'_>) -> ExitCode {
    match out.write(b"no memory\n") {
        Ok(()) => ExitCode::from(5),
        Err(_) => ExitCode::from(4),
    }
}

// The words after the program's name; none where one isn't text.
fn words(rt: &HostRuntime) -> Result<Vec<String>, AllocError> {
    let mut words = Vec::new(rt.alloc());
    match env::args(rt) {
        Ok(args) => {
            for word in args.skip(1) {
                words.push(word)?;
            }
            Ok(words)
        }
        Err(error) if error.kind() == io::ErrorKind::OutOfMemory => Err(AllocError),
        Err(_) => Ok(words),
    }
}
