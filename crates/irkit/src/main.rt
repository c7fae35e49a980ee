//! The program: its words and the standard streams go to [`drive`], whose answer is the exit status.
#![tactic(auto)]

use irkit_driver::Watched;
use irkit_outlines::drive;
use std::alloc::{AllocError, Global};
use std::process::ExitCode;
use std::{env, io};

/// Blocks of up to 4 MB are kept for what comes next when they are given back. With more the largest tables of
/// a long text would stay, too, and with them more memory than the passes need at once.
const KEPT: usize = 4 << 20;

/// Has the C library keep what is given back, rather than return it to the system and fetch it anew.
///
/// Source: mallopt(3), on `M_MMAP_THRESHOLD`: blocks up to the size of the largest block of their own that was given back
/// are taken from the heap. Nothing is read or written here, and a refusal changes nothing.
fn keep_memory(alloc: Global) {
    let block: Result<Vec<u8>, AllocError> = Vec::with_capacity(alloc, KEPT);
    drop(block);
}

/// The words of the command line, of which the first is the program's name.
fn words_of(rt: &HostRuntime) -> io::Result<Vec<String>> {
    Ok(env::args(rt)?.collect(rt.alloc())?)
}

/// Tells why the words can't be had, where that can be told, and gives the status: 2 where one isn't UTF-8, and 1 where
/// memory was refused.
fn refuse_words(rt: &HostRuntime, kind: io::ErrorKind) -> ExitCode {
    let (fault, status) = match kind {
        io::ErrorKind::InvalidData => ("a word of the command line isn't UTF-8", 2),
        _ => ("memory", 1),
    };
    let _ = eprintln!(rt; "error: {fault}");
    ExitCode::from(status)
}

fn main(rt: HostRuntime) -> ExitCode {
    let alloc = rt.alloc();
    let words = match words_of(&rt) {
        Ok(words) => words,
        Err(error) => return refuse_words(&rt, error.kind()),
    };
    keep_memory(alloc);
    let mut input = Watched::new(rt.stdin());
    let mut output = Watched::new(rt.stdout());
    let mut faults = Watched::new(rt.stderr());
    ExitCode::from(drive(alloc, words, &mut input, &mut output, &mut faults))
}
