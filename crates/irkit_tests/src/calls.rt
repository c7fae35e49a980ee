//! The program, as the tests call it.
use crate::fakes::{Dripping, Narrow, writer_of};
use irkit_driver::{Refusal, Request, Watched, drive, serve};
use std::alloc::{AllocError, Global};

/// A module that holds nothing.
pub const EMPTY: &[u8] = b"builtin.module @m {^b():}";

/// What is printed of it.
pub const PRINTED: &str = "builtin.module @m \n{\n  ^b_block1v1():\n}\n";

/// The sum of two constants, beside an argument that is of no use.
pub const SUM: &[u8] = b"builtin.module @m {^b(): \
        builtin.func @f: builtin.function <(builtin.integer i64)->(builtin.integer i64)> \
        {^e(x: builtin.integer i64): a = builtin.constant builtin.integer <2: i64>; \
        b = builtin.constant builtin.integer <3: i64>; s = kit.add a, b: builtin.integer i64; kit.return s}}";

/// What is printed of it where constants are known, and what is dead is gone.
pub const SUM_PRINTED: &str = "builtin.module @m \
    \n{\
    \n  ^b_block1v1():\
    \n    builtin.func @f: builtin.function <(builtin.integer i64)->(builtin.integer i64)> \
    \n    {\
    \n      ^e_block2v1(v0: builtin.integer i64):\
    \n        v4 = builtin.constant builtin.integer <5: i64>;\
    \n        kit.return v4\
    \n    }\
    \n}\
    \n";

/// What the program did: its status, what it wrote on its output and on its faults.
#[derive(Drop)]
pub struct Done {
    pub status: u8,
    pub written: String,
    pub told: String,
}

impl Done {
    /// What the program did that ended with this status, where its outputs took so much.
    fn of(alloc: Global, status: u8, output: &Narrow, faults: &Narrow) -> Result<Done, AllocError> {
        Ok(Done {
            status,
            written: String::from_utf8_lossy(alloc, &output.taken)?,
            told: String::from_utf8_lossy(alloc, &faults.taken)?,
        })
    }

    /// Whether the program ended with this status, and wrote and told this.
    pub fn is(&self, status: u8, written: &str, told: &str) -> bool {
        self.status == status && self.written.as_str() == written && self.told.as_str() == told
    }
}

/// The words of a line.
fn words_of(alloc: Global, line: &str) -> Result<Vec<String>, AllocError> {
    let mut all = Vec::new(alloc);
    for word in line.split_whitespace() {
        all.push(String::from_str(alloc, word)?)?;
    }
    Ok(all)
}

/// What the program does on these words and streams of its own.
fn served(
    alloc: Global,
    words: Vec<String>,
    input: &[u8],
    room: usize,
    faults_room: usize,
) -> Result<Done, AllocError> {
    let mut input = Watched::new(Dripping {
        rest: input,
        calls: 99999,
    });
    let mut output = writer_of(alloc, 7, room, true);
    let mut faults = writer_of(alloc, 100, faults_room, true);
    let status = drive(alloc, words, &mut input, &mut output, &mut faults);
    Done::of(alloc, status, output.inner(), faults.inner())
}

/// What is done for a request and this input, which comes byte by byte.
fn requested(alloc: Global, request: &Request, input: &[u8]) -> Result<Done, AllocError> {
    let mut input = Watched::new(Dripping {
        rest: input,
        calls: 99999,
    });
    let mut output = writer_of(alloc, 7, 999, true);
    let mut faults = writer_of(alloc, 100, 999, true);
    let status = serve(alloc, request, &mut input, &mut output, &mut faults);
    Done::of(alloc, status, output.inner(), faults.inner())
}

/// Whether a request on this input has this status, and writes and tells this.
pub fn is_served(
    alloc: Global,
    request: &Request,
    input: &[u8],
    status: u8,
    written: &str,
    told: &str,
) -> Result<bool, AllocError> {
    Ok(requested(alloc, request, input)?.is(status, written, told))
}

/// What the program does on the words of a line and this input, which comes byte by byte, where its outputs have that
/// room.
pub fn driven(
    alloc: Global,
    line: &str,
    input: &[u8],
    room: usize,
    faults_room: usize,
) -> Result<Done, AllocError> {
    let words = words_of(alloc, line)?;
    served(alloc, words, input, room, faults_room)
}

/// Whether the program on the words of a line and this input ends with this status, writes this on an output of that
/// room, and tells this.
pub fn does(
    alloc: Global,
    line: &str,
    input: &[u8],
    room: usize,
    status: u8,
    written: &str,
    told: &str,
) -> Result<bool, AllocError> {
    Ok(driven(alloc, line, input, room, 999)?.is(status, written, told))
}

/// Whether the answer is a fault exactly where the room is too small for a text of this length, and then says that it
/// was full.
fn is_answer(answer: &Result<(), Refusal>, len: usize, room: usize) -> bool {
    match answer {
        Ok(()) => len <= room,
        Err(refusal) => room < len && *refusal == Refusal::Write(room),
    }
}

/// Whether an output of this room has taken as much of a text as it may, and the answer says so.
pub fn is_written(
    answer: &Result<(), Refusal>,
    output: &Watched<Narrow>,
    text: &str,
    room: usize,
) -> bool {
    let taken = output.inner().taken.as_slice();
    is_answer(answer, text.len(), room)
        && output.has_failed() == (room < text.len())
        && taken.len() == text.len().min(room)
        && text.as_bytes().starts_with(taken)
}
