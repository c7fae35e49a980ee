//! Streams that give little, take little or fail, under reading, loading, running and checking.
use crate::calls::{EMPTY, PRINTED, SUM, SUM_PRINTED, is_written};
use crate::fakes::{Clogged, Dripping, writer_of};
use ir_characters::Text;
use ir_context::Context;
use irkit_driver::{KitPass, Refusal, Watched, check, load, run};
use irkit_streams::{DecodeFault, ReadFault, decode, read_to_end};
use kit::{Kit, let_go};
use std::alloc::{AllocError, Global};
use std::io::Write;
use std::process::Abort;

/// How many calls read the module that holds nothing to its end, byte by byte.
const ENOUGH: u64 = 26;

/// Whether reading two bytes in so many turns gives both, or ends in a failed read, where the reader fails after so
/// many calls; and whether a call has failed then, three were made if there were as many turns, and the last gave none
/// where that was the end.
fn reads(alloc: Global, calls: u64, turns: u64, fails: bool, gives: bool) -> bool {
    let mut input = Watched::new(Dripping { rest: b"ab", calls });
    let is_right = match read_to_end(alloc, &mut input, turns) {
        Ok(bytes) => gives && bytes.as_slice() == b"ab".as_slice(),
        Err(fault) => !gives && fault == ReadFault::Read,
    };
    is_right
        && input.has_failed() == fails
        && input.calls() == turns.min(3)
        && input.ends() == u64::from(gives)
}

/// Whether these bytes are the text of these characters.
fn is_decoded(alloc: Global, bytes: &[u8], chars: &[char]) -> Result<bool, AllocError> {
    match decode(alloc, bytes.to_vec(alloc)?) {
        Ok(all) => Ok(all.as_text() == Text::Characters(chars)),
        Err(_) => Ok(false),
    }
}

/// Whether these bytes are no text from this one on.
fn is_refused(alloc: Global, bytes: &[u8], at: usize) -> Result<bool, AllocError> {
    match decode(alloc, bytes.to_vec(alloc)?) {
        Ok(_) => Ok(false),
        Err(fault) => Ok(fault == DecodeFault::NotUtf8(at)),
    }
}

/// Bytes with the first that isn't part of a text.
const NO_TEXTS: &[(&[u8], usize)] = &[(b"\xff", 0), (b"ab\xc3", 2), (b"a\xc3\xa9\x80", 3)];

/// Bytes are read to the end, and are the characters of a text or none.
#[test]
fn bytes_are_read_and_decoded(rt: HostRuntime) -> Result<(), AllocError> {
    let alloc = rt.alloc();
    for (calls, turns, fails, gives) in [
        (9, 3, false, true),
        (9, 2, false, false),
        (2, 9, true, false),
    ] {
        assert!(rt; reads(alloc, calls, turns, fails, gives), "{calls}");
    }
    assert!(rt; is_decoded(alloc, b"ab", &['a', 'b'])?);
    assert!(rt; !is_decoded(alloc, b"ab", &['a', 'c'])?);
    assert!(rt; is_decoded(alloc, "aé".as_bytes(), &['a', 'é'])?);
    for (bytes, at) in NO_TEXTS {
        assert!(rt; is_refused(alloc, bytes, *at)?, "{at}");
    }
    Ok(())
}

/// Whether loading this into a context ends with this fault, or none.
fn loads(alloc: Global, ctx: &mut Context<Kit>, rest: &[u8], fault: &Option<Refusal>) -> bool {
    let mut input = Watched::new(Dripping { rest, calls: 99 });
    load(alloc, ctx, &mut input).err() == *fault
}

/// Whether a module is loaded into a new context, and a text that is none is refused after it.
fn loads_one(alloc: Global) -> bool {
    let mut ctx = Context::new(alloc);
    let loaded = loads(alloc, &mut ctx, EMPTY, &None)
        && loads(alloc, &mut ctx, b"", &Some(Refusal::Syntax(1, 1)));
    let_go(ctx);
    loaded
}

/// A module gives its root, and a text that is none doesn't.
#[test]
fn loading_gives_a_root(rt: HostRuntime) {
    assert!(rt; loads_one(rt.alloc()));
}

/// Whether the answer is no fault where all was read, and else that of a failed read.
fn is_answer(answer: &Result<(), Refusal>, is_read: bool) -> bool {
    match answer {
        Ok(()) => is_read,
        Err(refusal) => !is_read && *refusal == Refusal::Read,
    }
}

/// Whether checking a module says that it is one, where its reader allows enough calls, and else writes nothing.
fn checks(alloc: Global, calls: u64) -> bool {
    let is_read = calls >= ENOUGH;
    let mut input = Watched::new(Dripping { rest: EMPTY, calls });
    let mut line = writer_of(alloc, 1, 99, true);
    let answer = check(alloc, &mut input, &mut line);
    let written = if is_read { "ok\n" } else { "" };
    is_answer(&answer, is_read)
        && input.has_failed() != is_read
        && line.inner().taken.as_slice() == written.as_bytes()
}

/// Whether running no passes over a module writes it, where its reader allows enough calls, and else nothing.
fn runs(alloc: Global, calls: u64) -> bool {
    let is_read = calls >= ENOUGH;
    let mut input = Watched::new(Dripping { rest: EMPTY, calls });
    let mut text = writer_of(alloc, 1, 99, true);
    let answer = run(alloc, &[], &mut input, &mut text);
    let written = if is_read { PRINTED } else { "" };
    is_answer(&answer, is_read)
        && input.has_failed() != is_read
        && text.inner().taken.as_slice() == written.as_bytes()
}

/// A reader fails at any of its calls.
#[test]
fn a_failed_read_writes_nothing(rt: HostRuntime) {
    for calls in 0..=ENOUGH {
        assert!(rt; checks(rt.alloc(), calls), "{calls}");
        assert!(rt; runs(rt.alloc(), calls), "{calls}");
    }
}

/// A module, passes, and what is printed of it after them.
type Example = (&'static [u8], &'static [KitPass], &'static str);

/// A module that holds nothing, and one that passes change.
const EXAMPLES: &[Example] = &[
    (EMPTY, &[], PRINTED),
    (SUM, &[KitPass::Sccp, KitPass::Dce], SUM_PRINTED),
];

/// Whether a module is written as far as the room allows, by writes of at most so many bytes.
fn writes(alloc: Global, example: &Example, step: usize, room: usize, fails: bool) -> bool {
    let (text, passes, printed) = example;
    let mut output = writer_of(alloc, step, room, fails);
    let answer = run(alloc, passes, &mut Watched::new(*text), &mut output);
    is_written(&answer, &output, printed, room)
}

/// Any room up to that of the whole is filled by writes of at most so many bytes.
fn rooms_are_filled(rt: &impl Abort, alloc: Global, example: &Example, step: usize, fails: bool) {
    for room in 0..=example.2.len() {
        assert!(rt; writes(alloc, example, step, room, fails), "{step}, {room}");
    }
}

/// What is printed of a module is written by writes of one byte, of seven, or of all.
fn is_written_in_parts(rt: &impl Abort, alloc: Global, example: &Example) {
    assert!(rt; writes(alloc, example, 9999, 9999, true));
    for (step, fails) in [(1, false), (1, true), (7, false), (7, true)] {
        rooms_are_filled(rt, alloc, example, step, fails);
    }
}

/// A write takes a part, and once there is no room fails or takes none.
#[test]
fn a_write_may_take_a_part(rt: HostRuntime) {
    for example in EXAMPLES {
        is_written_in_parts(&rt, rt.alloc(), example);
    }
}

/// Whether a flush that fails has failed here, too.
fn is_clogged() -> bool {
    let mut output = Watched::new(Clogged);
    output.flush().is_err() && output.has_failed()
}

/// A flush is passed on.
#[test]
fn a_flush_is_passed_on(rt: HostRuntime) {
    assert!(rt; is_clogged());
}
