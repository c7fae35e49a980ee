//! The members of a list, one after another.
ghost use Rattle.std.specs.Prelude.{◌≡◌, ◌<◌, ◌≤◌, ◌++◌, ◌∷◌, [], ◌&&◌, MatchResult, MatchOption, true, Ok};
ghost use Rattle.std.specs.Fn.{CalledAtMut};
ghost use Rattle.text_streams.specs.Positions.{bytes_left};
ghost use Rattle.text_streams.specs.declared.faults.TextError.TheVariants.{Memory, Syntax};
ghost use Rattle.text_lists.specs.Members.{is_absence, Answers, IsAbsent, RefusesMember};
ghost use Rattle.text_lists.specs.Lists.{ReadsList, RefusesList};

use crate::signs::goes_on;
use std::alloc::Global;
use text_streams::{ParseFault, ParseResult, StateStream, TextError};

/// Calls a parser.
pub fn call<S, T, F: FnMut(&mut StateStream<'_, S>) -> ParseResult<T>>(
    stream: &mut StateStream<'_, S>,
    parser: &mut F,
) -> ParseResult<T>
    requires { (f : F) (x : _) → F.pre f x }
    ensures { CalledAtMut F.FnMut parser.old stream.old result parser.new stream.new }
{
    parser(stream)
}

/// Adds a member to those that were read.
pub fn add<S, T: Drop>(
    members: &mut Vec<T>,
    member: T,
    stream: &StateStream<'_, S>,
) -> ParseResult<()>
    ensures { MatchResult result (λ _. members.new.items ≡ members.old.items ++ member ∷ []) (λ fault. fault.cause ≡ Memory) }
{
    match members.push(member) {
        Ok(()) => Ok(()),
        Err(_) => Err(stream.fault(TextError::Memory)),
    }
}

/// Refuses a stream of which no less is left to be read than there was.
pub fn needs_less<S>(left: usize, stream: &StateStream<'_, S>) -> ParseResult<()>
    ensures { MatchResult result (λ _. bytes_left stream.now.position < left)
        (λ fault. (fault.cause ≡ Syntax) × (left ≤ bytes_left stream.now.position)) }
{
    if stream.position.bytes_left() < left {
        Ok(())
    } else {
        Err(stream.fault(TextError::Syntax))
    }
}

/// Whether a list ends at a fault: where it may, and the fault says that there is no member.
fn ends_at(may_end: bool, fault: &ParseFault) -> bool
    ensures { result ≡ (may_end && is_absence fault.now) }
{
    may_end && matches!(fault.cause, TextError::Syntax) && !fault.consumed
}

/// The next member of a list; none where there is none and it may be missing.
fn next_member<S, T, F: FnMut(&mut StateStream<'_, S>) -> ParseResult<T>>(
    stream: &mut StateStream<'_, S>,
    may_end: bool,
    parser: &mut F,
) -> ParseResult<Option<T>>
    requires { (f : F) (x : _) → F.pre f x }
    ensures { MatchResult result
        (λ member. MatchOption member ((may_end ≡ true) × IsAbsent F.FnMut (parser.old, stream.old) (parser.new, stream.new))
        (λ x. Answers F.FnMut (parser.old, stream.old) (Ok x) (parser.new, stream.new)))
        (RefusesMember F.FnMut may_end (parser.old, stream.old)) }
{
    let start = stream.position;
    match call(stream, parser) {
        Ok(member) => Ok(Some(member)),
        Err(fault) => {
            if ends_at(may_end, &fault) {
                stream.position = start;
                Ok(None)
            } else {
                Err(fault)
            }
        }
    }
}

/// The members of a list. Where there is a fault, the stream is where the last call left it.
pub fn read_members<S, T: Drop, F: FnMut(&mut StateStream<'_, S>) -> ParseResult<T>>(
    alloc: Global,
    stream: &mut StateStream<'_, S>,
    sign: Option<char>,
    mut parser: F,
) -> ParseResult<Vec<T>>
    requires { (f : F) (x : _) → F.pre f x }
    ensures { MatchResult result
        (λ members. ReadsList F.FnMut sign parser stream.old members.items stream.new)
        (RefusesList F.FnMut sign parser stream.old) }
{
    let mut members = Vec::new(alloc);
    let mut may_end = true;
    'members: loop {
        let left = stream.position.bytes_left();
        let Some(member) = next_member(stream, may_end, &mut parser)? else {
            return Ok(members);
        };
        add(&mut members, member, stream)?;
        if !goes_on(stream, sign) {
            return Ok(members);
        }
        needs_less(left, stream)?;
        may_end = sign.is_none();
    }
}
