//! Lists that are read.
use std::alloc::Global;
use std::test::Fail;
use text_lists::{delimited_list_parser, list_parser, list_with_sep_parser, zero_or_more_parser};
use text_streams::{ParseFault, ParseResult, StateStream, TextError, int_parse};
use text_writers::ListSeparator;

/// A number, in a stream that counts the calls.
fn number(alloc: Global, stream: &mut StateStream<'_, u8>) -> ParseResult<u8> {
    stream.state = stream.state.saturating_add(1);
    int_parse(alloc, stream)
}

/// A fault on the first line.
fn syntax_at(column: u64) -> ParseFault {
    ParseFault {
        line: 1,
        column,
        cause: TextError::Syntax,
        consumed: false,
    }
}

#[test]
fn members_are_read_up_to_the_last(rt: HostRuntime) -> Result<(), Fail> {
    let alloc = rt.alloc();
    let parser = |stream: &mut StateStream<'_, u8>| number(alloc, stream);
    let mut stream = StateStream::new("1 , 2,3 ;[ ]", 0);
    let members = list_parser(alloc, &mut stream, ',', parser);
    match members {
        Ok(members) => assert_eq!(rt; members.as_slice(), [1, 2, 3].as_slice()),
        Err(_) => assert!(rt; false),
    }
    assert_eq!(rt; stream.state, 3);
    assert_eq!(rt; stream.position.column(), 9);
    let none = list_parser(alloc, &mut stream, ',', parser);
    match none {
        Ok(members) => assert!(rt; members.is_empty()),
        Err(_) => assert!(rt; false),
    }
    assert_eq!(rt; stream.position.column(), 9);
    Ok(())
}

#[test]
fn lists_stand_between_signs(rt: HostRuntime) -> Result<(), Fail> {
    let alloc = rt.alloc();
    let parser = |stream: &mut StateStream<'_, u8>| number(alloc, stream);
    let mut stream = StateStream::new("[ 7, 8 ]x", 0);
    match delimited_list_parser(alloc, &mut stream, '[', ']', ',', parser) {
        Ok(members) => assert_eq!(rt; members.as_slice(), [7, 8].as_slice()),
        Err(_) => assert!(rt; false),
    }
    assert_eq!(rt; stream.position.column(), 9);
    let mut missing = StateStream::new("[1,]", 0);
    match delimited_list_parser(alloc, &mut missing, '[', ']', ',', parser) {
        Ok(_) => assert!(rt; false),
        Err(fault) => assert_eq!(rt; fault, syntax_at(4)),
    }
    assert_eq!(rt; missing.position.column(), 1);
    let mut open = StateStream::new("[1 2]", 0);
    match delimited_list_parser(alloc, &mut open, '[', ']', ',', parser) {
        Ok(_) => assert!(rt; false),
        Err(fault) => assert_eq!(rt; fault, syntax_at(4)),
    }
    Ok(())
}

#[test]
fn members_without_a_sign_follow_one_another(rt: HostRuntime) -> Result<(), Fail> {
    let alloc = rt.alloc();
    let parser = |stream: &mut StateStream<'_, u8>| number(alloc, stream);
    let mut stream = StateStream::new("1\n2 3.", 0);
    match list_with_sep_parser(alloc, &mut stream, ListSeparator::Newline, parser) {
        Ok(members) => assert_eq!(rt; members.as_slice(), [1, 2, 3].as_slice()),
        Err(_) => assert!(rt; false),
    }
    let mut still = StateStream::new("1", 0);
    let stuck = zero_or_more_parser(alloc, &mut still, |_stream: &mut StateStream<'_, u8>| {
        Ok(Some(1u8))
    });
    match stuck {
        Ok(_) => assert!(rt; false),
        Err(fault) => assert_eq!(rt; fault, syntax_at(1)),
    }
    let mut all = StateStream::new("12;", 0);
    let digits = zero_or_more_parser(alloc, &mut all, |stream: &mut StateStream<'_, u8>| {
        match stream.position.next() {
            Some((character, next)) if character.is_digit(10) => {
                stream.position = next;
                Ok(Some(character))
            }
            _ => Ok(None),
        }
    });
    match digits {
        Ok(digits) => assert_eq!(rt; digits.as_slice(), ['1', '2'].as_slice()),
        Err(_) => assert!(rt; false),
    }
    Ok(())
}
