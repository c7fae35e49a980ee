//! Small parsers.
use ir_locations::{Location, Source};
use std::alloc::Global;
use std::process::Abort;
use std::test::Fail;
use text_streams::{
    ParseFault, StateStream, StreamLocation, TextError, hex_int_parse, int_parse,
    number_as_string_parse, parse_from_str, quoted_string_parse, spaced,
    state_stream_from_iterator,
};
use text_writers::laws::quoted_is_read_again;
use text_writers::{Printable, State, quoted};

/// A syntax fault on the first line, before which nothing was read.
fn syntax_at(column: u64) -> ParseFault {
    ParseFault {
        line: 1,
        column,
        cause: TextError::Syntax,
        consumed: false,
    }
}

/// Asserts what a text says as a number of eight bits.
fn check_byte(rt: &impl Abort, alloc: Global, text: &str, said: Result<i8, ParseFault>) {
    let mut stream = StateStream::new(text, ());
    let read: Result<i8, ParseFault> = int_parse(alloc, &mut stream);
    assert_eq!(rt; read, said);
}

#[test]
fn bytes_are_read_up_to_their_bounds(rt: HostRuntime) -> Result<(), Fail> {
    check_byte(&rt, rt.alloc(), "-128", Ok(-128));
    check_byte(&rt, rt.alloc(), "127", Ok(127));
    check_byte(&rt, rt.alloc(), "-129", Err(syntax_at(1)));
    check_byte(&rt, rt.alloc(), "128", Err(syntax_at(1)));
    check_byte(&rt, rt.alloc(), "-", Err(syntax_at(1)));
    check_byte(&rt, rt.alloc(), "+1", Err(syntax_at(1)));
    check_byte(&rt, rt.alloc(), "", Err(syntax_at(1)));
    check_byte(&rt, rt.alloc(), "007x", Ok(7));
    Ok(())
}

#[test]
fn numbers_leave_what_follows(rt: HostRuntime) -> Result<(), Fail> {
    let mut stream = StateStream::new("-0012 ff", 5u8);
    let text = number_as_string_parse(rt.alloc(), &mut stream);
    match text {
        Ok(text) => assert_eq!(rt; text.as_str(), "-0012"),
        Err(_) => assert!(rt; false),
    }
    let place: Location<u8> = stream.loc();
    let expected = Location::SrcPos {
        source: Source::InMemory,
        line: 1,
        column: 6,
    };
    assert_eq!(rt; place, expected);
    let hex: Result<u8, ParseFault> = spaced(&mut stream, |stream: &mut StateStream<'_, u8>| {
        hex_int_parse(rt.alloc(), stream)
    });
    assert_eq!(rt; hex, Ok(255));
    assert_eq!(rt; stream.state, 5);
    let end: Result<u8, ParseFault> = int_parse(rt.alloc(), &mut stream);
    assert_eq!(rt; end, Err(syntax_at(9)));
    Ok(())
}

#[test]
fn quoted_texts_are_read_back(rt: HostRuntime) -> Result<(), Fail> {
    let mut text = String::new(rt.alloc());
    quoted("a \"b\" \\ é\n").fmt(&(), &mut State::new(), &mut text)?;
    assert_eq!(rt; text.as_str(), "\"a \\\"b\\\" \\\\ é\n\"");
    text.push_str("rest")?;
    let mut stream = StateStream::new(text.as_str(), ());
    match quoted_string_parse(rt.alloc(), &mut stream) {
        Ok(said) => assert_eq!(rt; said.as_str(), "a \"b\" \\ é\n"),
        Err(_) => assert!(rt; false),
    }
    let place: Location<u8> = stream.loc();
    let expected = Location::SrcPos {
        source: Source::InMemory,
        line: 2,
        column: 2,
    };
    assert_eq!(rt; place, expected);
    let bad = parse_from_str("\"\\n\"", (), |stream: &mut StateStream<'_, ()>| {
        quoted_string_parse(rt.alloc(), stream)
    });
    match bad {
        Ok(_) => assert!(rt; false),
        Err(fault) => assert_eq!(rt; fault, syntax_at(1)),
    }
    match quoted_is_read_again(rt.alloc(), "\\", "\"") {
        Ok(said) => assert_eq!(rt; said.as_str(), "\\"),
        Err(_) => assert!(rt; false),
    }
    Ok(())
}

#[test]
fn characters_of_an_iterator_are_a_text(rt: HostRuntime) -> Result<(), Fail> {
    let mut text = String::new(rt.alloc());
    let mut stream = state_stream_from_iterator(&mut text, "12,".chars(), ())?;
    let number: Result<u64, ParseFault> = int_parse(rt.alloc(), &mut stream);
    assert_eq!(rt; number, Ok(12));
    Ok(())
}
