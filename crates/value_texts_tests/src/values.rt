//! Values that are read, and faults.
use crate::counts::{Size, Sizes};
use ir_print::ValueSort;
use std::alloc::{AllocError, Global};
use std::test::Fail;
use text_streams::{ParseFault, ParseResult, StateStream, TextError};
use value_texts::value_parse;

/// The number of the value at the front of a text, and the column behind it; or the cause and the column of the fault, and whether
/// anything was read before.
fn answer(
    alloc: Global,
    sort: ValueSort,
    text: &str,
) -> Result<(usize, u64), (TextError, u64, bool)> {
    let mut stream = StateStream::new(text, ());
    let mut store = ();
    let read: ParseResult<Size> = value_parse::<Sizes, ()>(alloc, &mut store, sort, &mut stream);
    match read {
        Ok(size) => Ok((size.number, stream.position.column())),
        Err(
            ParseFault {
                cause,
                column,
                consumed,
                ..
            },
        ) => Err((cause, column, consumed)),
    }
}

fn type_answer(alloc: Global, text: &str) -> Result<(usize, u64), (TextError, u64, bool)> {
    answer(alloc, ValueSort::Type, text)
}

fn attribute_answer(alloc: Global, text: &str) -> Result<(usize, u64), (TextError, u64, bool)> {
    answer(alloc, ValueSort::Attribute, text)
}

#[test]
fn values_are_read(rt: HostRuntime) -> Result<(), Fail> {
    let alloc = rt.alloc();
    // The last part of an integer is its width, of a list the `]` is none: the list itself.
    assert_eq!(rt; type_answer(alloc, "t.int i32 x"), Ok((3, 10)));
    assert_eq!(rt; type_answer(alloc, " t.int\u{a0}ui8>"), Ok((3, 11)));
    assert_eq!(rt; type_answer(alloc, "t.list[]"), Ok((0, 9)));
    assert_eq!(rt;
        type_answer(alloc, "t.list [t.int i1 , t.list [t.int i1], t.int i1 ] ]"),
        Ok((3, 49))
    );
    assert_eq!(rt;
        attribute_answer(alloc, "t.of t.list [t.int i1, t.int i2]"),
        Ok((2, 33))
    );
    assert_eq!(rt; attribute_answer(alloc, "t.pair -5: name"), Ok((0, 16)));
    assert_eq!(rt; attribute_answer(alloc, "t.pair 5:\"]\\\"\"t"), Ok((1, 15)));
    assert_eq!(rt; attribute_answer(alloc, "t.pair 5 : !7."), Ok((2, 14)));
    Ok(())
}

#[test]
fn bad_texts_are_refused(rt: HostRuntime) -> Result<(), Fail> {
    let alloc = rt.alloc();
    assert_eq!(rt; type_answer(alloc, ""), Err((TextError::Syntax, 1, false)));
    assert_eq!(rt;
        type_answer(alloc, "t.of t.int i8"),
        Err((TextError::Syntax, 1, false))
    );
    assert_eq!(rt;
        type_answer(alloc, "t.int 8"),
        Err((TextError::Syntax, 7, true))
    );
    assert_eq!(rt;
        type_answer(alloc, "t.int.i8"),
        Err((TextError::Syntax, 6, true))
    );
    assert_eq!(rt;
        type_answer(alloc, "t.list [t.int i8,]"),
        Err((TextError::Syntax, 18, true))
    );
    assert_eq!(rt;
        type_answer(alloc, "t.list [t.int i8 t.int i8]"),
        Err((TextError::Syntax, 18, true))
    );
    assert_eq!(rt;
        type_answer(alloc, "t.list [t.int i8  "),
        Err((TextError::Syntax, 19, true))
    );
    assert_eq!(rt;
        attribute_answer(alloc, "t.pair 5: 6"),
        Err((TextError::Syntax, 11, true))
    );
    assert_eq!(rt;
        attribute_answer(alloc, "t.pair 5: \"\\n\""),
        Err((TextError::Syntax, 11, true))
    );
    Ok(())
}

/// Lists in one another, so many, around an integer.
fn nested(alloc: Global, lists: usize) -> Result<String, AllocError> {
    let mut text = String::new(alloc);
    for _ in 0..lists {
        text.push_str("t.list[")?;
    }
    text.push_str("t.int i8")?;
    for _ in 0..lists {
        text.push_str("]")?;
    }
    Ok(text)
}

#[test]
fn sixty_four_stand_in_one_another(rt: HostRuntime) -> Result<(), Fail> {
    let alloc = rt.alloc();
    let most = nested(alloc, 63)?;
    assert_eq!(rt; type_answer(alloc, most.as_str()), Ok((1, 513)));
    let more = nested(alloc, 64)?;
    assert_eq!(rt;
        type_answer(alloc, more.as_str()),
        Err((TextError::TooDeep, 449, true))
    );
    Ok(())
}
