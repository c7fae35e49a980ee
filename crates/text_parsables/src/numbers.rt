//! Decimal numbers.
ghost use Rattle.text_streams.specs.Positions.{left};
ghost use Rattle.text_streams.specs.Numbers.{number_text};
ghost use Rattle.text_streams.specs.Reading.{ReadsNumber};
ghost use Rattle.text_parsables.specs.Fronts.{Parses};
ghost use Rattle.text_parsables.specs.Said.{NumberStands};

use crate::parsable::Parsable;
use std::alloc::Global;
use text_streams::{FromStrRadix, ParseResult, StateStream, int_parse};

/// A decimal number in the range of its type.
fn number_parse<S, T: FromStrRadix>(
    alloc: Global,
    stream: &mut StateStream<'_, S>,
) -> ParseResult<T>
    ensures { Parses (NumberStands T.parses) stream.old stream.new result }
{
    int_parse(alloc, stream)
}

impl<S> Parsable<S> for u8 {
    type Arg = ();

    type Parsed = u8;

    ghost stands = { λ _ text old front new. NumberStands ⟦<u8 as FromStrRadix>⟧.parses text old front new };

    /// The decimal number that is there.
    fn parse(alloc: Global, stream: &mut StateStream<'_, S>, _arg: ()) -> ParseResult<u8> {
        number_parse(alloc, stream)
    }
}

impl<S> Parsable<S> for u16 {
    type Arg = ();

    type Parsed = u16;

    ghost stands = { λ _ text old front new. NumberStands ⟦<u16 as FromStrRadix>⟧.parses text old front new };

    /// The decimal number that is there.
    fn parse(alloc: Global, stream: &mut StateStream<'_, S>, _arg: ()) -> ParseResult<u16> {
        number_parse(alloc, stream)
    }
}

impl<S> Parsable<S> for u32 {
    type Arg = ();

    type Parsed = u32;

    ghost stands = { λ _ text old front new. NumberStands ⟦<u32 as FromStrRadix>⟧.parses text old front new };

    /// The decimal number that is there.
    fn parse(alloc: Global, stream: &mut StateStream<'_, S>, _arg: ()) -> ParseResult<u32> {
        number_parse(alloc, stream)
    }
}

impl<S> Parsable<S> for u64 {
    type Arg = ();

    type Parsed = u64;

    ghost stands = { λ _ text old front new. NumberStands ⟦<u64 as FromStrRadix>⟧.parses text old front new };

    /// The decimal number that is there.
    fn parse(alloc: Global, stream: &mut StateStream<'_, S>, _arg: ()) -> ParseResult<u64> {
        number_parse(alloc, stream)
    }
}

impl<S> Parsable<S> for usize {
    type Arg = ();

    type Parsed = usize;

    ghost stands = { λ _ text old front new. NumberStands ⟦<usize as FromStrRadix>⟧.parses text old front new };

    /// The decimal number that is there.
    fn parse(alloc: Global, stream: &mut StateStream<'_, S>, _arg: ()) -> ParseResult<usize> {
        number_parse(alloc, stream)
    }
}

impl<S> Parsable<S> for i8 {
    type Arg = ();

    type Parsed = i8;

    ghost stands = { λ _ text old front new. NumberStands ⟦<i8 as FromStrRadix>⟧.parses text old front new };

    /// The decimal number that is there.
    fn parse(alloc: Global, stream: &mut StateStream<'_, S>, _arg: ()) -> ParseResult<i8> {
        number_parse(alloc, stream)
    }
}

impl<S> Parsable<S> for i16 {
    type Arg = ();

    type Parsed = i16;

    ghost stands = { λ _ text old front new. NumberStands ⟦<i16 as FromStrRadix>⟧.parses text old front new };

    /// The decimal number that is there.
    fn parse(alloc: Global, stream: &mut StateStream<'_, S>, _arg: ()) -> ParseResult<i16> {
        number_parse(alloc, stream)
    }
}

impl<S> Parsable<S> for i32 {
    type Arg = ();

    type Parsed = i32;

    ghost stands = { λ _ text old front new. NumberStands ⟦<i32 as FromStrRadix>⟧.parses text old front new };

    /// The decimal number that is there.
    fn parse(alloc: Global, stream: &mut StateStream<'_, S>, _arg: ()) -> ParseResult<i32> {
        number_parse(alloc, stream)
    }
}

impl<S> Parsable<S> for i64 {
    type Arg = ();

    type Parsed = i64;

    ghost stands = { λ _ text old front new. NumberStands ⟦<i64 as FromStrRadix>⟧.parses text old front new };

    /// The decimal number that is there.
    fn parse(alloc: Global, stream: &mut StateStream<'_, S>, _arg: ()) -> ParseResult<i64> {
        number_parse(alloc, stream)
    }
}
