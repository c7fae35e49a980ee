//! Values that may be missing.
ghost use Rattle.text_parsables.specs.Optional.{OptionStands};

use crate::parsable::Parsable;
use std::alloc::Global;
use text_streams::{ParseResult, StateStream, TextError};

impl<S, T: Parsable<S>> Parsable<S> for Option<T> {
    type Arg = T::Arg;

    type Parsed = Option<T::Parsed>;

    ghost stands = { λ arg text old front new. OptionStands (T.stands arg) text old front new };

    /// The value that is there; none where a syntax fault says so before which nothing was read.
    fn parse(
        alloc: Global,
        stream: &mut StateStream<'_, S>,
        arg: T::Arg,
    ) -> ParseResult<Option<T::Parsed>> {
        match T::parse(alloc, stream, arg) {
            Ok(value) => Ok(Some(value)),
            Err(fault) => {
                if matches!(fault.cause, TextError::Syntax) && !fault.consumed {
                    Ok(None)
                } else {
                    Err(fault)
                }
            }
        }
    }
}
