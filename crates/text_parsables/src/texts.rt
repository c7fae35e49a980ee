//! Texts in quotes.
ghost use Rattle.text_parsables.specs.Fronts.{Parses};
ghost use Rattle.text_parsables.specs.Said.{QuotedStands};

use crate::parsable::Parsable;
use std::alloc::Global;
use text_streams::{ParseResult, StateStream, quoted_string_parse};

impl<S> Parsable<S> for String {
    type Arg = ();

    type Parsed = String;

    ghost stands = { λ _ text old front new. QuotedStands text old front new };

    /// What the text in quotes says that is there.
    fn parse(alloc: Global, stream: &mut StateStream<'_, S>, _arg: ()) -> ParseResult<String> {
        quoted_string_parse(alloc, stream)
    }
}
