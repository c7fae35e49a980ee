//! The first tokens of locations, which tell of what kind each one is.
ghost use Rattle.std.specs.Prelude.{◌≡◌, MatchResult};
ghost use Rattle.text_locations.specs.Firsts.{ReadsFirst, RefusesFirst};

use crate::tokens::{Token, take_quoted, take_token};
use ir_locations::Source;
use std::alloc::Global;
use text_streams::{ParseResult, StateStream};

/// The first token of a location.
#[derive(Drop)]
pub enum First {
    Unknown,
    Source(Source),
    Fused,
    Named,
    CallSite,
}

/// Reads the first token of a location. Where no location begins, that is a syntax fault there.
pub fn read_first<S>(alloc: Global, stream: &mut StateStream<'_, S>) -> ParseResult<First>
    ensures { MatchResult result (λ first. ReadsFirst stream.old first stream.new) (RefusesFirst stream.old) }
{
    if take_token(stream, Token::Unknown) {
        return Ok(First::Unknown);
    }
    if take_token(stream, Token::InMemory) {
        return Ok(First::Source(Source::InMemory));
    }
    if take_token(stream, Token::Fused) {
        return Ok(First::Fused);
    }
    if take_token(stream, Token::Named) {
        return Ok(First::Named);
    }
    if take_token(stream, Token::CallSite) {
        return Ok(First::CallSite);
    }
    let name = take_quoted(alloc, stream)?;
    Ok(First::Source(Source::File(name)))
}
