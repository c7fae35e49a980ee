//! Texts in quotes.
ghost use Rattle.std.specs.Prelude.{◌≡◌, ◌++◌, ◌∷◌, [], OnOk, MatchOption, chars, encode_utf8_all};
ghost use Rattle.ir_print.specs.Layout.{escaped, in_quotes};

use crate::printable::Printable;
use crate::state::State;
use crate::writer::TextWriter;
use std::alloc::AllocError;

/// A text in quotes, with a `\` before each `"` and `\` in it.
#[derive(Clone, Copy)]
pub struct QuotedText<'a> {
    text: &'a str,
}

/// A text in quotes, with a `\` before each `"` and `\` in it.
pub fn quoted(text: &str) -> QuotedText<'_>
    ensures { result ≡ record { text = text.entry } }
{
    QuotedText { text }
}

/// The first character of a text, and what is behind it.
#[tactic(auto, using(std::proofs::lemmas::Str::chars_past_char))]
fn split_character(text: &str) -> Option<(char, &str)>
    ensures { MatchOption result (chars text.now ≡ []) (λ p. chars text.now ≡ p.0 ∷ chars p.1.now) }
{
    let mut characters = text.chars();
    let character = characters.next()?;
    Some((character, characters.as_str()))
}

/// Writes a character, with a `\` before it where it is a `"` or a `\`.
fn write_escaped<W: TextWriter>(out: &mut W, character: char) -> Result<(), AllocError>
    ensures { OnOk result (W.written out.new ≡ W.written out.old ++ encode_utf8_all (escaped (character ∷ []))) }
{
    if character == '"' || character == '\\' {
        out.write_character('\\')?;
    }
    out.write_character(character)
}

impl<C, W: TextWriter> Printable<C, W> for QuotedText<'_> {
    ghost prints = { λ it _ _ bytes. bytes ≡ encode_utf8_all (in_quotes (chars it.text.now)) };

    fn fmt(&self, _context: &C, _state: &mut State, out: &mut W) -> Result<(), AllocError> {
        out.write_character('"')?;
        let mut rest = self.text;
        while let Some((character, behind)) = split_character(rest) {
            write_escaped(out, character)?;
            rest = behind;
        }
        out.write_character('"')?;
        Ok(())
    }
}
