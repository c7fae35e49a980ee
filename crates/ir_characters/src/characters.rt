//! Characters of one's own.
ghost use Rattle.std.specs.Prelude.{◌≡◌, IfOk, chars};
ghost use Rattle.ir_characters.specs.Texts.{codes_of, owned_codes};

use crate::text::Text;
use std::alloc::{AllocError, Global};

/// The characters of a text.
#[derive(Drop)]
pub enum Characters {
    /// Each byte is a character, that of its number.
    Bytes(Vec<u8>),
    /// Any characters.
    Characters(Vec<char>),
}

impl Characters {
    /// The characters of a string, as bytes where all are ASCII. The only error is that memory is refused.
    pub fn from_str(alloc: Global, string: &str) -> Result<Characters, AllocError>
        ensures { IfOk result (λ all. owned_codes all ≡ chars string.now) }
    {
        let bytes = string.as_bytes();
        if bytes.is_ascii() {
            return Ok(Characters::Bytes(Vec::from_slice(alloc, bytes)?));
        }
        Ok(Characters::Characters(string.chars().collect(alloc)?))
    }

    /// The characters, lent.
    pub fn as_text(&self) -> Text
        ensures { codes_of result ≡ owned_codes self.now }
    {
        match self {
            Characters::Bytes(bytes) => Text::Bytes(bytes),
            Characters::Characters(characters) => Text::Characters(characters),
        }
    }
}
