//! Texts of bytes, of texts of characters.
ghost use Rattle.std.specs.Prelude.{◌≡◌, encode_utf8_all, IfOk};
ghost use Rattle.std.specs.String.{string_bytes};
ghost use Rattle.ir_characters.specs.Texts.{codes_of};

use ir_characters::Text;
use std::alloc::{AllocError, Global};

/// The characters of a text, in UTF-8.
pub(crate) fn utf8_of(alloc: Global, text: Text) -> Result<String, AllocError>
    ensures { IfOk result (λ bytes. string_bytes bytes ≡ encode_utf8_all (codes_of text.entry)) }
{
    let mut bytes = String::new(alloc);
    for place in 0..text.len() {
        bytes.push(text.at(place))?;
    }
    Ok(bytes)
}

/// The rest of a text behind so many characters.
pub(crate) fn behind(text: &str, characters: usize) -> &str {
    match text.char_indices().nth(characters) {
        Some((offset, _)) => text.get(offset..).unwrap_or(""),
        None => "",
    }
}
