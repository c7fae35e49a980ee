//! Lent characters.
ghost use Rattle.std.specs.Prelude.{◌≡◌, ◌≤◌, ◌<◌, ◌^◌, length, slice_index, slice_range, bytes_eq};
ghost use Rattle.ir_characters.specs.Texts.{codes_of, trimmed};

use ir_hashing::{TextKey, hash_bytes, hash_characters};
use std::hash::{Hash, Hasher};

/// The characters of a text, or a part of it.
///
/// Texts are equal where they have the same characters, in whichever form.
#[derive(Clone, Copy)]
pub enum Text<'a> {
    /// Each byte is a character, that of its number. So ASCII is its own text.
    Bytes(&'a [u8]),
    /// Any characters.
    Characters(&'a [char]),
}

impl<'a> Text<'a> {
    /// The key that the text gives its tables.
    pub fn key(self) -> TextKey {
        self.key_after(TextKey::new())
    }

    /// The key that the texts so far and this one give their tables.
    pub fn key_after(self, before: TextKey) -> TextKey {
        match self {
            Text::Bytes(bytes) => before.after(bytes),
            Text::Characters(characters) => before.after_characters(characters),
        }
    }

    /// The number of characters.
    pub fn len(self) -> usize
        ensures count { result ≡ length (codes_of self.entry) }
        ensures few { length (codes_of self.entry) < 2 ^ 63 }
    {
        match self {
            Text::Bytes(bytes) => bytes.len(),
            Text::Characters(characters) => characters.len(),
        }
    }

    /// The character at a place, counted from 0, or `'\0'` past the end.
    pub fn at(self, place: usize) -> char
        ensures character { result ≡ slice_index (codes_of self.entry) place }
        ensures few { length (codes_of self.entry) < 2 ^ 63 }
    {
        match self {
            Text::Bytes(bytes) => bytes.get(place).map_or('\0', |byte| char::from(*byte)),
            Text::Characters(characters) => characters.get(place).copied().unwrap_or('\0'),
        }
    }

    /// The characters from `start` to before `end`.
    pub fn slice(self, start: usize, end: usize) -> Text<'a>
        requires ordered { start ≤ end }
        requires inside { end ≤ length (codes_of self) }
        ensures { codes_of result ≡ slice_range (codes_of self.entry) start end }
    {
        match self {
            Text::Bytes(bytes) => Text::Bytes(&bytes[start..end]),
            Text::Characters(characters) => Text::Characters(&characters[start..end]),
        }
    }

    /// The characters without the white space at their end.
    pub fn trim_end(self) -> Text<'a>
        ensures { codes_of result ≡ trimmed (codes_of self.entry) }
    {
        let mut end = self.len();
        while end > 0 && self.at(end - 1).is_whitespace() {
            end -= 1;
        }
        self.slice(0, end)
    }
}

/// Whether these bytes are these characters.
fn are_same(bytes: &[u8], characters: &[char]) -> bool
    ensures { result ≡ bytes_eq bytes.now characters.now }
{
    let mut left = (bytes, characters);
    while let ([byte, bytes @ ..], [character, characters @ ..]) = left {
        if char::from(*byte) != *character {
            return false;
        }
        left = (bytes, characters);
    }
    left.0.is_empty() && left.1.is_empty()
}

impl<'a> PartialEq for Text<'a> {
    ghost use Rattle.std.specs.Prelude.{nat_eq};
    ghost use Rattle.std.specs.Cmp.Lexicographic.{pointwise, nat_list_eq_equiv};
    ghost use Rattle.std.specs.Cmp.{partial_equiv_from_equiv, on_per};

    ghost eq = { λ x y. pointwise nat_eq (codes_of x) (codes_of y) };

    ghost laws = { on_per codes_of (partial_equiv_from_equiv nat_list_eq_equiv) };

    // Names are compared at each token that may be one, so this stands where it is asked for.
    #[inline(always)]
    fn eq(&self, other: &Self) -> bool {
        match (*self, *other) {
            (Text::Bytes(a), Text::Bytes(b)) => a == b,
            (Text::Characters(a), Text::Characters(b)) => a == b,
            (Text::Bytes(a), Text::Characters(b)) => are_same(a, b),
            (Text::Characters(a), Text::Bytes(b)) => are_same(b, a),
        }
    }
}

impl<'a> Eq for Text<'a> {
    ghost use Rattle.std.specs.Cmp.Lexicographic.{nat_list_eq_equiv};
    ghost use Rattle.std.specs.Cmp.{on_equiv};

    ghost laws = { on_equiv codes_of nat_list_eq_equiv };
}

impl<'a> Hash for Text<'a> {
    ghost use Rattle.std.proofs.Common.{rules};
    ghost use Rattle.ir_hashing.specs.Words.{character_writes};

    ghost hash_input = { λ s. character_writes (codes_of s) };

    ghost respects_eq = { Prim.search rules };

    fn hash<H: Hasher>(&self, state: &mut H) {
        match self {
            Text::Bytes(bytes) => hash_bytes(bytes, state),
            Text::Characters(characters) => hash_characters(characters, state),
        }
    }
}
