//! Classes of tokens.
ghost use Rattle.std.specs.Prelude.{◌≡◌, ◌&&◌, nat_lt, length};
ghost use Rattle.std.specs.List.{list_all};
ghost use Rattle.ir_tokens.specs.Tokens.{is_digit};
ghost use Rattle.ir_formats.specs.Words.{are_digits, is_width};
ghost use Rattle.ir_format_checks.specs.Test.{is_one_sign, is_word, overlap};
ghost use Rattle.ir_format_checks.specs.Values.{class_of};

use ir_names::Identifier;

/// A class of tokens with which a part of a format begins.
#[derive(Clone, Copy)]
pub(crate) enum Class<'a> {
    /// This sign or name.
    Given(&'a str),
    /// A name, and so a width too.
    Name,
    Dotted,
    Digits,
    /// Digits, which may have a `-`.
    Number,
    /// `i`, `si` or `ui` and digits.
    Width,
    /// Characters in quotes.
    Text,
    Mark,
}

/// Whether the text is one token, a sign or a name.
pub(crate) fn is_word(text: &str) -> bool
    ensures { result ≡ is_word text.now }
{
    Identifier::is_valid(text) || is_one_sign(text) || text == "->"
}

/// Whether the text is one of `{ } ( ) [ ] < > , ; : = @ ^ ?`.
fn is_one_sign(text: &str) -> bool
    ensures { result ≡ is_one_sign text.now }
{
    match text.as_bytes() {
        [byte] => b"{}()[]<>,;:=@^?".contains(byte),
        _ => false,
    }
}

fn all_digits(bytes: &[u8]) -> bool
    ensures { result ≡ list_all is_digit bytes.now }
{
    bytes.iter().all(|byte| b'0' <= *byte && *byte <= b'9')
}

/// Whether these are digits, one or more.
fn are_digits(bytes: &[u8]) -> bool
    ensures { result ≡ are_digits bytes.now }
{
    match bytes {
        [] => false,
        _ => all_digits(bytes),
    }
}

/// Whether the text is a width, as `i8` or `ui64`.
fn is_width(text: &str) -> bool
    ensures { result ≡ is_width text.now }
{
    match text.as_bytes() {
        [b'i', rest @ ..] => are_digits(rest),
        [b's' | b'u', b'i', rest @ ..] => are_digits(rest),
        _ => false,
    }
}

impl Class<'_> {
    /// Whether a token is of both classes.
    pub(crate) fn overlaps(self, other: Class) -> bool
        ensures { result ≡ overlap (class_of self.entry) (class_of other.entry) }
    {
        match (self, other) {
            (Class::Given(word), Class::Given(another)) => word == another,
            (Class::Given(word), Class::Name) | (Class::Name, Class::Given(word)) => {
                Identifier::is_valid(word)
            }
            (Class::Given(word), Class::Width) | (Class::Width, Class::Given(word)) => is_width(
                word,
            ),
            (Class::Name | Class::Width, Class::Name | Class::Width) => true,
            (Class::Digits | Class::Number, Class::Digits | Class::Number) => true,
            (Class::Dotted, Class::Dotted) => true,
            (Class::Text, Class::Text) => true,
            (Class::Mark, Class::Mark) => true,
            _ => false,
        }
    }
}
