//! Tokens: what the characters of a text are cut into.
ghost use Rattle.std.specs.Prelude.{◌≡◌, ◌<◌, false, length, slice_index};
ghost use Rattle.std.specs.Char.{is_whitespace};
ghost use Rattle.ir_characters.specs.Texts.{codes_of};

use crate::scan::token_end;
use ir_characters::Text;

/// What a token is, by its form alone.
#[derive(Clone, Copy, Debug, PartialEq, Eq)]
pub enum TokenKind {
    /// A letter or `_`, then letters, digits and `_`. Widths as `i8` and words as `true` are names too.
    Name,
    /// Two names with a `.` between them.
    Dotted,
    /// One decimal digit or more.
    Digits,
    /// `-` and digits.
    Negative,
    /// `!` and digits.
    Mark,
    /// `"`, characters and `"`, where `\` takes the next character with it.
    Text,
    /// One of `{ } ( ) [ ] < > , ; : = @ ^ ?`.
    Sign(char),
    /// `->`.
    Arrow,
    /// `<in-memory>`.
    InMemory,
    /// What is none of these, as `$` or a text without its closing `"`. It is the last token of its text.
    Bad,
}

/// A token, as the characters of the text from `start` to before `end`, both counted from 0. A bad one has none.
#[derive(Clone, Copy, Debug, PartialEq, Eq)]
pub struct Token {
    pub kind: TokenKind,
    pub start: usize,
    pub end: usize,
}

ghost use Rattle.ir_tokens.specs.Tokens.{IsToken, place};

/// The longest token that begins at a character of the text which is no white space.
///
/// Numbers out of range and texts with faulty escapes are tokens here. The time is linear in the token's characters.
pub fn token_at(chars: Text, at: usize) -> Token
    requires begins { at < length (codes_of chars) }
    requires visible { is_whitespace (slice_index (codes_of chars) at) ≡ false }
    ensures token { IsToken (codes_of chars.entry) result }
    ensures start { result.start ≡ at }
{
    let (kind, end) = token_end(chars, at);
    Token {
        kind,
        start: at,
        end,
    }
}

/// The line and the column of the character that comes after this front of a text, both counted from 1.
///
/// A line ends after a line feed, and a column is a character. The time is linear in the front.
pub fn place_after(front: Text) -> (usize, usize)
    ensures { result ≡ place (codes_of front.entry) }
{
    let mut line = 1;
    let mut column = 1;
    for place in 0..front.len() {
        if front.at(place) == '\n' {
            line += 1;
            column = 1;
        } else {
            column += 1;
        }
    }
    (line, column)
}
