//! Classes of tokens.
ghost use Rattle.std.specs.Prelude.{◌≡◌, nat_lt, length, bytes_eq};
ghost use Rattle.std.specs.List.{list_all};
ghost use Rattle.ir_tokens.specs.Tokens.{is_digit};
ghost use Rattle.ir_formats.specs.Words.{are_digits, is_width, is_special, are_whole, is_quotation};
ghost use Rattle.ir_format_checks.specs.Tokens.{given, dotted};
ghost use Rattle.ir_format_checks.specs.Decided.{leaf_class};
ghost use Rattle.token_classes.specs.Classes.{is_token_of};

use ir_print::LeafSort;
use ir_tokens::TokenKind;
use stream_tokens::Lexeme;

fn is_digit(c: char) -> bool
    ensures { result ≡ is_digit c }
{
    '0' <= c && c <= '9'
}

fn all_digits(text: &[char]) -> bool
    ensures { result ≡ list_all is_digit text.now }
{
    text.iter().all(|c| is_digit(*c))
}

/// Whether these are digits, one or more.
fn are_digits(text: &[char]) -> bool
    ensures { result ≡ are_digits text.now }
{
    match text {
        [] => false,
        _ => all_digits(text),
    }
}

/// Whether the name is a width, as `i8` or `ui64`.
fn is_width(text: &[char]) -> bool
    ensures { result ≡ is_width text.now }
{
    match text {
        ['i', rest @ ..] => are_digits(rest),
        ['s' | 'u', 'i', rest @ ..] => are_digits(rest),
        _ => false,
    }
}

/// Whether each `\` of what stands in quotes, up to the closing one, has a `"` or a `\` behind it.
fn are_whole(text: &[char]) -> bool
    ensures { result ≡ are_whole text.now }
{
    let mut left = text;
    while let [c, rest @ ..] = left {
        if *c == '"' {
            return true;
        }
        if *c != '\\' {
            left = rest;
            continue;
        }
        match rest {
            ['"' | '\\', behind @ ..] => left = behind,
            _ => return false,
        }
    }
    true
}

/// The same of a text with its quotes.
fn is_quotation(text: &[char]) -> bool
    ensures { result ≡ is_quotation text.now }
{
    match text {
        [] => false,
        [_, rest @ ..] => are_whole(rest),
    }
}

/// Whether these bytes are these characters.
fn are_same(bytes: &[u8], characters: &[char]) -> bool
    ensures { result ≡ bytes_eq bytes.now characters.now }
{
    let mut left = (bytes, characters);
    while let ([byte, bytes @ ..], [character, characters @ ..]) = left {
        if char::from(*byte) != *character {
            return false;
        }
        left = (bytes, characters);
    }
    left.0.is_empty() && left.1.is_empty()
}

/// Whether the token is this sign or this name.
pub fn is_given(token: &Lexeme<'_>, word: &str) -> bool
    ensures { result ≡ is_token_of (given word.now) token.now.kind token.now.text.items }
{
    match token.kind {
        TokenKind::Name | TokenKind::Sign(_) | TokenKind::Arrow => {
            are_same(word.as_bytes(), &token.text)
        }
        _ => false,
    }
}

/// Whether these are the characters of the token.
pub fn is_spelled(token: &Lexeme<'_>, text: &str) -> bool
    ensures { result ≡ bytes_eq text.now token.now.text.items }
{
    are_same(text.as_bytes(), &token.text)
}

/// Whether the token is a dotted name.
pub fn is_dotted(token: &Lexeme<'_>) -> bool
    ensures { result ≡ is_token_of dotted token.now.kind token.now.text.items }
{
    matches!(token.kind, TokenKind::Dotted)
}

/// Whether the token is a leaf of this sort.
pub fn is_leaf(token: &Lexeme<'_>, sort: LeafSort) -> bool
    ensures { result ≡ is_token_of (leaf_class sort) token.now.kind token.now.text.items }
{
    match (sort, token.kind) {
        (LeafSort::Name, TokenKind::Name) => true,
        (LeafSort::Number, TokenKind::Digits | TokenKind::Negative) => true,
        (LeafSort::Digits, TokenKind::Digits) => true,
        (LeafSort::Width, TokenKind::Name) => is_width(&token.text),
        (LeafSort::Text, TokenKind::Text) => is_quotation(&token.text),
        (LeafSort::Mark, TokenKind::Mark) => true,
        _ => false,
    }
}
