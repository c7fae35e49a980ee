//! Where the section begins.
ghost use Rattle.std.specs.Prelude.{◌≡◌, ◌<◌, ◌≤◌, ◌+◌, ◌^◌, length};
ghost use Rattle.ir_characters.specs.Texts.{codes_of};
ghost use Rattle.outlined_texts.specs.Sections.{braces_behind, has_sign, holds_name, is_section_name};
ghost use Rattle.outlined_texts.specs.Searching.{found_behind, named_behind, FindsSection, IsSearchBehind};

use ir_characters::Text;
use ir_tokens::{Token, TokenKind, token_at};

/// Whether a token is this sign.
fn has_sign(sign: char, kind: TokenKind) -> bool
    ensures { result ≡ has_sign sign kind }
{
    match kind {
        TokenKind::Sign(c) => c == sign,
        _ => false,
    }
}

/// Whether a name behind this token is that of a symbol, or one of several names.
fn holds_name(kind: TokenKind) -> bool
    ensures { result ≡ holds_name kind }
{
    has_sign('@', kind) || has_sign(',', kind)
}

/// How many braces are open behind a token, where so many are before it.
fn braces_behind(depth: usize, kind: TokenKind) -> usize
    requires { depth < 2 ^ 63 }
    ensures { result ≡ braces_behind depth kind }
{
    if has_sign('{', kind) {
        depth + 1
    } else if has_sign('}', kind) {
        depth.saturating_sub(1)
    } else {
        depth
    }
}

/// Whether a token is the name of the section.
fn is_section_name(text: Text, token: Token) -> bool
    requires ordered { token.start ≤ token.end }
    requires inside { token.end ≤ length (codes_of text) }
    ensures { result ≡ is_section_name (codes_of text.entry) token }
{
    match token.kind {
        TokenKind::Name => {
            text.slice(token.start, token.end) == Text::Bytes(b"outlined_attributes")
        }
        _ => false,
    }
}

/// What some first tokens of a text tell of its section.
#[derive(Clone, Copy)]
struct Search {
    /// How many braces are open.
    depth: usize,
    /// Whether a name that comes next is no section's, by the token before it.
    held: bool,
    /// Where the last token begins, if that is a name with which the section begins where a `:` comes next.
    named: Option<usize>,
    /// Where the section begins, if that is known.
    found: Option<usize>,
}

impl Search {
    /// Where the section begins if the token that comes next begins it.
    fn named_behind(self, text: Text, token: Token) -> Option<usize>
        requires ordered { token.start ≤ token.end }
        requires inside { token.end ≤ length (codes_of text) }
        ensures { result ≡ named_behind (codes_of text.entry) self token }
    {
        if self.depth == 0 && !self.held && is_section_name(text, token) {
            Some(token.start)
        } else {
            None
        }
    }

    /// Where the section begins if that is known behind this token.
    fn found_behind(self, kind: TokenKind) -> Option<usize>
        ensures { result ≡ found_behind self kind }
    {
        if self.found.is_none() && has_sign(':', kind) {
            self.named
        } else {
            self.found
        }
    }

    /// What is told with one token more.
    fn after(self, text: Text, token: Token) -> Search
        requires ordered { token.start ≤ token.end }
        requires inside { token.end ≤ length (codes_of text) }
        requires few { self.depth < 2 ^ 63 }
        ensures { IsSearchBehind (codes_of text.entry) self token result }
    {
        Search {
            depth: braces_behind(self.depth, token.kind),
            held: holds_name(token.kind),
            named: self.named_behind(text, token),
            found: self.found_behind(token.kind),
        }
    }
}

/// Where the section of a text begins, if it has one. The whole text is cut into tokens.
pub fn find_section(text: Text) -> Option<usize>
    ensures { FindsSection (codes_of text.entry) result }
{
    let mut search = Search {
        depth: 0,
        held: true,
        named: None,
        found: None,
    };
    let mut at = 0;
    while at < text.len() {
        if text.at(at).is_whitespace() {
            at += 1;
            continue;
        }
        let token = token_at(text, at);
        search = search.after(text, token);
        if let TokenKind::Bad = token.kind {
            return search.found;
        }
        at = token.end;
    }
    search.found
}
