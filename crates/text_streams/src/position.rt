//! Places in a text.
ghost use Rattle.std.specs.Prelude.{◌≡◌, ◌+◌, ◌<◌, ◌^◌, ◌∷◌, [], length, chars, MatchOption};

/// A place in a text, by its line and column from 1, and the text from there on. Columns count characters.
#[derive(Clone, Copy)]
pub struct Position<'a> {
    rest: &'a str,
    line: u64,
    column: u64,
    ghost line_fits: { line + length rest.now < 2 ^ 64 },
    ghost column_fits: { column + length rest.now < 2 ^ 64 },
}

impl<'a> Position<'a> {
    ghost use Rattle.std.specs.List.{take_while};
    ghost use Rattle.std.specs.Char.{is_whitespace};
    ghost use Rattle.text_streams.specs.Positions.{left, bytes_left, place, behind, LiesBehind};

    /// The start of a text.
    pub fn start(text: &'a str) -> Position<'a>
        ensures text { left result ≡ chars text.now }
        ensures first { place result ≡ (1, 1) }
    {
        let _few = text.len();
        Position {
            rest: text,
            line: 1,
            column: 1,
        }
    }

    /// Its line, from 1.
    pub fn line(self) -> u64
        ensures { result ≡ (place self.entry).0 }
    {
        self.line
    }

    /// Its column, from 1.
    pub fn column(self) -> u64
        ensures { result ≡ (place self.entry).1 }
    {
        self.column
    }

    /// How many bytes are left from there on.
    pub fn bytes_left(self) -> usize
        ensures { result ≡ bytes_left self.entry }
    {
        self.rest.len()
    }

    /// The character there, and the place behind it.
    #[tactic(auto, using(std::proofs::lemmas::Str::chars_past_char))]
    pub fn next(self) -> Option<(char, Position<'a>)>
        ensures { MatchOption result (left self.entry ≡ []) (λ p. LiesBehind self.entry p.1 (p.0 ∷ [])) }
    {
        let mut characters = self.rest.chars();
        let character = characters.next()?;
        let rest = characters.as_str();
        if character == '\n' {
            let line = self.line + 1;
            let column = 1;
            return Some((character, Position { rest, line, column }));
        }
        let line = self.line;
        let column = self.column + 1;
        Some((character, Position { rest, line, column }))
    }

    /// The place behind the white space there.
    pub fn skip_spaces(self) -> Position<'a>
        ensures { LiesBehind self.entry result (take_while is_whitespace (left self.entry)) }
    {
        let mut position = self;
        while let Some((character, next)) = position.next() {
            if !character.is_whitespace() {
                break;
            }
            position = next;
        }
        position
    }
}
