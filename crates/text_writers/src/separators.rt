//! What is printed between the members of a list.
ghost use Rattle.std.specs.Prelude.{◌≡◌, ◌++◌, OnOk};
ghost use Rattle.text_writers.specs.Separators.{separator_text};

use crate::printable::Printable;
use crate::state::State;
use crate::writer::TextWriter;
use std::alloc::AllocError;

/// What is printed between the members of a list.
#[derive(Clone, Copy, Debug, PartialEq, Eq)]
pub enum ListSeparator {
    /// Nothing.
    None,
    /// The end of a line.
    Newline,
    /// A character and the end of a line.
    CharNewline(char),
    /// A character.
    Char(char),
    /// A character and a space.
    CharSpace(char),
}

impl ListSeparator {
    /// Writes the separator behind what was written.
    pub fn write_to<W: TextWriter>(self, out: &mut W) -> Result<(), AllocError>
        ensures { OnOk result (W.written out.new ≡ W.written out.old ++ separator_text self) }
    {
        match self {
            ListSeparator::None => Ok(()),
            ListSeparator::Newline => out.write_character('\n'),
            ListSeparator::CharNewline(character) => {
                out.write_character(character)?;
                out.write_character('\n')
            }
            ListSeparator::Char(character) => out.write_character(character),
            ListSeparator::CharSpace(character) => {
                out.write_character(character)?;
                out.write_character(' ')
            }
        }
    }
}

impl<C, W: TextWriter> Printable<C, W> for ListSeparator {
    ghost prints = { λ it _ _ bytes. bytes ≡ separator_text it };

    fn fmt(&self, _context: &C, _state: &mut State, out: &mut W) -> Result<(), AllocError> {
        self.write_to(out)
    }
}
