//! Attributes of sections: notes, and origins, which are printed once.
use std::alloc::AllocError;
use text_sections::PrintOnce;
use text_writers::{Printable, State, TextWriter};

/// An attribute: a note of its own, or one of the origins, which are printed once.
#[derive(PartialEq, Eq, Hash, Drop)]
pub enum Said {
    Note(&'static str),
    Origin(&'static str),
}

impl PrintOnce for Said {
    ghost use Rattle.text_sections_tests.specs.Saids.{is_origin};

    ghost is_once = { λ _ it. is_origin it };

    fn is_once(&self, _key: &str) -> bool {
        matches!(self, Said::Origin(_))
    }
}

impl<C, W: TextWriter> Printable<C, W> for Said {
    ghost use Rattle.std.specs.Prelude.{⊤};

    ghost prints = { λ _ _ _ _. ⊤ };

    fn fmt(&self, _context: &C, _state: &mut State, out: &mut W) -> Result<(), AllocError> {
        match self {
            Said::Note(text) => out.write_text(*text),
            Said::Origin(text) => out.write_text(*text),
        }
    }
}
