//! Texts of what is printed.
ghost use Rattle.std.specs.Prelude.{◌≡◌, IfOk, Some};
ghost use Rattle.std.specs.String.{string_bytes};
ghost use Rattle.text_writers.specs.States.{fresh};

use crate::printable::Printable;
use crate::state::State;
use std::alloc::{AllocError, Global};
use std::fmt;

/// The text of something that was printed.
#[derive(Debug, Drop)]
pub struct Displayable {
    text: String,
}

impl Displayable {
    /// The text.
    pub fn as_str(&self) -> &str
        ensures { result.now ≡ string_bytes self.now.text }
    {
        self.text.as_str()
    }
}

impl fmt::Display for Displayable {
    ghost output = { λ it. Some (string_bytes it.text) };

    fn fmt<W: fmt::Write>(&self, f: &mut fmt::Formatter<W>) -> fmt::Result {
        f.write_str(self.text.as_str())
    }
}

/// Prints something from a fresh state.
pub fn disp<C, P: Printable<C, String>>(
    alloc: Global,
    printed: &P,
    context: &C,
) -> Result<Displayable, AllocError>
    requires { P.can_print printed.now }
    ensures { IfOk result (λ it. P.prints printed.now context.now fresh (string_bytes it.text)) }
{
    let mut state = State::new();
    let mut text = String::new(alloc);
    printed.fmt(context, &mut state, &mut text)?;
    Ok(Displayable { text })
}
