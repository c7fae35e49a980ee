//! What is printed.
ghost use Rattle.std.specs.Prelude.{◌≡◌, ℕ, List, OnOk, ⊤};
ghost use Rattle.text_writers.specs.declared.state.State.{State};
ghost use Rattle.text_writers.specs.Appending.{Appends, Encloses};

use crate::state::State;
use crate::writer::TextWriter;
use std::alloc::AllocError;

/// Something that is printed in a context `C`, into a writer `W`.
pub trait Printable<C, W: TextWriter> {
    /// What has to hold of a value that is printed; nothing, if an `impl` doesn't say it.
    ghost can_print: { Self → Type 0 } = { λ _. ⊤ };
    /// The bytes that it is printed as, in a context and a state.
    ghost prints: { Self → C → State → List ℕ → Type 0 };

    /// Writes it behind what was written. The state is given back as it was.
    ///
    /// Where memory is refused, a part of its text may stand there.
    fn fmt(&self, context: &C, state: &mut State, out: &mut W) -> Result<(), AllocError>
        requires { can_print self.now }
        ensures text { OnOk result (Appends (prints self.now context.now state.old) (W.written out.old) (W.written out.new)) }
        ensures state { state.new ≡ state.old };
}

impl<C, W: TextWriter, P: Printable<C, W>> Printable<C, W> for &P {
    ghost can_print = { λ it. P.can_print it.now };

    ghost prints = { λ it. P.prints it.now };

    fn fmt(&self, context: &C, state: &mut State, out: &mut W) -> Result<(), AllocError> {
        (**self).fmt(context, state, out)
    }
}

impl<C, W: TextWriter> Printable<C, W> for &str {
    ghost prints = { λ it _ _ bytes. bytes ≡ it.now };

    fn fmt(&self, _context: &C, _state: &mut State, out: &mut W) -> Result<(), AllocError> {
        out.write_text(*self)
    }
}

impl<C, W: TextWriter> Printable<C, W> for String {
    ghost use Rattle.std.specs.String.{string_bytes};

    ghost prints = { λ it _ _ bytes. bytes ≡ string_bytes it };

    fn fmt(&self, _context: &C, _state: &mut State, out: &mut W) -> Result<(), AllocError> {
        out.write_text(self.as_str())
    }
}

/// Something between two texts.
#[derive(Drop)]
pub struct EnclosedText<'a, P> {
    left: &'a str,
    right: &'a str,
    inner: P,
}

/// Something between two texts.
pub fn enclosed<'a, P>(left: &'a str, right: &'a str, inner: P) -> EnclosedText<'a, P>
    ensures { result ≡ record { left = left.entry; right = right.entry; inner = inner } }
{
    EnclosedText { left, right, inner }
}

impl<C, W: TextWriter, P: Printable<C, W>> Printable<C, W> for EnclosedText<'_, P> {
    ghost can_print = { λ it. P.can_print it.inner };

    ghost prints = { λ it context state. Encloses it.left.now it.right.now (P.prints it.inner context state) };

    fn fmt(&self, context: &C, state: &mut State, out: &mut W) -> Result<(), AllocError> {
        out.write_text(self.left)?;
        self.inner.fmt(context, state, out)?;
        out.write_text(self.right)
    }
}
