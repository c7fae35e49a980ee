//! The ends of lines.
ghost use Rattle.std.specs.Prelude.{◌≡◌, ◌++◌, OnOk};
ghost use Rattle.ir_print.specs.Layout.{line};

use crate::printable::Printable;
use crate::state::State;
use crate::writer::TextWriter;
use std::alloc::AllocError;

/// Ends a line, and indents the next one.
pub fn fmt_indented_newline<W: TextWriter>(state: &State, out: &mut W) -> Result<(), AllocError>
    ensures { OnOk result (W.written out.new ≡ W.written out.old ++ line state.now.current_indent) }
{
    out.write_character('\n')?;
    for _ in 0..state.current_indent() {
        out.write_character(' ')?;
    }
    Ok(())
}

/// The end of a line, and the indentation of the next one.
#[derive(Clone, Copy)]
pub struct IndentedNewliner {
    state: State,
}

/// The end of a line, and the indentation of the next one as a state has it now.
pub fn indented_nl(state: &State) -> IndentedNewliner
    ensures { result ≡ record { state = state.now } }
{
    IndentedNewliner { state: *state }
}

impl<C, W: TextWriter> Printable<C, W> for IndentedNewliner {
    ghost prints = { λ it _ _ bytes. bytes ≡ line it.state.current_indent };

    fn fmt(&self, _context: &C, _state: &mut State, out: &mut W) -> Result<(), AllocError> {
        fmt_indented_newline(&self.state, out)
    }
}
