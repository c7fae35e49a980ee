//! Functions as what is printed.
ghost use Rattle.std.specs.Prelude.{◌≡◌};
ghost use Rattle.text_writers.specs.Printers.{AppendsOnly, Prints, calls};

use crate::printable::Printable;
use crate::state::State;
use crate::writer::TextWriter;
use std::alloc::AllocError;

/// What a function prints.
#[derive(Drop)]
pub struct PrinterFn<F> {
    printer: F,
}

/// What a function prints, which puts its text behind what was written and gives the state back.
pub fn printable_from_fn<F>(printer: F) -> PrinterFn<F>
    ensures { result ≡ record { printer = printer } }
{
    PrinterFn { printer }
}

impl<C, W: TextWriter, F: Fn(&C, &mut State, &mut W) -> Result<(), AllocError>> Printable<C, W>
    for PrinterFn<F> {
    ghost can_print = { λ it. F.IsAlwaysCallable it.printer × ((context : C) → AppendsOnly W.written (calls F.Fn it.printer context)) };

    ghost prints = { λ it context. Prints W.written (calls F.Fn it.printer context) };

    fn fmt(&self, context: &C, state: &mut State, out: &mut W) -> Result<(), AllocError> {
        (self.printer)(context, state, out)
    }
}
