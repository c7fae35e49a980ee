//! What walks ask of the context that they hand to a callback.
ghost use Rattle.std.specs.Prelude.{◌≡◌};
ghost use Rattle.ir_program.specs.Program.{Program};

use ir_context::{TypeTable, TypedProgram};
use ir_program::Program;

/// A context with operations, regions and blocks to walk over, as `Context<D>` of a dialect.
pub trait HasProgram<O, B> {
    /// The program in the context.
    ghost program_of: { Self → Program O B };

    /// Its operations, regions and blocks.
    fn walked_program(&self) -> &Program<O, B>
        ensures { result.now ≡ program_of self.now };
}

impl<O, B, T: TypeTable> HasProgram<O, B> for TypedProgram<O, B, T> {
    ghost program_of = { λ c. c.program };

    fn walked_program(&self) -> &Program<O, B> {
        self.program()
    }
}

impl<O, B> HasProgram<O, B> for Program<O, B> {
    ghost program_of = { λ c. c };

    fn walked_program(&self) -> &Program<O, B> {
        self
    }
}
