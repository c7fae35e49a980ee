//! Dialects whose operations are verified.
ghost use Rattle.std.specs.Prelude.{◌≡◌, Bool, false, IsSome, OnOk, IfErr};
ghost use Rattle.ir_context.specs.Views.{ContextView};
ghost use Rattle.ir_program.specs.Program.{operation_at};
ghost use Rattle.ir_program.specs.declared.handles.Operation.{Operation as AnOperation};
ghost use Rattle.ir_program.specs.declared.handles.Ptr.{Ptr as Handle};
ghost use Rattle.opt_inside.specs.Edges.{FitsEdgesBelow};

use ir_context::{TypeTable, TypedProgram};
use ir_program::{Operation, Ptr};
use opt_dialect::{Meanings, OptDialect};
use std::alloc::Global;

/// The context in which programs of a dialect stand.
pub type VerifiedContext<D> = TypedProgram<
    <D as Meanings>::Operation,
    <D as Meanings>::Block,
    <D as Verified>::Types,
>;

/// A dialect that can be optimised, with verifiers of its operations.
pub trait Verified: OptDialect {
    /// The table of types beside its programs.
    type Types: TypeTable;

    /// Why an operation is refused.
    type Fault: Drop;

    /// What the verifiers accept.
    ghost accepts: { ContextView Self.Operation Self.Block Self.Types → Handle AnOperation → Type 0 };

    /// The fault is want of memory.
    ghost lacks_memory: { Self.Fault → Bool };

    /// Whether a fault is want of memory, and tells nothing of the operation.
    fn is_memory(fault: &Self::Fault) -> bool
        ensures { result ≡ lacks_memory fault.now };

    /// Verifies an operation and all that is in it.
    ///
    /// # Errors
    /// A verifier refuses it, or there is no memory to tell.
    fn verify(
        alloc: Global,
        op: Ptr<Operation>,
        ctx: &VerifiedContext<Self>,
    ) -> Result<(), Self::Fault>
        requires live { IsSome (operation_at ctx.now.program op) }
        ensures accepted { OnOk result (accepts ctx.now op) }
        ensures refused { IfErr result (λ fault. lacks_memory fault ≡ false → accepts ctx.now op → ⊥) };

    /// In what is accepted each edge hands on as many operands as its block has arguments.
    ghost fits: { (c : ContextView Self.Operation Self.Block Self.Types) (op : Handle AnOperation) → accepts c op
        → FitsEdgesBelow Self.meaning c.program op };
}
