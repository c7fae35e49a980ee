//! Verifying operations for managers and passes.
ghost use Rattle.std.specs.Prelude.{◌≡◌, true, IfErr, IsSome, OnErr, OnOk};
ghost use Rattle.ir_program.specs.Program.{operation_at};
ghost use Rattle.pass_managers.specs.Running.{Refuses};

use ir_program::{Operation, Ptr};
use opt_dialect::OptError;
use pass_analyses::{Verified, VerifiedContext};
use std::alloc::Global;

/// Verifies an operation and all that is in it.
///
/// # Errors
/// `Verify` where the verifiers refuse it, and `Memory` where there is none to tell.
pub fn verify<D: Verified>(
    alloc: Global,
    op: Ptr<Operation>,
    ctx: &VerifiedContext<D>,
) -> Result<(), OptError>
    requires { IsSome (operation_at ctx.now.program op) }
    ensures accepted { OnOk result (D.accepts ctx.now op) }
    ensures refused { IfErr result (λ e. Refuses (D.accepts ctx.now op) e) }
{
    match D::verify(alloc, op, ctx) {
        Ok(()) => Ok(()),
        Err(fault) => Err(if D::is_memory(&fault) {
            OptError::Memory
        } else {
            OptError::Verify
        }),
    }
}

/// Verifies an operation, where that is wanted.
pub(crate) fn verify_if<D: Verified>(
    alloc: Global,
    is_wanted: bool,
    op: Ptr<Operation>,
    ctx: &VerifiedContext<D>,
) -> Result<(), OptError>
    requires { IsSome (operation_at ctx.now.program op) }
    ensures accepted { OnOk result (is_wanted ≡ true → D.accepts ctx.now op) }
    ensures wanted { OnErr result (is_wanted ≡ true) }
    ensures refused { IfErr result (λ e. Refuses (D.accepts ctx.now op) e) }
{
    if !is_wanted {
        return Ok(());
    }
    verify::<D>(alloc, op, ctx)
}
