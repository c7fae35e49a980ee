//! Whether operands and results have the types of a function type.
ghost use Rattle.std.specs.Prelude.{◌≡◌, ◌↔◌, IsSome, IsTrue};
ghost use Rattle.ir_program.specs.Program.{operation_at};
ghost use Rattle.kit_checks.specs.Reading.{OfTree};
ghost use Rattle.kit_checks.specs.Words.{types_of};
ghost use Rattle.kit_checks.specs.World.{world_of};
ghost use Rattle.kit_verifier.specs.Callees.{HasSignature};

use ir_context::{Context, ResultCalls};
use ir_names::TypeHandle;
use ir_program::{Operation, Ptr};
use kit::Kit;
use kit_checks::{function_type, operands_are};

/// Whether two types are the same.
fn is_same(a: TypeHandle, b: TypeHandle) -> bool
    ensures { IsTrue result ↔ (a ≡ b) }
{
    a == b
}

/// Whether the results of an operation have these types, in number and order.
fn results_are(ctx: &Context<Kit>, op: Ptr<Operation>, types: &[TypeHandle]) -> bool
    requires { IsSome (operation_at ctx.now.program op) }
    ensures { OfTree ctx.now.program op (λ u. IsTrue result ↔ (types_of u.head.results ≡ types.now)) }
{
    if op.get_num_results(ctx) != types.len() {
        return false;
    }
    for index in 0..types.len() {
        if !is_same(op.get_type(ctx, index), types[index]) {
            return false;
        }
    }
    true
}

/// Whether a type is a function type, and the operands and results of an operation have its inputs' and results' types.
pub(crate) fn has_signature(ctx: &Context<Kit>, op: Ptr<Operation>, ty: TypeHandle) -> bool
    requires { IsSome (operation_at ctx.now.program op) }
    ensures { OfTree ctx.now.program op (λ u. IsTrue result ↔ HasSignature (world_of ctx.now) u ty) }
{
    match function_type(ctx, ty) {
        Some(signature) => {
            if !operands_are(ctx, op, signature.inputs.as_slice()) {
                return false;
            }
            results_are(ctx, op, signature.results.as_slice())
        }
        None => false,
    }
}
