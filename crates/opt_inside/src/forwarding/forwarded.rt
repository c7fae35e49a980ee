//! What operations forward along their edges.
ghost use Rattle.std.specs.Prelude.{◌≡◌, Some, IfOk, IsSome, length};
ghost use Rattle.ir_program.specs.Program.{OperationView, operation_at};
ghost use Rattle.ir_program.specs.Rows.{operands_at};
ghost use Rattle.opt_trees.specs.Occurrences.{picks};

use ir_program::{Operation, Program, Ptr, Value};
use opt_dialect::Meanings;
use std::alloc::{AllocError, Global};

/// The operands of an operation at these indices, in the order of the indices; behind the last one there is none.
fn picked_operands<O, B>(
    alloc: Global,
    program: &Program<O, B>,
    op: Ptr<Operation>,
    indices: &[usize],
) -> Result<Vec<Value>, AllocError>
    requires { IsSome (operation_at program.now op) }
    ensures { IfOk result (λ values. values.items ≡ picks (operands_at program.now op) indices.now) }
{
    let count = program.operand_count(op);
    let mut values = Vec::new(alloc);
    for index in indices {
        if *index < count {
            values.push(program.operand(op, *index))?;
        }
    }
    Ok(values)
}

/// The operands that an operation forwards along an edge, in the order of the arguments there.
///
/// # Errors
/// There may be no memory.
pub fn forwarded_operands<D: Meanings>(
    alloc: Global,
    program: &Program<D::Operation, D::Block>,
    op: Ptr<Operation>,
    edge: usize,
) -> Result<Vec<Value>, AllocError>
    requires { IsSome (operation_at program.now op) }
    ensures { IfOk result (λ values. (v : OperationView D.Operation) → operation_at program.now op ≡ Some v
        → values.items ≡ picks v.operands (D.meaning.forwards v.payload (length v.operands) edge)) }
{
    let count = program.operand_count(op);
    let indices = D::successor_operands(alloc, program.payload(op), count, edge)?;
    let values = picked_operands(alloc, program, op, &indices)?;
    Ok(values)
}
