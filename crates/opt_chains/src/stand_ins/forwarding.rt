//! What is forwarded to the arguments of blocks that are joined, by the numbers of the arguments.
ghost use Rattle.std.specs.Prelude.{◌≡◌, ◌↔◌, ℕ, IfOk, IsSome, Some, length, slice_get};
ghost use Rattle.ir_program.specs.Program.{block_at};
ghost use Rattle.ir_trees.specs.Searched.{AreDistinct};
ghost use Rattle.opt_chains.specs.Merging.{AreJoins};
ghost use Rattle.opt_chains.specs.stand_ins.Forwarded.{IsForwarded, IsPaired};
ghost use Rattle.opt_chains.specs.stand_ins.Tables.{Gives, IsGivenTable};

use crate::Join;
use ir_program::{BasicBlock, Program, Ptr, Value};
use opt_dialect::Meanings;
use opt_inside::Inside;
use opt_inside::forwarding::forwarded_operands;
use std::alloc::{AllocError, Global};

/// The number of a value, if it is inside.
pub(crate) fn value_number(inside: &Inside, value: Value) -> Option<usize>
    requires { AreDistinct inside.now.values.keys }
    ensures { (n : ℕ) → result ≡ Some n ↔ slice_get inside.now.values.keys n ≡ Some value }
{
    inside.values.get_index_of(value)
}

/// Gives a value to an argument, if that is inside.
fn give(inside: &Inside, given: &mut Vec<Option<Value>>, argument: Value, value: Value)
    requires once { AreDistinct inside.now.values.keys }
    requires len { length given.old.items ≡ length inside.now.values.keys }
    ensures { Gives inside.now.values.keys (λ v u. (v ≡ argument) × (u ≡ value)) given.old.items given.new.items }
{
    if let Some(number) = value_number(inside, argument) {
        given[number] = Some(value);
    }
}

/// Gives these values to the arguments of a block, in their order.
fn give_arguments<O, B>(
    program: &Program<O, B>,
    inside: &Inside,
    given: &mut Vec<Option<Value>>,
    block: Ptr<BasicBlock>,
    values: &[Value],
)
    requires live { IsSome (block_at program.now block) }
    requires once { AreDistinct inside.now.values.keys }
    requires len { length given.old.items ≡ length inside.now.values.keys }
    ensures { Gives inside.now.values.keys (IsPaired program.now block values.now) given.old.items given.new.items }
{
    let count = program.argument_count(block);
    for (index, value) in values.iter().enumerate() {
        if index < count {
            give(inside, given, program.argument(block, index), *value);
        }
    }
}

/// By number, what branches forward to the arguments of the blocks that are joined behind theirs. The time is linear in
/// what is inside.
///
/// # Errors
/// There may be no memory.
pub(crate) fn forwarded_values<D: Meanings>(
    alloc: Global,
    program: &Program<D::Operation, D::Block>,
    inside: &Inside,
    joins: &[Join],
) -> Result<Vec<Option<Value>>, AllocError>
    requires can { AreJoins program.now joins.now }
    requires once { AreDistinct inside.now.values.keys }
    ensures { IfOk result (λ given. IsGivenTable inside.now.values.keys
        (IsForwarded D.meaning program.now joins.now) given.items) }
{
    let mut given: Vec<Option<Value>> = vec![in alloc; None; inside.values.len()]?;
    for join in joins {
        let values = forwarded_operands::<D>(alloc, program, join.branch, 0)?;
        give_arguments(program, inside, &mut given, join.block, values.as_slice());
    }
    Ok(given)
}
