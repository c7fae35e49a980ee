//! Where a value or a use stands.
ghost use Rattle.std.specs.Prelude.{◌≡◌, ◌≢◌, ◌↔◌, ℕ, Some, IsTrue, IfSome, MatchOption, is_some};
ghost use Rattle.ir_program.specs.Program.{results_at, arguments_at, value_in, type_at};
ghost use Rattle.ir_program.specs.Definers.{values_at};
ghost use Rattle.ir_program.specs.Uses.{IsUse, IsBlockUse};

use ir_program::{BasicBlock, DefiningEntity, Operation, Program, Ptr, Use, Value};

/// The index of a value among the results of an operation, if it is one of them.
fn index_in_results<O, B>(
    program: &Program<O, B>,
    op: Ptr<Operation>,
    value: Value,
) -> Option<usize>
    ensures { MatchOption result ((k : ℕ)
        → value_in (results_at program.now op) k ≢ Some value)
        (λ i. value_in (results_at program.now op) i ≡ Some value) }
{
    if !program.has_operation(op) {
        return None;
    }
    for i in 0..program.result_count(op) {
        if program.result(op, i) == value {
            return Some(i);
        }
    }
    None
}

/// The index of a value among the arguments of a block, if it is one of them.
fn index_in_arguments<O, B>(
    program: &Program<O, B>,
    block: Ptr<BasicBlock>,
    value: Value,
) -> Option<usize>
    ensures { MatchOption result ((k : ℕ)
        → value_in (arguments_at program.now block) k ≢ Some value)
        (λ i. value_in (arguments_at program.now block) i ≡ Some value) }
{
    if !program.has_block(block) {
        return None;
    }
    for i in 0..program.argument_count(block) {
        if program.argument(block, i) == value {
            return Some(i);
        }
    }
    None
}

/// The index of a value among the results or arguments of its definer, if it stands there.
pub(crate) fn index_of<O, B>(program: &Program<O, B>, value: Value) -> Option<usize>
    ensures found { IfSome result (λ i. value_in (values_at program.now value.definer) i ≡ Some value) }
    ensures live { is_some result ≡ is_some (type_at program.now value) }
{
    program.know_values();
    match value.definer() {
        DefiningEntity::Op(op) => index_in_results(program, op, value),
        DefiningEntity::Block(block) => index_in_arguments(program, block, value),
    }
}

/// Whether the operation of a use is there, and has as its operand at the index what the use names.
pub(crate) fn is_use<O, B>(program: &Program<O, B>, place: &Use<Value>) -> bool
    ensures { IsTrue result ↔ IsUse program.now place.now }
{
    program.has_operation(place.user_op)
        && place.index < program.operand_count(place.user_op)
        && program.operand(place.user_op, place.index) == place.def
}

/// Whether the operation of a use is there, and has as its successor at the index what the use names.
pub(crate) fn is_edge<O, B>(program: &Program<O, B>, place: &Use<Ptr<BasicBlock>>) -> bool
    ensures { IsTrue result ↔ IsBlockUse program.now place.now }
{
    program.has_operation(place.user_op)
        && place.index < program.successor_count(place.user_op)
        && program.successor(place.user_op, place.index) == place.def
}
