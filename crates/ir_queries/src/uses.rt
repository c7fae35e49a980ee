//! Where values, the results of operations, and blocks are used.
ghost use Rattle.std.specs.Prelude.{◌≡◌, ◌↔◌, ◌++◌, ℕ, List, IsSome, IsTrue, IfOk, OnOk};
ghost use Rattle.ir_program.specs.Program.{operation_at, block_at, IsLiveValue};
ghost use Rattle.ir_program.specs.Order.{edges_listed, uses_listed};
ghost use Rattle.ir_program.specs.Uses.{AreUsesOf, AreBlockUses};
ghost use Rattle.ir_program.specs.declared.handles.Value.{Value};
ghost use Rattle.ir_program.specs.declared.handles.Use.{Use};
ghost use Rattle.ir_queries.specs.Results.{HasUsedResult, AreResultUses, IsResultUseCount};

use ir_program::{BasicBlock, Operation, Program, Ptr, Use, Value};
use std::alloc::{AllocError, Global};

/// The uses of a value, each once, in the order in which the program lists them.
pub(crate) fn uses_of_value<O, B>(
    program: &Program<O, B>,
    alloc: Global,
    value: Value,
) -> Result<Vec<Use<Value>>, AllocError>
    requires { IsLiveValue program.now value }
    ensures uses { IfOk result (λ uses. AreUsesOf program.now value uses.items) }
    ensures order { IfOk result (λ uses. uses.items ≡ uses_listed program.now value) }
{
    program.uses_of(value).collect(alloc)
}

/// The edges to a block, each once, in the order in which the program lists them.
pub(crate) fn uses_of_block<O, B>(
    program: &Program<O, B>,
    alloc: Global,
    block: Ptr<BasicBlock>,
) -> Result<Vec<Use<Ptr<BasicBlock>>>, AllocError>
    requires { IsSome (block_at program.now block) }
    ensures uses { IfOk result (λ uses. AreBlockUses program.now block uses.items) }
    ensures order { IfOk result (λ uses. uses.items ≡ edges_listed program.now block) }
{
    program.block_uses(block).collect(alloc)
}

/// Whether some operation takes a result of this one.
pub(crate) fn has_used_result<O, B>(program: &Program<O, B>, op: Ptr<Operation>) -> bool
    requires { IsSome (operation_at program.now op) }
    ensures { IsTrue result ↔ HasUsedResult program.now op }
{
    for i in 0..program.result_count(op) {
        if program.is_used(program.result(op, i)) {
            return true;
        }
    }
    false
}

/// Puts the uses of a value behind the others in the list.
fn push_uses<O, B>(
    program: &Program<O, B>,
    uses: &mut Vec<Use<Value>>,
    value: Value,
) -> Result<(), AllocError>
    requires { IsLiveValue program.now value }
    ensures { OnOk result ((us : List (Use Value)) × AreUsesOf program.now value us
        × (uses.new.items ≡ uses.old.items ++ us)) }
{
    for place in program.uses_of(value) {
        uses.push(place)?;
    }
    Ok(())
}

/// The uses of all results of an operation, each once, in no promised order.
pub(crate) fn uses_of_results<O, B>(
    program: &Program<O, B>,
    alloc: Global,
    op: Ptr<Operation>,
) -> Result<Vec<Use<Value>>, AllocError>
    requires { IsSome (operation_at program.now op) }
    ensures { IfOk result (λ uses. AreResultUses program.now op uses.items) }
{
    program.know_values();
    let mut uses = Vec::new(alloc);
    for i in 0..program.result_count(op) {
        push_uses(program, &mut uses, program.result(op, i))?;
    }
    Ok(uses)
}

/// How many uses the results of an operation have.
pub(crate) fn count_of_result_uses<O, B>(program: &Program<O, B>, op: Ptr<Operation>) -> usize
    requires { IsSome (operation_at program.now op) }
    ensures count { IsResultUseCount program.now op result }
    ensures only { (n : ℕ) → IsResultUseCount program.now op n → n ≡ result }
{
    program.know_values();
    program.know_few_uses();
    let mut count = 0;
    for i in 0..program.result_count(op) {
        count += program.use_count(program.result(op, i));
    }
    count
}
