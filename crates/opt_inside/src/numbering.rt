//! The operations, blocks and values inside an operation, by numbers.
ghost use Rattle.std.specs.Prelude.{◌≡◌, ◌++◌, IsSome, IfOk, OnOk};
ghost use Rattle.ir_program.specs.Lists.{IsLiveNode};
ghost use Rattle.ir_program.specs.Program.{operation_at, block_at, results_at, arguments_at};
ghost use Rattle.ir_trees.specs.Searched.{AreDistinct};
ghost use Rattle.opt_inside.specs.Numbered.{NumbersInside, listed_in, numbers_of, values_in, with_node};

use crate::numbered_list::NumberedList;
use crate::sets::set_of;
use indexmap::IndexSet;
use ir_program::{BasicBlock, IRNode, Operation, Program, Ptr, Value};
use std::alloc::{AllocError, Global};

/// The operations, blocks and values inside an operation, each once: the index of each is its number.
#[derive(Drop)]
pub struct Inside {
    pub operations: NumberedList<Ptr<Operation>>,
    pub blocks: IndexSet<Ptr<BasicBlock>>,
    pub values: NumberedList<Value>,
}

/// Operations, blocks and values in the order in which they are found.
#[derive(Drop)]
struct Entities {
    operations: Vec<Ptr<Operation>>,
    blocks: Vec<Ptr<BasicBlock>>,
    values: Vec<Value>,
}

/// Puts the results of an operation behind other values, in their order.
fn add_results<O, B>(
    values: &mut Vec<Value>,
    program: &Program<O, B>,
    op: Ptr<Operation>,
) -> Result<(), AllocError>
    requires { IsSome (operation_at program.now op) }
    ensures { OnOk result (values.new.items ≡ values.old.items ++ values_in (results_at program.now op)) }
{
    for index in 0..program.result_count(op) {
        values.push(program.result(op, index))?;
    }
    Ok(())
}

/// Puts the arguments of a block behind other values, in their order.
fn add_arguments<O, B>(
    values: &mut Vec<Value>,
    program: &Program<O, B>,
    block: Ptr<BasicBlock>,
) -> Result<(), AllocError>
    requires { IsSome (block_at program.now block) }
    ensures { OnOk result (values.new.items ≡ values.old.items ++ values_in (arguments_at program.now block)) }
{
    for index in 0..program.argument_count(block) {
        values.push(program.argument(block, index))?;
    }
    Ok(())
}

impl Entities {
    /// Adds an entity, if it is an operation or a block, and the values that it defines.
    fn add<O, B>(&mut self, program: &Program<O, B>, node: IRNode) -> Result<(), AllocError>
        requires { IsLiveNode program.now node }
        ensures { OnOk result (listed_in self.new ≡ with_node program.now (listed_in self.old) node) }
    {
        match node {
            IRNode::Operation(op) => {
                self.operations.push(op)?;
                add_results(&mut self.values, program, op)
            }
            IRNode::BasicBlock(block) => {
                self.blocks.push(block)?;
                add_arguments(&mut self.values, program, block)
            }
            IRNode::Region(_) => Ok(()),
        }
    }

    /// The same operations, blocks and values, each by the number at which it stands.
    fn numbered(self, alloc: Global) -> Result<Inside, AllocError>
        requires operations { AreDistinct self.operations.items }
        requires blocks { AreDistinct self.blocks.items }
        requires values { AreDistinct self.values.items }
        ensures { IfOk result (λ n. numbers_of n ≡ listed_in self) }
    {
        let Entities {
            operations,
            blocks,
            values,
        } = self;
        let blocks = set_of(alloc, &blocks)?;
        let values = NumberedList::new(alloc, values)?;
        Inside::with_operations(alloc, operations, blocks, values)
    }
}

impl Inside {
    /// These operations, each by the number at which it stands, beside numbered blocks and values.
    fn with_operations(
        alloc: Global,
        operations: Vec<Ptr<Operation>>,
        blocks: IndexSet<Ptr<BasicBlock>>,
        values: NumberedList<Value>,
    ) -> Result<Inside, AllocError>
        requires { AreDistinct operations.items }
        ensures { IfOk result (λ n. numbers_of n
            ≡ record { operations = operations.items; blocks = blocks.keys; values = values.keys }) }
    {
        let operations = NumberedList::new(alloc, operations)?;
        Ok(Inside {
            operations,
            blocks,
            values,
        })
    }
}

/// The operations, blocks and values inside an operation, in preorder.
fn entities_inside<O, B>(
    alloc: Global,
    program: &Program<O, B>,
    op: Ptr<Operation>,
) -> Result<Entities, AllocError>
    requires { IsSome (operation_at program.now op) }
    ensures { IfOk result (λ found. NumbersInside program.now op (listed_in found)) }
{
    program.know_values();
    let mut found = Entities {
        operations: Vec::new(alloc),
        blocks: Vec::new(alloc),
        values: Vec::new(alloc),
    };
    let mut nodes = program.nodes_inside(IRNode::Operation(op));
    // The first one is the operation itself.
    let _root = nodes.next();
    for node in nodes {
        found.add(program, node)?;
    }
    Ok(found)
}

/// Numbers the operations, blocks and values inside an operation, in preorder: each operation and block before what is in
/// it. The operation itself and its results get no numbers. The time is linear in what is inside.
///
/// # Errors
/// No memory.
pub fn number_inside<O, B>(
    alloc: Global,
    program: &Program<O, B>,
    op: Ptr<Operation>,
) -> Result<Inside, AllocError>
    requires { IsSome (operation_at program.now op) }
    ensures { IfOk result (λ n. NumbersInside program.now op (numbers_of n)) }
{
    entities_inside(alloc, program, op)?.numbered(alloc)
}
