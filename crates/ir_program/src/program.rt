//! Operations, regions, blocks and values.
ghost use Rattle.std.specs.Prelude.{◌≡◌, ◌↔◌, ◌<◌, None, IsSome, IsTrue, is_some, option_map, MatchOption, IfOk, OnOk, OnErr};
ghost use Rattle.ir_arena.specs.Arena.{get};
ghost use Rattle.ir_program.specs.Program.{operation_at, block_at, region_at, IsLiveValue};
ghost use Rattle.ir_program.specs.Lists.{IsEmptyProgram};

use crate::records::{BlockRecord, Definition, OperationRecord, RegionRecord};
use crate::{BasicBlock, DefiningEntity, Operation, Ptr, Region, Value};
use ir_base::TypeHandle;
use ir_entities::{Forest, Uses};
use std::alloc::Global;
use std::marker::Model;

/// Operations, regions and blocks that stand in one another, with the values that they define and the
/// places that name values and blocks. Operations carry a payload of type `O`, blocks one of type `B`.
#[derive(Drop)]
pub struct Program<O, B> {
    pub(crate) forest: Forest<OperationRecord<O>, BlockRecord<B>, RegionRecord>,
    // Operands: the places that name values.
    pub(crate) values: Uses<Value>,
    // Successors: the places that name blocks.
    pub(crate) targets: Uses<Ptr<BasicBlock>>,
    // The number of the next value.
    pub(crate) counter: u64,
}

impl<O, B> Model for Program<O, B> {
    ghost use Rattle.ir_program.specs.Program.{Program as Parts};
    ghost use Rattle.ir_program.specs.Sound.{IsProgram};

    ghost Value = { Parts O B };

    ghost view = { λ c. record { forest = c.forest; values = c.values; targets = c.targets; counter = c.counter } };

    ghost invariant = { λ c. IsProgram
        (record { forest = c.forest; values = c.values; targets = c.targets; counter = c.counter }) };
}

impl<O, B> Program<O, B> {
    /// No operation, no region and no block. Values are numbered from 0 on.
    pub fn new(alloc: Global) -> Program<O, B>
        ensures operations { (p : _) → operation_at result p ≡ None }
        ensures blocks { (p : _) → block_at result p ≡ None }
        ensures regions { (p : _) → region_at result p ≡ None }
        ensures counter { result.counter ≡ 0 }
    {
        Program::counting_from(alloc, 0)
    }

    /// The same, with values that are numbered from this number on, as behind those of another program.
    pub fn counting_from(alloc: Global, counter: u64) -> Program<O, B>
        ensures operations { (p : _) → operation_at result p ≡ None }
        ensures blocks { (p : _) → block_at result p ≡ None }
        ensures regions { (p : _) → region_at result p ≡ None }
        ensures counter { result.counter ≡ counter }
    {
        Program {
            forest: Forest::new(alloc),
            values: Uses::new(alloc),
            targets: Uses::new(alloc),
            counter,
        }
    }

    /// Whether there is no operation, no region and no block.
    pub fn is_empty(&self) -> bool
        ensures { IsTrue result ↔ IsEmptyProgram self.now }
    {
        self.forest.is_vacant()
    }

    /// Whether the handle leads to an operation.
    pub fn has_operation(&self, op: Ptr<Operation>) -> bool
        ensures { result ≡ is_some (operation_at self.now op) }
    {
        self.forest.has_op(op.key)
    }

    /// Whether the handle leads to a block.
    pub fn has_block(&self, block: Ptr<BasicBlock>) -> bool
        ensures { result ≡ is_some (block_at self.now block) }
    {
        self.forest.has_block(block.key)
    }

    /// Whether the handle leads to a region.
    pub fn has_region(&self, region: Ptr<Region>) -> bool
        ensures { result ≡ is_some (region_at self.now region) }
    {
        self.forest.has_region(region.key)
    }
}
