//! Making operations, blocks and regions.
ghost use Rattle.std.specs.Prelude.{IsSome, IfOk, OnOk, OnErr};
ghost use Rattle.ir_program.specs.Program.{operation_at};
ghost use Rattle.ir_program.specs.Edits.{IsUnchanged};
ghost use Rattle.ir_program.specs.Lists.{IsUnlinkedOperation, IsUnlinkedBlock};
ghost use Rattle.ir_program.specs.Made.{MakesBareOperation, MakesBareBlock, MakesRegion, AddsRegionCount, AddsFewerRegions};

use crate::records::{BlockRecord, OperationRecord, RegionRecord};
use crate::{BasicBlock, Operation, Program, Ptr, Region};
use smallvec::SmallVec;
use std::alloc::{AllocError, Global};

impl<O: Drop, B: Drop> Program<O, B> {
    /// Makes an operation that stands in no block, with no result, operand, successor or region.
    ///
    /// # Errors
    /// There may be no memory.
    pub fn new_operation(&mut self, alloc: Global, payload: O) -> Result<Ptr<Operation>, AllocError>
        ensures made { IfOk result (λ p. MakesBareOperation self.old self.new p payload) }
        ensures unlinked { IfOk result (λ p. IsUnlinkedOperation self.new p) }
        ensures err { OnErr result (IsUnchanged self.old self.new) }
    {
        self.forest.know();
        let key = self.forest.new_op(OperationRecord {
            payload,
            results: SmallVec::new(alloc),
            operands: SmallVec::new(alloc),
            successors: SmallVec::new(alloc),
        })?;
        self.forest.know();
        Ok(Ptr::new(key))
    }

    /// Makes a block that stands in no region, with no argument and no operation.
    ///
    /// # Errors
    /// There may be no memory.
    pub fn new_block(&mut self, alloc: Global, payload: B) -> Result<Ptr<BasicBlock>, AllocError>
        ensures made { IfOk result (λ p. MakesBareBlock self.old self.new p payload) }
        ensures unlinked { IfOk result (λ p. IsUnlinkedBlock self.new p) }
        ensures err { OnErr result (IsUnchanged self.old self.new) }
    {
        self.forest.know();
        self.targets.know_named();
        let key = self.forest.new_block(BlockRecord {
            payload,
            arguments: SmallVec::new(alloc),
            thread: 0,
        })?;
        let Ok(thread) = self.targets.define(Ptr::new(key)) else {
            self.forest.free_block(key);
            return Err(AllocError);
        };
        self.forest.block_mut(key).thread = thread;
        self.forest.know();
        Ok(Ptr::new(key))
    }

    /// Makes a region with no block, the last of an operation.
    ///
    /// # Errors
    /// There may be no memory.
    pub fn add_region(&mut self, op: Ptr<Operation>) -> Result<Ptr<Region>, AllocError>
        requires { IsSome (operation_at self.old op) }
        ensures made { IfOk result (λ r. MakesRegion self.old self.new op r) }
        ensures err { OnErr result (IsUnchanged self.old self.new) }
    {
        self.forest.know();
        let key = self.forest.new_region(RegionRecord)?;
        self.forest.know();
        self.forest.insert_region_at_back(op.key, key);
        Ok(Ptr::new(key))
    }

    /// Gives an operation so many regions, each with no block, behind its others.
    ///
    /// # Errors
    /// Without memory only the first of the regions came.
    pub fn add_regions(&mut self, op: Ptr<Operation>, count: usize) -> Result<(), AllocError>
        requires { IsSome (operation_at self.old op) }
        ensures added { OnOk result (AddsRegionCount self.old self.new op count) }
        ensures err { OnErr result (AddsFewerRegions self.old self.new op count) }
    {
        for _made in 0..count {
            self.add_region(op)?;
        }
        Ok(())
    }
}
