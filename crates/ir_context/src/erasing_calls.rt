//! Erasing operations, blocks and regions, by their handles.
ghost use Rattle.std.specs.Prelude.{◌≡◌, ◌<◌, Some, IsSome, length, slice_get};
ghost use Rattle.ir_program.specs.declared.handles.Ptr.{Ptr};
ghost use Rattle.ir_program.specs.declared.handles.Operation.{Operation};
ghost use Rattle.ir_program.specs.declared.handles.BasicBlock.{BasicBlock};
ghost use Rattle.ir_program.specs.declared.handles.Region.{Region};
ghost use Rattle.ir_program.specs.declared.handles.IRNode.TheVariants.{Operation as OperationNode, BasicBlock as BlockNode, Region as RegionNode};
ghost use Rattle.ir_program.specs.Program.{operation_at, block_at, region_at};
ghost use Rattle.ir_program.specs.Lists.{regions_in};
ghost use Rattle.ir_program.specs.Drops.{DropsUses};
ghost use Rattle.ir_program.specs.Erased.{IsApart, ErasesBlock, ErasesOperation, ErasesRegion};

use crate::{TypeTable, TypedProgram};
use ir_program::{BasicBlock, IRNode, Operation, Ptr, Region};

/// Erasing an operation, and taking away what it uses.
pub trait OperationErasing {
    /// The handle of the operation.
    ghost op: { Self → Ptr Operation };

    /// Takes all operands and successors of the operation, and of all operations inside it, away. No memory is asked for.
    fn drop_all_uses<O, B, T: TypeTable>(self, ctx: &mut TypedProgram<O, B, T>)
        requires { IsSome (operation_at ctx.old.program (op self)) }
        ensures dropped { DropsUses ctx.old.program ctx.new.program (OperationNode (op self)) }
        ensures types { ctx.new.types ≡ ctx.old.types };

    /// Erases the operation with all that stands in it: its handle, and those of all that stood in it, lead nowhere for
    /// good. No operation outside it takes a value or goes on to a block that is inside. No memory is asked for.
    fn erase<O: Drop, B: Drop, T: TypeTable>(self, ctx: &mut TypedProgram<O, B, T>)
        requires operation { IsSome (operation_at ctx.old.program (op self)) }
        requires apart { IsApart ctx.old.program (OperationNode (op self)) }
        ensures erased { ErasesOperation ctx.old.program ctx.new.program (op self) }
        ensures types { ctx.new.types ≡ ctx.old.types };

    /// Erases the region at an index of the operation's regions, with all that stands in it. No operation outside it
    /// takes a value or goes on to a block that is inside. No memory is asked for.
    fn erase_region<O: Drop, B: Drop, T: TypeTable>(self, ctx: &mut TypedProgram<O, B, T>, i: usize)
        requires operation { IsSome (operation_at ctx.old.program (op self)) }
        requires within { i < length (regions_in ctx.old.program (op self)) }
        requires apart { (region : Ptr Region) → slice_get (regions_in ctx.old.program (op self)) i ≡ Some region
            → IsApart ctx.old.program (RegionNode region) }
        ensures erased { (region : Ptr Region) → slice_get (regions_in ctx.old.program (op self)) i ≡ Some region
            → ErasesRegion ctx.old.program ctx.new.program region }
        ensures types { ctx.new.types ≡ ctx.old.types };
}

impl OperationErasing for Ptr<Operation> {
    ghost op = { λ p. p };

    fn drop_all_uses<O, B, T: TypeTable>(self, ctx: &mut TypedProgram<O, B, T>) {
        ctx.drop_all_uses(IRNode::Operation(self));
    }

    fn erase<O: Drop, B: Drop, T: TypeTable>(self, ctx: &mut TypedProgram<O, B, T>) {
        ctx.program.erase_operation(self);
        // So each value that is left stands at an entity that is left.
        ctx.program.know_values();
    }

    fn erase_region<O: Drop, B: Drop, T: TypeTable>(
        self,
        ctx: &mut TypedProgram<O, B, T>,
        i: usize,
    ) {
        match ctx.program.region(self, i) {
            Some(region) => ctx.erase_region(region),
            None => unreachable!(),
        }
    }
}

/// Erasing a block, and taking away what it uses.
pub trait BlockErasing {
    /// The handle of the block.
    ghost block: { Self → Ptr BasicBlock };

    /// Takes all operands and successors of all operations inside the block away. No memory is asked for.
    fn drop_all_uses<O, B, T: TypeTable>(self, ctx: &mut TypedProgram<O, B, T>)
        requires { IsSome (block_at ctx.old.program (block self)) }
        ensures dropped { DropsUses ctx.old.program ctx.new.program (BlockNode (block self)) }
        ensures types { ctx.new.types ≡ ctx.old.types };

    /// Erases the block with all that stands in it: its handle, and those of all that stood in it, lead nowhere for good.
    /// No operation outside it takes a value or goes on to a block that is inside. No memory is asked for.
    fn erase<O: Drop, B: Drop, T: TypeTable>(self, ctx: &mut TypedProgram<O, B, T>)
        requires block { IsSome (block_at ctx.old.program (block self)) }
        requires apart { IsApart ctx.old.program (BlockNode (block self)) }
        ensures erased { ErasesBlock ctx.old.program ctx.new.program (block self) }
        ensures types { ctx.new.types ≡ ctx.old.types };
}

impl BlockErasing for Ptr<BasicBlock> {
    ghost block = { λ p. p };

    fn drop_all_uses<O, B, T: TypeTable>(self, ctx: &mut TypedProgram<O, B, T>) {
        ctx.drop_all_uses(IRNode::BasicBlock(self));
    }

    fn erase<O: Drop, B: Drop, T: TypeTable>(self, ctx: &mut TypedProgram<O, B, T>) {
        ctx.program.erase_block(self);
        // So each value that is left stands at an entity that is left.
        ctx.program.know_values();
    }
}

/// Taking away what a region uses.
pub trait RegionErasing {
    /// The handle of the region.
    ghost region: { Self → Ptr Region };

    /// Takes all operands and successors of all operations inside the region away. No memory is asked for.
    fn drop_all_uses<O, B, T: TypeTable>(self, ctx: &mut TypedProgram<O, B, T>)
        requires { IsSome (region_at ctx.old.program (region self)) }
        ensures dropped { DropsUses ctx.old.program ctx.new.program (RegionNode (region self)) }
        ensures types { ctx.new.types ≡ ctx.old.types };
}

impl RegionErasing for Ptr<Region> {
    ghost region = { λ p. p };

    fn drop_all_uses<O, B, T: TypeTable>(self, ctx: &mut TypedProgram<O, B, T>) {
        ctx.drop_all_uses(IRNode::Region(self));
    }
}
