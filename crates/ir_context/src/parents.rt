//! What holds an operation, a region or a block further out.
ghost use Rattle.std.specs.Prelude.{◌≡◌, Some, IsSome, IfSome};
ghost use Rattle.ir_program.specs.declared.handles.Ptr.{Ptr};
ghost use Rattle.ir_program.specs.declared.handles.Operation.{Operation};
ghost use Rattle.ir_program.specs.declared.handles.BasicBlock.{BasicBlock};
ghost use Rattle.ir_program.specs.declared.handles.Region.{Region};
ghost use Rattle.ir_program.specs.Program.{operation_at, block_at, region_at};
ghost use Rattle.ir_context.specs.Holders.{HasRegion, HasOperation, HasBlock, HasParent, HasParentBlock, HasParentRegion};

use ir_program::{BasicBlock, Operation, Program, Ptr, Region};

/// The region that the block of an operation stands in.
pub(crate) fn region_of_operation<O, B>(
    program: &Program<O, B>,
    op: Ptr<Operation>,
) -> Option<Ptr<Region>>
    requires { IsSome (operation_at program.now op) }
    ensures found { IfSome result (λ region. HasRegion program.now op region) }
    ensures only { (region : Ptr Region) → HasRegion program.now op region → result ≡ Some region }
{
    let block = program.parent_block(op)?;
    program.parent_region(block)
}

/// The operation that the region of a block stands in.
pub(crate) fn operation_of_block<O, B>(
    program: &Program<O, B>,
    block: Ptr<BasicBlock>,
) -> Option<Ptr<Operation>>
    requires { IsSome (block_at program.now block) }
    ensures found { IfSome result (λ op. HasOperation program.now block op) }
    ensures only { (op : Ptr Operation) → HasOperation program.now block op → result ≡ Some op }
{
    let region = program.parent_region(block)?;
    Some(program.parent_operation(region))
}

/// The block that the operation of a region stands in.
pub(crate) fn block_of_region<O, B>(
    program: &Program<O, B>,
    region: Ptr<Region>,
) -> Option<Ptr<BasicBlock>>
    requires { IsSome (region_at program.now region) }
    ensures found { IfSome result (λ block. HasBlock program.now region block) }
    ensures only { (block : Ptr BasicBlock) → HasBlock program.now region block → result ≡ Some block }
{
    program.parent_block(program.parent_operation(region))
}

/// The operation that holds the region of the block that an operation stands in.
pub(crate) fn parent_of_operation<O, B>(
    program: &Program<O, B>,
    op: Ptr<Operation>,
) -> Option<Ptr<Operation>>
    requires { IsSome (operation_at program.now op) }
    ensures found { IfSome result (λ parent. HasParent program.now op parent) }
    ensures only { (parent : Ptr Operation) → HasParent program.now op parent → result ≡ Some parent }
{
    let block = program.parent_block(op)?;
    operation_of_block(program, block)
}

/// The block that holds the operation of the region that a block stands in.
pub(crate) fn parent_of_block<O, B>(
    program: &Program<O, B>,
    block: Ptr<BasicBlock>,
) -> Option<Ptr<BasicBlock>>
    requires { IsSome (block_at program.now block) }
    ensures found { IfSome result (λ parent. HasParentBlock program.now block parent) }
    ensures only { (parent : Ptr BasicBlock) → HasParentBlock program.now block parent → result ≡ Some parent }
{
    let region = program.parent_region(block)?;
    block_of_region(program, region)
}

/// The region that holds the block of the operation that a region stands in.
pub(crate) fn parent_of_region<O, B>(
    program: &Program<O, B>,
    region: Ptr<Region>,
) -> Option<Ptr<Region>>
    requires { IsSome (region_at program.now region) }
    ensures found { IfSome result (λ parent. HasParentRegion program.now region parent) }
    ensures only { (parent : Ptr Region) → HasParentRegion program.now region parent → result ≡ Some parent }
{
    region_of_operation(program, program.parent_operation(region))
}
