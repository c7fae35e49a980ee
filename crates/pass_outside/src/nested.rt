//! The operations of an operation's blocks.
ghost use Rattle.std.specs.Prelude.{◌≡◌, ◌++◌, IsSome, IfOk, OnOk};
ghost use Rattle.ir_program.specs.Lists.{operations_in};
ghost use Rattle.ir_program.specs.Program.{operation_at, block_at, region_at};
ghost use Rattle.pass_outside.specs.Nested.{nested_in, operations_of_region};

use ir_program::{BasicBlock, Operation, Program, Ptr, Region};
use std::alloc::{AllocError, Global};

/// Puts the operations of a block at the end of a list.
fn add_of_block<O, B>(
    program: &Program<O, B>,
    block: Ptr<BasicBlock>,
    nested: &mut Vec<Ptr<Operation>>,
) -> Result<(), AllocError>
    requires { IsSome (block_at program.now block) }
    ensures { OnOk result (nested.new.items ≡ nested.old.items ++ operations_in program.now block) }
{
    for op in program.operations(block) {
        nested.push(op)?;
    }
    Ok(())
}

/// Puts the operations of a region's blocks at the end of a list.
fn add_of_region<O, B>(
    program: &Program<O, B>,
    region: Ptr<Region>,
    nested: &mut Vec<Ptr<Operation>>,
) -> Result<(), AllocError>
    requires { IsSome (region_at program.now region) }
    ensures { OnOk result (nested.new.items ≡ nested.old.items ++ operations_of_region program.now region) }
{
    program.know_lists();
    for block in program.blocks(region) {
        add_of_block(program, block, nested)?;
    }
    Ok(())
}

/// The operations of an operation's blocks: region by region, and block by block.
///
/// # Errors
/// There may be no memory.
pub fn nested_operations<O, B>(
    alloc: Global,
    program: &Program<O, B>,
    op: Ptr<Operation>,
) -> Result<Vec<Ptr<Operation>>, AllocError>
    requires { IsSome (operation_at program.now op) }
    ensures { IfOk result (λ nested. nested.items ≡ nested_in program.now op) }
{
    program.know_lists();
    let mut nested = Vec::new(alloc);
    for region in program.regions(op) {
        add_of_region(program, region, &mut nested)?;
    }
    Ok(nested)
}
