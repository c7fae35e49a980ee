//! Which arguments of blocks may go.
ghost use Rattle.std.specs.Prelude.{◌↔◌, IsSome, IsTrue};
ghost use Rattle.ir_program.specs.Program.{block_at};
ghost use Rattle.opt_dialect.specs.Removable.{IsRemovable};

use crate::dialect::BlockArgRemoval;
use ir_program::{BasicBlock, Program, Ptr};

/// Whether the dialect lets arguments of a block go.
pub fn is_removable<D: BlockArgRemoval>(
    program: &Program<D::Operation, D::Block>,
    block: Ptr<BasicBlock>,
) -> bool
    requires { IsSome (block_at program.now block) }
    ensures { IsTrue result ↔ IsRemovable D.meaning program.now block }
{
    program.know_lists();
    let Some(region) = program.parent_region(block) else {
        return false;
    };
    let owner = program.parent_operation(region);
    let is_entry = program.first_block(region) == Some(block);
    D::can_remove_block_args(
        program.payload(owner),
        program.region_index(region),
        is_entry,
    )
}
