//! What stands first in a list, and what comes next there, in a direction.
ghost use Rattle.std.specs.Prelude.{◌≡◌, ◌∷◌, ◌++◌, List, IsSome, slice_get};
ghost use Rattle.ir_program.specs.Lists.{operations_in, blocks_in, regions_in};
ghost use Rattle.ir_program.specs.Program.{operation_at, block_at, region_at};
ghost use Rattle.ir_program.specs.declared.handles.BasicBlock.{BasicBlock};
ghost use Rattle.ir_program.specs.declared.handles.Operation.{Operation};
ghost use Rattle.ir_program.specs.declared.handles.Ptr.{Ptr};
ghost use Rattle.ir_program.specs.declared.handles.Region.{Region};
ghost use Rattle.ir_walks.specs.Levels.{directed};
ghost use Rattle.ir_walks.specs.declared.config.Direction.TheVariants.{Forward, Reverse};

use crate::config::Direction;
use ir_program::{BasicBlock, Operation, Program, Ptr, Region};

/// The first of an operation's regions, in a direction.
#[tactic(auto, using(crate::proofs::Sequences::last_taken))]
pub(crate) fn first_region<O, B>(
    program: &Program<O, B>,
    op: Ptr<Operation>,
    direction: Direction,
) -> Option<Ptr<Region>>
    requires { IsSome (operation_at program.now op) }
    ensures { result ≡ slice_get (directed direction (regions_in program.now op)) 0 }
{
    match direction {
        Direction::Forward => program.region(op, 0),
        Direction::Reverse => program.regions(op).next_back(),
    }
}

/// The first of a region's blocks, in a direction.
#[tactic(auto, using(crate::proofs::Sequences::first_reversed))]
pub(crate) fn first_block<O, B>(
    program: &Program<O, B>,
    region: Ptr<Region>,
    direction: Direction,
) -> Option<Ptr<BasicBlock>>
    requires { IsSome (region_at program.now region) }
    ensures { result ≡ slice_get (directed direction (blocks_in program.now region)) 0 }
{
    match direction {
        Direction::Forward => program.first_block(region),
        Direction::Reverse => program.last_block(region),
    }
}

/// The first of a block's operations, in a direction.
#[tactic(auto, using(crate::proofs::Sequences::first_reversed))]
pub(crate) fn first_operation<O, B>(
    program: &Program<O, B>,
    block: Ptr<BasicBlock>,
    direction: Direction,
) -> Option<Ptr<Operation>>
    requires { IsSome (block_at program.now block) }
    ensures { result ≡ slice_get (directed direction (operations_in program.now block)) 0 }
{
    match direction {
        Direction::Forward => program.first_operation(block),
        Direction::Reverse => program.last_operation(block),
    }
}

/// The region that comes right after this one among those of its operation.
fn region_after<O, B>(program: &Program<O, B>, region: Ptr<Region>) -> Option<Ptr<Region>>
    requires { IsSome (region_at program.now region) }
    ensures { (op : Ptr Operation) (before after : List (Ptr Region))
        → directed Forward (regions_in program.now op) ≡ before ++ region ∷ after → result ≡ slice_get after 0 }
{
    program.know_lists();
    let op = program.parent_operation(region);
    let index = program.region_index(region);
    let count = program.region_count(op);
    if index + 1 < count {
        program.region(op, index + 1)
    } else {
        None
    }
}

/// The region that comes right before this one among those of its operation.
fn region_before<O, B>(program: &Program<O, B>, region: Ptr<Region>) -> Option<Ptr<Region>>
    requires { IsSome (region_at program.now region) }
    ensures { (op : Ptr Operation) (before after : List (Ptr Region))
        → directed Reverse (regions_in program.now op) ≡ before ++ region ∷ after → result ≡ slice_get after 0 }
{
    program.know_lists();
    let op = program.parent_operation(region);
    let index = program.region_index(region);
    if index == 0 {
        None
    } else {
        program.region(op, index - 1)
    }
}

/// The region that comes right after this one among those of its operation, in a direction.
pub(crate) fn region_beside<O, B>(
    program: &Program<O, B>,
    region: Ptr<Region>,
    direction: Direction,
) -> Option<Ptr<Region>>
    requires { IsSome (region_at program.now region) }
    ensures { (op : Ptr Operation) (before after : List (Ptr Region))
        → directed direction (regions_in program.now op) ≡ before ++ region ∷ after
        → result ≡ slice_get after 0 }
{
    match direction {
        Direction::Forward => region_after(program, region),
        Direction::Reverse => region_before(program, region),
    }
}

/// The block that comes right after this one in its region, in a direction.
pub(crate) fn block_beside<O, B>(
    program: &Program<O, B>,
    block: Ptr<BasicBlock>,
    direction: Direction,
) -> Option<Ptr<BasicBlock>>
    requires { IsSome (block_at program.now block) }
    ensures { (region : Ptr Region) (before after : List (Ptr BasicBlock))
        → directed direction (blocks_in program.now region) ≡ before ++ block ∷ after
        → result ≡ slice_get after 0 }
{
    match direction {
        Direction::Forward => program.next_block(block),
        Direction::Reverse => program.previous_block(block),
    }
}

/// The operation that comes right after this one in its block, in a direction.
pub(crate) fn operation_beside<O, B>(
    program: &Program<O, B>,
    op: Ptr<Operation>,
    direction: Direction,
) -> Option<Ptr<Operation>>
    requires { IsSome (operation_at program.now op) }
    ensures { (block : Ptr BasicBlock) (before after : List (Ptr Operation))
        → directed direction (operations_in program.now block) ≡ before ++ op ∷ after
        → result ≡ slice_get after 0 }
{
    match direction {
        Direction::Forward => program.next_operation(op),
        Direction::Reverse => program.previous_operation(op),
    }
}
