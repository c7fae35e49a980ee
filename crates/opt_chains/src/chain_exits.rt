//! Blocks that end in a bare branch with one successor.
ghost use Rattle.std.specs.Prelude.{◌≡◌, ◌↔◌, true, [], IfSome, IsSome, IsTrue, Some, None};
ghost use Rattle.ir_program.specs.Lists.{regions_in};
ghost use Rattle.ir_program.specs.Program.{OperationView, block_at, operation_at, results_at};
ghost use Rattle.ir_program.specs.declared.handles.BasicBlock.{BasicBlock};
ghost use Rattle.ir_program.specs.declared.handles.Operation.{Operation};
ghost use Rattle.ir_program.specs.declared.handles.Ptr.{Ptr};
ghost use Rattle.opt_chains.specs.Exits.{IsBareExit};
ghost use Rattle.opt_chains.specs.declared.chain_exits.Exit.{Exit};

use ir_program::{BasicBlock, Operation, Program, Ptr};
use opt_dialect::Meanings;

/// Where a block goes on to alone.
#[derive(Clone, Copy)]
pub(crate) struct Exit {
    /// The branch at its end.
    pub branch: Ptr<Operation>,
    /// The block that it leads to.
    pub target: Ptr<BasicBlock>,
}

/// Whether an operation is a branch without results and regions.
fn is_bare<D: Meanings>(program: &Program<D::Operation, D::Block>, op: Ptr<Operation>) -> bool
    requires { IsSome (operation_at program.now op) }
    ensures { (v : OperationView D.Operation) → operation_at program.now op ≡ Some v
        → IsTrue result ↔ ((D.meaning.is_branch v.payload ≡ true) × (v.results ≡ []) × (v.regions ≡ [])) }
{
    D::is_branch(program.payload(op))
        && program.result_count(op) == 0
        && program.region_count(op) == 0
}

/// Where a block goes on to, if it ends in a branch without results and regions that has one successor.
pub(crate) fn bare_exit<D: Meanings>(
    program: &Program<D::Operation, D::Block>,
    block: Ptr<BasicBlock>,
) -> Option<Exit>
    requires { IsSome (block_at program.now block) }
    ensures found { IfSome result (λ exit. IsBareExit D.meaning program.now block exit.branch exit.target) }
    ensures all { (p : Ptr Operation) (b : Ptr BasicBlock) → IsBareExit D.meaning program.now block p b
        → result ≡ Some (record { branch = p; target = b }) }
{
    let Some(branch) = program.last_operation(block) else {
        return None;
    };
    if is_bare::<D>(program, branch) && program.successor_count(branch) == 1 {
        let target = program.successor(branch, 0);
        Some(Exit { branch, target })
    } else {
        None
    }
}
