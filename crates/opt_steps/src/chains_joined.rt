//! Which blocks are joined to which.
ghost use Rattle.std.specs.Prelude.{ℕ, ◌≡◌, ◌<◌, ◌↔◌, IfOk, length};
ghost use Rattle.opt_rows.specs.Chains.{IsJoinedTo};
ghost use Rattle.opt_steps.specs.ChainsJoined.{AreJoined};

use opt_rows::ChainBlock;
use std::alloc::{AllocError, Global};

/// The block that a block is joined to, if there is one.
fn target(blocks: &[ChainBlock], from: usize) -> Option<usize>
    requires { from < length blocks.now }
    ensures { (b : ℕ) → result ≡ Some b ↔ IsJoinedTo blocks.now from b }
{
    let to = blocks[from].only?;
    let block = blocks.get(to)?;
    if to == from || block.is_entry || block.edges != 1 {
        return None;
    }
    Some(to)
}

/// For each block the one that it is joined to: the only one that it goes on to, if that is another one, no entry, and
/// nothing else leads to it. Linear time.
///
/// # Errors
/// There may be no memory.
pub fn joined(alloc: Global, blocks: &[ChainBlock]) -> Result<Vec<Option<usize>>, AllocError>
    ensures { IfOk result (λ next. AreJoined blocks.now next.items) }
{
    let mut next = Vec::new(alloc);
    for from in 0..blocks.len() {
        next.push(target(blocks, from))?;
    }
    Ok(next)
}
