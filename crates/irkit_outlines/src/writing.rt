//! The text of a module with what stands beside its items.
use crate::ends::ends_of;
use crate::outlines::{OutlinedModule, Outlines};
use ir_context::Context;
use ir_hashing::TextKey;
use ir_program::IRNode;
use kit::Kit;
use outlined_writing::outlined_text;
use std::alloc::{AllocError, Global};

/// The number of what stands beside a node, if anything does.
fn beside_of(outlines: &Outlines, node: IRNode) -> Option<usize> {
    match node {
        IRNode::Operation(op) => outlines.operations.get(&op).copied(),
        IRNode::BasicBlock(block) => outlines.blocks.get(&block).copied(),
        IRNode::Region(_) => None,
    }
}

/// Of each of the nodes the number of what stands beside it.
fn besides_of(
    alloc: Global,
    outlines: &Outlines,
    nodes: &[IRNode],
) -> Result<Vec<Option<usize>>, AllocError> {
    let mut numbers = Vec::new(alloc);
    for node in nodes {
        numbers.push(beside_of(outlines, *node))?;
    }
    Ok(numbers)
}

/// The plain text of a module, with what stands beside its items.
pub fn with_outlines(
    alloc: Global,
    ctx: &Context<Kit>,
    module: &OutlinedModule,
    plain: &str,
) -> Result<String, AllocError> {
    let nodes = ends_of(alloc, ctx, module.root)?;
    let items = besides_of(alloc, &module.outlines, nodes.as_slice())?;
    outlined_text(
        alloc,
        TextKey::new().after(plain.as_bytes()),
        plain,
        items.as_slice(),
        module.outlines.beside.as_slice(),
        module.outlines.names.as_slice(),
    )
}
