//! Questions about the blocks of regions as graphs.
use crate::names::Names;
use crate::texts::{names_in, names_of, plain};
use crate::tiny::Tiny;
use ir_core::{BasicBlock, BlockCalls, Context, Ptr, Region, RegionCalls};
use ir_graph::{
    ControlFlowGraph, HasLabel, ReverseGraph, has_local_edges, post_order, topological_order,
};
use std::alloc::{AllocError, Global};

/// The answer to a question about the blocks of a region as a graph, or none where it is no question.
pub fn ask_graph(
    alloc: Global,
    ctx: &Context<Tiny>,
    names: &Names,
    question: &str,
    region: Ptr<Region>,
) -> Result<Option<String>, AllocError> {
    if !region.is_live(ctx) {
        return plain(alloc, "gone");
    }
    if !has_local_edges(region, ctx) {
        return plain(alloc, "edges lead out of it or into it");
    }
    match question {
        "nodes" => names_in(alloc, names, region.nodes(alloc, ctx)),
        "entry_node" => match region.entry_node(ctx) {
            Some(block) => names_of(alloc, names, &[block]),
            None => plain(alloc, "none"),
        },
        "post_order" => names_in(alloc, names, post_order(alloc, ctx, &region)),
        "topological_order" => names_in(alloc, names, topological_order(alloc, ctx, &region)),
        "pre_sentinels" => {
            names_of(
                alloc,
                names,
                ReverseGraph::new(alloc, ctx, &region)?.pre_sentinels(),
            )
        }
        _ => Ok(None),
    }
}

/// What a block is shown by in a graph.
pub fn shown(
    alloc: Global,
    ctx: &Context<Tiny>,
    block: Ptr<BasicBlock>,
) -> Result<Option<String>, AllocError> {
    if !block.is_live(ctx) {
        return plain(alloc, "gone");
    }
    Ok(Some(HasLabel::label(&block, alloc, ctx)?))
}
