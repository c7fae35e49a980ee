//! The blocks of a region as a graph of control flow.
use crate::ControlFlowGraph;
use ir_context::Context;
use ir_program::{BasicBlock, Ptr, Region};
use ir_queries::BlockEdges;
use ir_types::DialectTables;
use std::alloc::{AllocError, Global};

/// The blocks of a region, if its edges are local, as `has_local_edges` tells. The first block is the entry.
impl<D: DialectTables> ControlFlowGraph<Context<D>> for Ptr<Region> {
    ghost use Rattle.std.specs.Prelude.{slice_get};
    ghost use Rattle.ir_program.specs.Lists.{blocks_in};
    ghost use Rattle.ir_queries.specs.Edges.{edges_of};
    ghost use Rattle.ir_graph.specs.Regions.{IsBlockGraph, predecessors_in};
    ghost use Rattle.ir_graph.specs.RegionLaws.{blocks_distinct, first_in, onward_in, backward_in, converse_in, same_block};

    type Node = Ptr<BasicBlock>;

    ghost is_graph = { λ r c. IsBlockGraph D.op_has c.program r };

    ghost nodes_of = { λ r c. blocks_in c.program r };

    ghost entry_of = { λ r c. slice_get (blocks_in c.program r) 0 };

    ghost successors_of = { λ r c b. edges_of D.op_has c.program b };

    ghost predecessors_of = { λ r c b. predecessors_in c.program r b };

    fn num_successors(&self, ctx: &Context<D>, node: &Ptr<BasicBlock>) -> usize {
        ctx.program().know_lists();
        node.num_succ(ctx)
    }

    fn get_successor(
        &self,
        ctx: &Context<D>,
        node: &Ptr<BasicBlock>,
        index: usize,
    ) -> Ptr<BasicBlock> {
        ctx.program().know_lists();
        node.get_succ(ctx, index)
    }

    fn num_predecessors(&self, ctx: &Context<D>, node: &Ptr<BasicBlock>) -> usize {
        let program = ctx.program();
        program.know_lists();
        program.predecessor_count(*node)
    }

    fn get_predecessor(
        &self,
        ctx: &Context<D>,
        node: &Ptr<BasicBlock>,
        index: usize,
    ) -> Ptr<BasicBlock> {
        ctx.program().know_lists();
        node.get_pred(ctx, index)
    }

    fn successors(
        &self,
        alloc: Global,
        ctx: &Context<D>,
        node: &Ptr<BasicBlock>,
    ) -> Result<Vec<Ptr<BasicBlock>>, AllocError> {
        ctx.program().know_lists();
        node.succs(alloc, ctx)
    }

    fn predecessors(
        &self,
        alloc: Global,
        ctx: &Context<D>,
        node: &Ptr<BasicBlock>,
    ) -> Result<Vec<Ptr<BasicBlock>>, AllocError> {
        ctx.program().know_lists();
        node.preds(alloc, ctx)
    }

    fn entry_node(&self, ctx: &Context<D>) -> Option<Ptr<BasicBlock>> {
        ctx.program().first_block(*self)
    }

    fn nodes(&self, alloc: Global, ctx: &Context<D>) -> Result<Vec<Ptr<BasicBlock>>, AllocError> {
        ctx.program().blocks(*self).collect(alloc)
    }

    ghost distinct = { λ r c h. blocks_distinct D.op_has c.program r h };

    ghost entered = { λ r c h. first_in (blocks_in c.program r) };

    ghost onward = { λ r c h. onward_in D.op_has c.program r h };

    ghost backward = { λ r c h. backward_in D.op_has c.program r h };

    ghost converse = { λ r c h. converse_in D.op_has c.program r h };

    ghost same = { same_block };
}
