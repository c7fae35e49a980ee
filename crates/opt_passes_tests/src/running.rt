//! What optimisations answer as passes, and what they leave.
use crate::building::{Nest, make_nest, put, put_item};
use ir_base::GrowError;
use ir_context::{BlockCalls, ContainsOperations, OperationCalls, TypedProgram};
use opt_dialect::{IRStatus, OptError};
use opt_passes::{DCEPass, SCCPPass, SimplifyCFGPass};
use opt_tiny::OneType;
use pass_analyses::{AnalysisManager, NoAnalysis};
use pass_managers::{NestedOpsPass, Pass, PassManager};
use pass_managers_tests::items::{ItemContext, Items};
use std::alloc::Global;
use std::test::Fail;

/// What came of a run: whether it was answered that anything was changed, or the error; how many runs were counted; and
/// whether the inner block has operations.
type Outcome = Option<(Result<IRStatus, OptError>, u64, bool)>;

/// Puts into an operation's block one with this number, whose block has two with the numbers 1 and 2. The second leads
/// somewhere, where it is to.
fn build(
    alloc: Global,
    ctx: &mut ItemContext,
    number: u64,
    leads: bool,
) -> Result<(Nest, Nest), GrowError> {
    let outer = make_nest(alloc, ctx, 7)?;
    let inner = make_nest(alloc, ctx, number)?;
    put_item(alloc, ctx, 1, inner.block, false)?;
    put_item(alloc, ctx, 2, inner.block, leads)?;
    put(ctx, inner.op, outer.block);
    Ok((outer, inner))
}

/// Runs a pass at the operations of the outer operation's block.
fn run_in<P: Pass<Items, NoAnalysis<Items>> + Drop>(
    alloc: Global,
    ctx: &mut ItemContext,
    pass: P,
    number: u64,
    leads: bool,
) -> Result<Outcome, OptError> {
    let (outer, inner) = build(alloc, ctx, number, leads)?;
    let mut pass = NestedOpsPass::new(pass);
    let mut analyses: AnalysisManager<NoAnalysis<Items>> = AnalysisManager::new(alloc);
    if !outer.op.is_live(ctx) {
        return Ok(None);
    }
    let answer = PassManager::run_pass::<Items, NoAnalysis<Items>, NestedOpsPass<P>>(
        alloc,
        &mut pass,
        outer.op,
        ctx,
        &mut analyses,
    );
    let status = match answer {
        Ok(answer) => Ok(answer.ir_changed),
        Err(error) => Err(error),
    };
    if !inner.block.is_live(ctx) {
        return Ok(None);
    }
    let left = inner.block.get_head(ctx).is_some();
    Ok(Some((status, analyses.pm_data.count(), left)))
}

/// The same in a context of its own.
fn run<P: Pass<Items, NoAnalysis<Items>> + Drop>(
    alloc: Global,
    pass: P,
    number: u64,
    leads: bool,
) -> Result<Outcome, OptError> {
    let mut ctx: ItemContext = TypedProgram::with_types(alloc, OneType);
    run_in(alloc, &mut ctx, pass, number, leads)
}

#[test]
fn dead_code_goes_in_nested_operations(rt: HostRuntime) -> Result<(), Fail> {
    let alloc = rt.alloc();
    assert!(rt; run(alloc, DCEPass, 3, false) == Ok(Some((Ok(IRStatus::Changed), 1, false))));
    assert!(rt; run(alloc, SCCPPass, 3, false) == Ok(Some((Ok(IRStatus::Unchanged), 1, true))));
    assert!(rt;
        run(alloc, SimplifyCFGPass, 3, false) == Ok(Some((Ok(IRStatus::Unchanged), 1, true)))
    );
    Ok(())
}

#[test]
fn what_verifiers_refuse_is_left(rt: HostRuntime) -> Result<(), Fail> {
    let alloc = rt.alloc();
    let left = Ok(Some((Err(OptError::Verify), 1, true)));
    assert!(rt; run(alloc, DCEPass, 100, false) == left);
    assert!(rt; run(alloc, SCCPPass, 100, false) == left);
    assert!(rt; run(alloc, SimplifyCFGPass, 100, true) == left);
    Ok(())
}

#[test]
fn what_leads_elsewhere_is_left(rt: HostRuntime) -> Result<(), Fail> {
    let alloc = rt.alloc();
    let left = Ok(Some((Err(OptError::ForeignEdge), 1, true)));
    assert!(rt; run(alloc, DCEPass, 3, true) == left);
    assert!(rt; run(alloc, SCCPPass, 3, true) == left);
    assert!(rt; run(alloc, SimplifyCFGPass, 3, true) == left);
    Ok(())
}
