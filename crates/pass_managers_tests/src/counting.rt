//! What is run, and what is counted.
use crate::building::{build, tally, two};
use crate::items::{Below, Item, ItemContext, Items};
use crate::tally::{Tally, Told};
use ir_base::GrowError;
use ir_context::{OperationCalls, TypedProgram};
use opt_dialect::{IRStatus, OptError};
use opt_tiny::OneType;
use pass_analyses::{AnalysisManager, NoAnalysis, PMConfig};
use pass_managers::{GuardedPass, NestedOpsPass, PassManager, Passes};
use std::alloc::{AllocError, Global};
use std::test::Fail;

/// What came of running passes: whether it was answered that anything was changed, or the error; and how many were counted.
type Outcome = Option<(Result<IRStatus, OptError>, u64)>;

/// Runs passes on the nested operations whose number is below another: of those with the numbers 1, 2 and 50.
fn run_guarded(
    alloc: Global,
    ctx: &mut ItemContext,
    config: PMConfig,
    below: u64,
) -> Result<Outcome, OptError> {
    let op = build(alloc, ctx, 7, &[1, 2, 50])?;
    let mut pass = NestedOpsPass::new(GuardedPass::new(Below { number: below }, two(alloc)?));
    let mut analyses: AnalysisManager<NoAnalysis<Items>> = AnalysisManager::new(alloc);
    analyses.set_config(config);
    if !op.is_live(ctx) {
        return Ok(None);
    }
    let answer = PassManager::run_pass::<
        Items,
        NoAnalysis<Items>,
        NestedOpsPass<GuardedPass<Below, Passes<Tally>>>,
    >(alloc, &mut pass, op, ctx, &mut analyses);
    let status = match answer {
        Ok(answer) => Ok(answer.ir_changed),
        Err(error) => Err(error),
    };
    Ok(Some((status, analyses.pm_data.count())))
}

/// The same in a context of its own.
fn guarded(alloc: Global, config: PMConfig, below: u64) -> Result<Outcome, OptError> {
    let mut ctx: ItemContext = TypedProgram::with_types(alloc, OneType);
    run_guarded(alloc, &mut ctx, config, below)
}

#[test]
fn passes_run_at_what_is_allowed(rt: HostRuntime) -> Result<(), Fail> {
    let outcome = guarded(rt.alloc(), PMConfig::new(rt.alloc()), 10);
    assert!(rt; outcome == Ok(Some((Ok(IRStatus::Changed), 4))));
    let outcome = guarded(rt.alloc(), PMConfig::new(rt.alloc()), 100);
    assert!(rt; outcome == Ok(Some((Ok(IRStatus::Changed), 6))));
    let outcome = guarded(rt.alloc(), PMConfig::new(rt.alloc()), 0);
    assert!(rt; outcome == Ok(Some((Ok(IRStatus::Unchanged), 0))));
    Ok(())
}

/// Settings by which passes of this name are skipped.
fn skipping(alloc: Global, name: &str) -> Result<PMConfig, AllocError> {
    let mut config = PMConfig::new(alloc);
    config.skip_passes.push(String::from_str(alloc, name)?)?;
    Ok(config)
}

#[test]
fn skipped_passes_are_not_counted(rt: HostRuntime) -> Result<(), Fail> {
    let config = skipping(rt.alloc(), "two")?;
    let outcome = guarded(rt.alloc(), config, 10);
    assert!(rt; outcome == Ok(Some((Ok(IRStatus::Unchanged), 2))));
    Ok(())
}
