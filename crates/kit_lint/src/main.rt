//! A lint tool on the library: it reads a module of `kit`, counts its operations by kind, and names its functions that no call
//! elsewhere names.
#![tactic(auto)]

ghost use Rattle.std.specs.Prelude.{◌≡◌, false};
ghost use Rattle.irkit_driver.specs.Streams.{has_failed};

use builtin_dialect::{
    CallOpCallable, CallOpInterface, SymbolOpInterface, SymbolPayload, WALKCONFIG_PREORDER_FORWARD,
    WalkResult, interruptible, lookup_symbol, op_impls, walk_advance, walk_break,
};
use indexmap::{IndexMap, IndexSet};
use ir_core::{IRNode, OpId, Operation, OperationCalls, Ptr};
use irkit_driver::{Context, Kit, Refusal, Watched, let_go, load};
use std::alloc::{AllocError, Global};
use std::io::{Read, Write};
use std::ops::ControlFlow;
use std::process::ExitCode;

/// What a walk over a module finds.
#[derive(Drop)]
struct Survey {
    /// How many operations there are of each kind.
    kinds: IndexMap<OpId, usize>,
    /// The functions, in the order of the text.
    functions: Vec<Ptr<Operation>>,
    /// Those of them that a call elsewhere names.
    called: IndexSet<Ptr<Operation>>,
}

/// The function that the operation calls, if it is a call.
fn callee(ctx: &Context<Kit>, op: Ptr<Operation>) -> Option<Ptr<Operation>> {
    if !op.is_live(ctx) || !op_impls::<Kit, CallOpInterface>(op.kind(ctx)) {
        return None;
    }
    match CallOpInterface::callee(op, ctx)? {
        CallOpCallable::Direct(name) => lookup_symbol(ctx, op, name.as_str()),
        CallOpCallable::Indirect(_) => None,
    }
}

impl Survey {
    /// Takes note of an operation.
    fn see(&mut self, ctx: &Context<Kit>, op: Ptr<Operation>) -> Result<(), AllocError> {
        if !op.is_live(ctx) {
            return Ok(());
        }
        let kind = op.get_opid(ctx);
        let count = self.kinds.get(&kind).copied().unwrap_or(0);
        self.kinds.insert(kind, count.saturating_add(1))?;
        if op_impls::<Kit, SymbolOpInterface>(op.kind(ctx))
            && !ctx.program().payload(op).is_symbol_table()
        {
            self.functions.push(op)?;
        }
        if let Some(function) = callee(ctx, op) {
            if op.get_parent_op(ctx) != Some(function) {
                self.called.insert(function)?;
            }
        }
        Ok(())
    }

    /// Takes note of a node that a walk comes to.
    fn visit(&mut self, ctx: &Context<Kit>, node: IRNode) -> WalkResult<AllocError> {
        match node {
            IRNode::Operation(op) => match self.see(ctx, op) {
                Ok(()) => walk_advance(),
                Err(fault) => walk_break(fault),
            },
            _ => walk_advance(),
        }
    }
}

/// What a walk over an operation and all that stands in it finds.
fn look_over(
    alloc: Global,
    ctx: &Context<Kit>,
    root: Ptr<Operation>,
) -> Result<Survey, AllocError> {
    let mut found = Survey {
        kinds: IndexMap::new(alloc),
        functions: Vec::new(alloc),
        called: IndexSet::new(alloc),
    };
    if root.is_live(ctx) {
        let visit = |ctx: &Context<Kit>, found: &mut Survey, node: IRNode| found.visit(ctx, node);
        let config = WALKCONFIG_PREORDER_FORWARD;
        let walked = interruptible::immutable::walk_op(ctx, &mut found, &config, root, visit);
        if let ControlFlow::Break(fault) = walked {
            return Err(fault);
        }
    }
    Ok(found)
}

/// A line for each kind of operations, and one for each function that no call elsewhere names.
fn report(alloc: Global, ctx: &Context<Kit>, survey: &Survey) -> Result<String, AllocError> {
    let mut text = String::new(alloc);
    for (kind, count) in &survey.kinds {
        writeln!(text, "{count} {kind}")?;
    }
    for function in &survey.functions {
        if function.is_live(ctx) && !survey.called.contains(function) {
            if let Some(name) = ctx.program().payload(*function).symbol_name() {
                writeln!(text, "no call of @{name}")?;
            }
        }
    }
    Ok(text)
}

/// What there is to say of the module that the reader gives.
fn linted<R: Read>(
    alloc: Global,
    ctx: &mut Context<Kit>,
    reader: &mut Watched<R>,
) -> Result<String, Refusal>
    requires { has_failed reader.old ≡ false }
{
    let root = load(alloc, ctx, reader)?;
    let found = look_over(alloc, ctx, root)?;
    Ok(report(alloc, ctx, &found)?)
}

fn main(rt: HostRuntime) -> ExitCode {
    let alloc = rt.alloc();
    let mut ctx = Context::new(alloc);
    let mut input = Watched::new(rt.stdin());
    let outcome = linted(alloc, &mut ctx, &mut input);
    let_go(ctx);
    match outcome {
        Ok(text) => match rt.stdout().write_all(text.as_bytes()) {
            Ok(()) => ExitCode::SUCCESS,
            Err(_) => ExitCode::FAILURE,
        },
        Err(refusal) => ExitCode::from(refusal.number()),
    }
}
