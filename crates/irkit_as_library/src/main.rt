//! A program on the library: it reads a module of `kit`, folds constants, removes dead code, and writes what is left.
#![tactic(auto)]

ghost use Rattle.std.specs.Prelude.{◌≡◌, false};
ghost use Rattle.irkit_driver.specs.Streams.{has_failed};

use irkit_driver::{Context, Kit, KitPass, Refusal, Watched, let_go, load, optimise, text_of};
use std::alloc::Global;
use std::io::{Read, Write};
use std::process::ExitCode;

/// The passes, in their order.
const PASSES: [KitPass; 2] = [KitPass::Sccp, KitPass::Dce];

/// The text of the module that the reader gives, after the passes.
fn optimised<R: Read>(
    alloc: Global,
    ctx: &mut Context<Kit>,
    reader: &mut Watched<R>,
) -> Result<String, Refusal>
    requires { has_failed reader.old ≡ false }
{
    let root = load(alloc, ctx, reader)?;
    optimise(alloc, ctx, root, &PASSES)?;
    Ok(text_of(alloc, ctx, root)?)
}

fn main(rt: HostRuntime) -> ExitCode {
    let alloc = rt.alloc();
    let mut ctx = Context::new(alloc);
    let mut input = Watched::new(rt.stdin());
    let outcome = optimised(alloc, &mut ctx, &mut input);
    let_go(ctx);
    match outcome {
        Ok(text) => match rt.stdout().write_all(text.as_bytes()) {
            Ok(()) => ExitCode::SUCCESS,
            Err(_) => ExitCode::FAILURE,
        },
        Err(refusal) => ExitCode::from(refusal.number()),
    }
}
