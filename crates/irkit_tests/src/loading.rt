//! Loading into a context: what is refused leaves nothing there.
use crate::calls::EMPTY;
use ir_context::Context;
use irkit_driver::{Refusal, Watched, load};
use kit::{Kit, let_go};
use std::alloc::{AllocError, Global};

/// Whether a refusal has this text.
fn is_named(alloc: Global, refusal: &Refusal, fault: &str) -> Result<bool, AllocError> {
    Ok(format!(in alloc; "{refusal}")?.as_str() == fault)
}

/// Whether loading a text into a context that holds nothing ends with this fault, or none. A refused one leaves nothing
/// there.
fn is_loaded(
    alloc: Global,
    ctx: &mut Context<Kit>,
    text: &[u8],
    fault: &str,
) -> Result<bool, AllocError> {
    let loaded = load(alloc, ctx, &mut Watched::new(text));
    match loaded {
        Ok(_) => Ok(fault.is_empty() && !ctx.is_ir_empty()),
        Err(refusal) => Ok(ctx.is_ir_empty() && is_named(alloc, &refusal, fault)?),
    }
}

/// Whether loading a text into a new context ends with this fault, or none.
fn loads(alloc: Global, text: &[u8], fault: &str) -> Result<bool, AllocError> {
    let mut ctx = Context::new(alloc);
    let loaded = is_loaded(alloc, &mut ctx, text, fault);
    let_go(ctx);
    loaded
}

/// A text for each kind of fault, and one without.
const TEXTS: &[(&[u8], &str)] = &[
    (EMPTY, ""),
    (b"b\xff", "not UTF-8 at byte 1"),
    (b"builtin.module @m {^b(): kit.return x", "syntax at 1:38"),
    (
        b"builtin.module @m {^b(): ^b():}",
        "scope at 1:27: MultipleDefinitions",
    ),
    (b"builtin.module @m {^b(): kit.return}", "rule 2 at 0.0.0"),
];

/// How a module begins that holds another one.
const OUTER: &str = "builtin.module @m {^b():";

/// Whether modules that are begun in one another, one more than may be, end with the fault of the last one.
fn is_too_deep(alloc: Global) -> Result<bool, AllocError> {
    let text = OUTER.repeat(alloc, 65)?;
    loads(alloc, text.as_bytes(), "too deep at 1:1555")
}

/// Texts end with their faults.
#[test]
fn what_is_refused_leaves_nothing(rt: HostRuntime) -> Result<(), AllocError> {
    for (text, fault) in TEXTS {
        assert!(rt; loads(rt.alloc(), text, fault)?, "{fault}");
    }
    assert!(rt; is_too_deep(rt.alloc())?, "too deep");
    Ok(())
}
