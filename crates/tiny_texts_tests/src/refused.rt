//! Texts that are refused, each with its fault and place, and what that leaves in a context.
use crate::reading::{answer, answer_in, nested, printed, read};
use ir_context::Context;
use ir_program::{Operation, Ptr};
use ir_tokens::TextFault;
use std::alloc::{AllocError, Global};
use std::process::Abort;
use std::test::Fail;
use tiny_texts::{TinyText, let_go};

/// No text of the grammar goes on with a token, or with the end.
const UNREADABLE: &[(&str, &str)] = &[
    ("", "syntax at 1:1"),
    ("\n ", "syntax at 2:2"),
    ("\u{feff}t.ret", "syntax at 1:1"),
    ("t.hole", "syntax at 1:1"),
    ("t.int", "syntax at 1:1"),
    ("t.box {..}", "syntax at 1:8"),
    ("t.box {", "syntax at 1:8"),
    ("t.box", "syntax at 1:6"),
    ("t.ret #", "syntax at 1:7"),
    ("t.ret\n\n t.ret", "syntax at 3:2"),
    ("t.ret {}", "syntax at 1:7"),
    ("t.br ^b", "syntax at 1:8"),
    ("t.box {t.ret}", "syntax at 1:8"),
    ("t.box {^b(): t.ret;;}", "syntax at 1:20"),
    ("t.box {\n^b():\n  t.use a\n  t.ret}", "syntax at 4:3"),
    ("t.box {^b(a): t.ret}", "syntax at 1:12"),
    ("t.box {^b(a: t.num 1): t.ret}", "syntax at 1:14"),
    ("a = t.def t.int", "syntax at 1:11"),
    ("a = t.def t.num -1", "syntax at 1:17"),
    ("a = t.def t.num \"1\"", "syntax at 1:17"),
    ("a = t.def t.num !1", "syntax at 1:17"),
    ("a = t.def t.ref 1", "syntax at 1:17"),
    ("a = t.def t.ref ! 1", "syntax at 1:17"),
    ("a = t.def t.num 1 !1", "syntax at 1:19"),
];

/// A number or a mark past 64 bits, and another number of names than of results.
const MISFIT: &[(&str, &str)] = &[
    ("a = t.def t.num 18446744073709551616", "syntax at 1:17"),
    ("a = t.def t.ref !18446744073709551616", "syntax at 1:17"),
    (
        "t.box {^b(): a, b = t.def t.num 99999999999999999999}",
        "syntax at 1:33",
    ),
    ("t.def t.num 1", "syntax at 1:1"),
    ("t.box {^b(): a = t.ret}", "syntax at 1:14"),
    (
        "t.box {^b(): t.ret; a, b = t.def t.num 1}",
        "syntax at 1:21",
    ),
];

/// Names and labels that are defined twice.
const DEFINED_TWICE: &[(&str, &str)] = &[
    (
        "t.box {^b(): a = t.def t.num 1; a = t.def t.num 2}",
        "scope at 1:33: MultipleDefinitions",
    ),
    (
        "t.box {^b(): a = t.def t.num 1; t.loop {^c(): a = t.id a}}",
        "scope at 1:47: MultipleDefinitions",
    ),
    (
        "t.box {^b(a: t.int, a: t.int): t.ret}",
        "scope at 1:21: MultipleDefinitions",
    ),
    (
        "t.box {^b(): t.ret ^b(): t.ret}",
        "scope at 1:21: MultipleDefinitions",
    ),
];

/// Names and labels without a definition where they are seen from.
const UNRESOLVED: &[(&str, &str)] = &[
    (
        "t.box {^b(): t.box {^c(): t.use a}; a = t.def t.num 1}",
        "scope at 1:20: UnresolvedReference",
    ),
    (
        "t.box {^b(): t.loop {^c(): t.use a}}",
        "scope at 1:7: UnresolvedReference",
    ),
    (
        "t.box {^b(): t.loop {^c(): t.br ^b()}}",
        "scope at 1:21: UnresolvedReference",
    ),
    (
        "t.box {^b(): t.loop {^c(): t.ret}; t.br ^c()}",
        "scope at 1:7: UnresolvedReference",
    ),
    ("\n t.use a", "scope at 2:2: UnresolvedReference"),
    ("t.br ^b()", "scope at 1:1: UnresolvedReference"),
];

/// Roots with a region that names of the text around it could reach into.
const OPEN_ROOTS: &[(&str, &str)] = &[
    (
        "t.loop {}",
        "scope at 1:1: TopLevelOpRegionNotIsolatedFromAbove",
    ),
    (
        "\n  t.pure {^b(): t.ret}",
        "scope at 2:3: TopLevelOpRegionNotIsolatedFromAbove",
    ),
];

/// Two faults, of which the one that is met first is named.
const TWO_FAULTS: &[(&str, &str)] = &[
    (
        "t.loop {..}",
        "scope at 1:1: TopLevelOpRegionNotIsolatedFromAbove",
    ),
    ("t.loop ..", "syntax at 1:8"),
    (
        "t.box {^b(): t.use a}}",
        "scope at 1:7: UnresolvedReference",
    ),
    ("t.box {^b(): t.use a; ..}", "syntax at 1:23"),
    (
        "t.box {^b(): a = t.def t.num 1; a = t.ret}",
        "scope at 1:33: MultipleDefinitions",
    ),
    (
        "t.box {^b(): t.box {^c(): t.use a}; t.br ^d()}",
        "scope at 1:20: UnresolvedReference",
    ),
];

/// Texts by their faults.
const TEXTS: &[&[(&str, &str)]] = &[
    UNREADABLE,
    MISFIT,
    DEFINED_TWICE,
    UNRESOLVED,
    OPEN_ROOTS,
    TWO_FAULTS,
];

/// Whether a text has this fault in a context.
fn is_refused(
    alloc: Global,
    ctx: &mut Context<TinyText>,
    text: &str,
    fault: &str,
) -> Result<bool, AllocError> {
    Ok(answer_in(alloc, ctx, text)?.as_str() == fault)
}

/// Whether a text has this fault, and leaves nothing in a new context.
fn leaves_nothing(alloc: Global, text: &str, fault: &str) -> Result<bool, AllocError> {
    let mut ctx = Context::new(alloc);
    let refused = is_refused(alloc, &mut ctx, text, fault);
    let is_empty = ctx.is_ir_empty();
    let_go(ctx);
    Ok(refused? && is_empty)
}

/// Each text has its fault, and leaves nothing.
#[test]
fn bad_texts_have_their_faults(rt: HostRuntime) -> Result<(), AllocError> {
    for texts in TEXTS {
        for (text, fault) in *texts {
            assert!(rt; leaves_nothing(rt.alloc(), text, fault)?, "{text}: {fault}");
        }
    }
    Ok(())
}

/// A text with the type of the dialect.
const KEPT: &str = "t.box {^b(p: t.int): a = t.def t.num 1; t.use a; t.use p}";

const KEPT_PRINTED: &str = "t.box \n{
  ^b_block1v1(v0: t.int):
    v1 = t.def t.num 1;
    t.use v1;
    t.use v0
}";

/// Whether what was read before a bad text is as it was then, and the context has the types that it had.
fn keeps(
    alloc: Global,
    ctx: &mut Context<TinyText>,
    kept: Ptr<Operation>,
    text: &str,
    fault: &str,
) -> Result<bool, AllocError> {
    let types = ctx.types().len();
    Ok(
        is_refused(alloc, ctx, text, fault)?
            && ctx.types().len() == types
            && printed(alloc, ctx, kept)?.as_str() == KEPT_PRINTED,
    )
}

/// The test of the same name, in a new context.
fn bad_texts_leave_what_was_there_in(
    rt: &impl Abort,
    alloc: Global,
    ctx: &mut Context<TinyText>,
) -> Result<(), TextFault> {
    let kept = read(alloc, ctx, KEPT)?;
    for texts in TEXTS {
        for (text, fault) in *texts {
            assert!(rt; keeps(alloc, ctx, kept, text, fault)?, "{text}: {fault}");
        }
    }
    Ok(())
}

/// One after the other, bad texts leave what was read before them, and its types.
#[test]
fn bad_texts_leave_what_was_there(rt: HostRuntime) -> Result<(), Fail> {
    let mut ctx = Context::new(rt.alloc());
    let outcome = bad_texts_leave_what_was_there_in(&rt, rt.alloc(), &mut ctx);
    let_go(ctx);
    Ok(outcome?)
}

/// How many regions stand in one another, what is in the innermost, and the fault of that. None is where it is accepted.
const DEPTHS: &[(usize, &str, &str)] = &[
    (64, "", ""),
    (65, "", "too deep at 1:903"),
    (63, "a = t.def t.num 1", ""),
    (64, "a = t.def t.num 1", "too deep at 1:906"),
    (62, "t.loop {^b(a: t.int): t.ret}", ""),
    (63, "t.loop {^b(a: t.int): t.ret}", "too deep at 1:896"),
];

/// Whether so many regions in one another have this fault, or, without one, are read, printed and read again.
fn is_bounded(alloc: Global, depth: usize, inner: &str, fault: &str) -> Result<bool, AllocError> {
    let once = answer(alloc, nested(alloc, depth, inner)?.as_str())?;
    if !fault.is_empty() {
        return Ok(once.as_str() == fault);
    }
    let again = answer(alloc, once.as_str())?;
    Ok(once.starts_with("t.box") && again.starts_with("t.box"))
}

/// Regions, types and attributes are accepted down to the 64th.
#[test]
fn depth_is_bounded(rt: HostRuntime) -> Result<(), AllocError> {
    for (depth, inner, fault) in DEPTHS {
        assert!(rt;
            is_bounded(rt.alloc(), *depth, inner, fault)?,
            "{depth} {inner}"
        );
    }
    Ok(())
}
