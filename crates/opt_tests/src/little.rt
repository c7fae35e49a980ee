//! The optimisations of dialects that give them little to go by.
use crate::asserting::same;
use crate::places::test_below;
use crate::playing::{Answer, Pass, Played, expected, with_text};
use ir_context::TypedProgram;
use ir_opts::{IRStatus, dce, sccp, simplify_cfg};
use ir_program::{Operation, Ptr};
use opt_tiny::{Bare, Lone, OneType, Sparse, Tree, Unread, let_go, read};
use std::alloc::Global;
use std::test::Fail;

/// The condition of the branch is a constant, but nothing folds, and there is no other branch to put in its place; in the
/// graph region blocks are neither removed nor joined, and a graph region may have no block.
const LITTLE: &str = "box {
^a p
c = const 1
cond c ^b ^d p
^b
x = id c
use x
ret
^d z
pure {
^i
u = id v
v = id u
br ^j
^j
use u
ret
^k
br ^j
}
pure {
}
ret
}";

/// What is dead is so without folds, but no argument may be removed.
const LITTLE_AFTER: &str = "box {
^a p
c = const 1
cond c ^b ^d p
^b
x = id c
use x
ret
^d z
ret
}";

/// Optimisations, what they answer of the program of that dialect, and what they make of it.
const LITTLE_DONE: &[(Pass, IRStatus, &str)] = &[
    (Pass::Sccp, IRStatus::Unchanged, LITTLE),
    (Pass::SimplifyCfg, IRStatus::Unchanged, LITTLE),
    (Pass::Dce, IRStatus::Changed, LITTLE_AFTER),
];

/// Programs of the dialect of one kind.
type LoneTree = TypedProgram<Bare, Bare, OneType>;

/// Runs one of the three optimisations of the dialect that says little.
fn run(alloc: Global, pass: Pass, ctx: &mut Tree, op: Ptr<Operation>) -> Result<Answer, Unread> {
    test_below::<Sparse>(alloc, ctx, op)?;
    match pass {
        Pass::Sccp => Ok(sccp::<Sparse, OneType>(alloc, op, ctx)),
        Pass::Dce => Ok(dce::<Sparse, OneType>(alloc, op, ctx)),
        Pass::SimplifyCfg => Ok(simplify_cfg::<Sparse, OneType>(alloc, op, ctx)),
        Pass::RemoveBlocks(_) | Pass::Merge(_) => Err(Unread::Text),
    }
}

/// What an optimisation of that dialect makes of the program of a text.
fn after(alloc: Global, pass: Pass, text: &str) -> Result<Played, Unread> {
    let mut ctx: Tree = Tree::with_types(alloc, OneType);
    let played = after_in(alloc, pass, text, &mut ctx);
    let_go(ctx);
    played
}

/// What an optimisation of that dialect makes of the program of a text, which is read into a context.
fn after_in(alloc: Global, pass: Pass, text: &str, ctx: &mut Tree) -> Result<Played, Unread> {
    let op = read(alloc, ctx, text)?;
    let answer = run(alloc, pass, ctx, op)?;
    with_text(alloc, answer, ctx, op)
}

/// What the three optimisations answer of an operation of one kind, without a block in its region.
fn answers_of_one_kind(alloc: Global) -> Result<[Answer; 3], Unread> {
    let mut ctx: LoneTree = TypedProgram::with_types(alloc, OneType);
    answers_in(alloc, &mut ctx)
}

/// What the three optimisations answer of an operation of one kind, which is made in a context.
fn answers_in(alloc: Global, ctx: &mut LoneTree) -> Result<[Answer; 3], Unread> {
    let op = ctx.new_operation(alloc, Bare, &[], &[], &[], 1)?;
    test_below::<Lone>(alloc, ctx, op)?;
    let propagated = sccp::<Lone, OneType>(alloc, op, ctx);
    test_below::<Lone>(alloc, ctx, op)?;
    let thinned = dce::<Lone, OneType>(alloc, op, ctx);
    test_below::<Lone>(alloc, ctx, op)?;
    let simple = simplify_cfg::<Lone, OneType>(alloc, op, ctx);
    Ok([propagated, thinned, simple])
}

#[test]
fn little_is_done_where_little_is_said(rt: HostRuntime) -> Result<(), Fail> {
    let alloc = rt.alloc();
    for (pass, status, text) in LITTLE_DONE {
        same(
            &rt,
            after(alloc, *pass, LITTLE)?,
            expected(alloc, Ok(*status), text)?,
        );
    }
    Ok(())
}

#[test]
fn one_kind_alone_stays_as_it_is(rt: HostRuntime) -> Result<(), Fail> {
    let unchanged = Ok(IRStatus::Unchanged);
    same(
        &rt,
        answers_of_one_kind(rt.alloc())?,
        [unchanged, unchanged, unchanged],
    );
    Ok(())
}
