//! What a call of a callback answers.
ghost use Rattle.std.specs.Prelude.{◌≡◌, ◌↔◌, IsTrue};
ghost use Rattle.std.specs.declared.ops.ControlFlow.TheVariants.{Continue, Break};
ghost use Rattle.ir_walks.specs.declared.results.WalkContinue.TheVariants.{Advance, Skip};

use std::ops::ControlFlow;

/// How a walk goes on after a call.
#[derive(Clone, Copy, Debug, PartialEq, Eq)]
pub enum WalkContinue {
    /// Into the node.
    Advance,
    /// Past what stands in the node, where the node is called before that. After it there is nothing to skip.
    Skip,
}

impl WalkContinue {
    /// Whether it is `Advance`.
    pub fn is_advance(self) -> bool
        ensures { IsTrue result ↔ (self ≡ Advance) }
    {
        self == WalkContinue::Advance
    }

    /// Whether it is `Skip`.
    pub fn is_skip(self) -> bool
        ensures { IsTrue result ↔ (self ≡ Skip) }
    {
        self == WalkContinue::Skip
    }
}

/// What a call answers: how to go on, or to end the walk with a value.
pub type WalkResult<B> = ControlFlow<B, WalkContinue>;

/// Ends the walk.
pub fn walk_break<B>(value: B) -> WalkResult<B>
    ensures { result ≡ Break value }
{
    ControlFlow::Break(value)
}

/// Goes on, into the node.
pub fn walk_advance<B>() -> WalkResult<B>
    ensures { result ≡ Continue Advance }
{
    ControlFlow::Continue(WalkContinue::Advance)
}

/// Goes on, past what stands in the node.
pub fn walk_skip<B>() -> WalkResult<B>
    ensures { result ≡ Continue Skip }
{
    ControlFlow::Continue(WalkContinue::Skip)
}
