//! Laws of the three optimisations on trees.
ghost use Rattle.opt_trees.specs.Laws.{OneBest, OneSccp, FactsExtend, FactsKept, SccpGoal, SccpTwice, SccpRenames, ConstantsRename};
ghost use Rattle.opt_trees.specs.Laws.{OneDce, DceGoal, DceTwice, DceRenames, SameSccp, SameDce, SameSimplify};
ghost use Rattle.opt_trees.specs.Laws.{OneSimplify, SimplifyRenames, CutOrderly, CutLocal, CutLast, CutGoal, SimplifyGoal};
ghost use Rattle.opt_trees.specs.Laws.{BackRefuses, LackingRenames, LosesRenames, BackRenames};
ghost use Rattle.ir_trees.specs.Renames.{named, holding};

/// There is one list of most precise facts at most.
pub fn one_best<O, B, V, C, D, T, A>()
    ensures { OneBest (named O B V) (holding C D T) A }
{}

/// Constants are put in in one way.
pub fn one_sccp<O, B, V, C, D, T, A>()
    ensures { OneSccp (named O B V) (holding C D T) A }
{}

/// With constants put in, there are most precise facts, the old ones extended: as much is known as before of what
/// stood there, and new values are known to be their constants.
pub fn facts_kept<O, B, V, C, D, T, A>()
    ensures extend { FactsExtend (named O B V) (holding C D T) A }
    ensures keep { FactsKept (named O B V) (holding C D T) A }
{}

/// With constants put in, each operand that is known to be a constant that can be made names the result of one.
pub fn sccp_goal<O, B, V, C, D, T, A>()
    ensures { SccpGoal (named O B V) (holding C D T) A }
{}

/// With constants put in, a second time no value gets one.
pub fn sccp_twice<O, B, V, C, D, T, A>()
    ensures { SccpTwice (named O B V) (holding C D T) A }
{}

/// Under other names that stay apart, what is made of a tree is the same, under those names.
pub fn sccp_renames<O, B, V, P, Q, W, C, D, T, A>()
    ensures result { SccpRenames (named O B V) (named P Q W) (holding C D T) A }
    ensures goal { ConstantsRename (named O B V) (named P Q W) (holding C D T) A }
{}

/// The dead goes in one way.
pub fn one_dce<O, B, V, C, D, T, A>()
    ensures { OneDce (named O B V) (holding C D T) A }
{}

/// After the dead has gone nothing is dead.
pub fn dce_goal<O, B, V, C, D, T, A>()
    ensures { DceGoal (named O B V) (holding C D T) A }
{}

/// A second time changes nothing.
pub fn dce_twice<O, B, V, C, D, T, A>()
    ensures { DceTwice (named O B V) (holding C D T) A }
{}

/// Branches are decided, blocks cut and chains joined in one way.
pub fn one_simplify<O, B, V, C, D, T, A>()
    ensures { OneSimplify (named O B V) (holding C D T) A }
{}

/// Under other names that stay apart, what is made of a tree is the same, under those names.
pub fn dce_renames<O, B, V, P, Q, W, C, D, T, A>()
    ensures { DceRenames (named O B V) (named P Q W) (holding C D T) A }
{}

/// Under other names that stay apart, what is made of a tree is the same, under those names.
pub fn simplify_renames<O, B, V, P, Q, W, C, D, T, A>()
    ensures { SimplifyRenames (named O B V) (named P Q W) (holding C D T) A }
{}

/// Under other names that stay apart the same is refused.
pub fn refusals_rename<O, B, V, P, Q, W, C, D, T, A>()
    ensures lacks { LackingRenames (named O B V) (named P Q W) (holding C D T) A }
    ensures loses { LosesRenames (named O B V) (named P Q W) (holding C D T) A }
    ensures comes_back { BackRenames (named O B V) (named P Q W) (holding C D T) A }
{}

/// What is the same but for names is made into what is the same but for names: so a list of them may be cut in two.
pub fn same_results<O, B, V, P, Q, W, X, Y, Z, C, D, T, A>()
    ensures sccp { SameSccp (named O B V) (named P Q W) (named X Y Z) (holding C D T) A }
    ensures dce { SameDce (named O B V) (named P Q W) (named X Y Z) (holding C D T) A }
    ensures simplify { SameSimplify (named O B V) (named P Q W) (named X Y Z) (holding C D T) A }
{}

/// What is asked of a tree holds of what the first two phases make of it.
pub fn cut_orderly<O, B, V, C, D, T, A>()
    ensures orderly { CutOrderly (named O B V) (holding C D T) A }
    ensures local { CutLocal (named O B V) (holding C D T) A }
    ensures last { CutLast (named O B V) (holding C D T) A }
{}

/// After the blocks that are not reached are cut, each block of a visited SSA region is reached.
pub fn cut_goal<O, B, V, C, D, T, A>()
    ensures { CutGoal (named O B V) (holding C D T) A }
{}

/// Where branches are decided, blocks cut and chains joined, each block of a visited SSA region is reached, and no
/// two can be joined.
pub fn simplify_goal<O, B, V, C, D, T, A>()
    ensures { SimplifyGoal (named O B V) (holding C D T) A }
{}

/// Where following what was forwarded comes back nothing is joined.
pub fn back_refuses<O, B, V, C, D, T, A>()
    ensures { BackRefuses (named O B V) (holding C D T) A }
{}
