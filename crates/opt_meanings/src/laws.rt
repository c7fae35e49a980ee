//! Laws of the three optimisations on trees that say the same in other words.
ghost use Rattle.ir_trees.specs.Renames.{holding, named};
ghost use Rattle.opt_meanings.specs.Laws.{DceMeans, DceWorded, SameDces, SameSccps, SameSimplifies, SccpMeans};
ghost use Rattle.opt_meanings.specs.Laws.{SccpWorded, SecondSccpsSettle, SimplifyMeans, SimplifyWorded};

/// What is made of what a tree means is the meaning of what is made of the tree: the optimisations look at nothing that
/// the dialect doesn't look at. `SimplifyMeans` asks distinct names of operations.
pub fn meanings_are_made<O, B, V, C, D, T, P, Q, U, A>()
    ensures sccp { SccpMeans (named O B V) (holding C D T) (holding P Q U) A }
    ensures dce { DceMeans (named O B V) (holding C D T) (holding P Q U) A }
    ensures simplify { SimplifyMeans (named O B V) (holding C D T) (holding P Q U) A }
{}

/// The same is made of a tree whatever words attributes are in.
pub fn words_are_made<O, B, V, C, D, T, A, E>()
    ensures sccp { SccpWorded (named O B V) (holding C D T) A E }
    ensures dce { DceWorded (named O B V) (holding C D T) A E }
    ensures simplify { SimplifyWorded (named O B V) (holding C D T) A E }
{}

/// Of trees that are the same up to names what is the same up to names is made, where names can be told apart
/// (`HaveTests`).
pub fn same_trees_are_made<O, B, V, C, D, T, A>()
    ensures sccp { SameSccps (named O B V) (holding C D T) A }
    ensures dce { SameDces (named O B V) (holding C D T) A }
    ensures simplify { SameSimplifies (named O B V) (holding C D T) A }
{}

/// A second constant propagation straight after another, whatever names what the first made has got, makes of it what
/// is the same up to names, where nothing is named from outside and names can be told apart.
pub fn second_constants_settle<O, B, V, C, D, T, A>()
    ensures { SecondSccpsSettle (named O B V) (holding C D T) A }
{}
