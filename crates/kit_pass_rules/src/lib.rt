//! What the optimisations, and the phases of simplifying control flow, make of a module that keeps the rules of `kit`
//! keeps them again: each function here has no code of its own, and its contract is a law over the definitions in
//! specs/.
#![tactic(auto)]

mod definers;
mod knowing;

ghost use Rattle.kit_pass_rules.specs.ChainLaws.{JoinedChainsKeepRules, JoinedStaysGood};
ghost use Rattle.kit_pass_rules.specs.ChainLaws.{SimplifiedKeepsRules, SimplifiedStaysGood};
ghost use Rattle.kit_pass_rules.specs.CutLaws.{CutStaysGood, DecidedInPlaceStaysGood, DecidedStaysGood};
ghost use Rattle.kit_pass_rules.specs.CutLaws.{RenamedKeepsRules, RenamedStaysGood};
ghost use Rattle.kit_pass_rules.specs.Laws.{CutKeepsRules, DceKeepsRules, DecidedKeepsRules, SccpKeepsRules};

pub use definers::know_definers;
pub use knowing::know_handles_and_types;

/// A tree that keeps the rules keeps them without what is dead in it.
pub fn dce_keeps_rules()
    ensures { DceKeepsRules }
{}

/// A tree that keeps the rules keeps them with constants put in for the values that its most precise facts know.
pub fn sccp_keeps_rules()
    ensures { SccpKeepsRules }
{}

/// A tree that keeps the rules keeps them with the branches decided that constants decide.
pub fn decided_keeps_rules()
    ensures { DecidedKeepsRules }
{}

/// A good tree is good with these branches decided, where its operations get different handles.
pub fn decided_stays_good()
    ensures { DecidedStaysGood }
{}

/// A good tree is good with these branches decided and each handle as it was.
pub fn decided_in_place_stays_good()
    ensures { DecidedInPlaceStaysGood }
{}

/// A tree that keeps the rules keeps them without the blocks that no path from the entry reaches.
pub fn cut_keeps_rules()
    ensures { CutKeepsRules }
{}

/// A good tree is good without these blocks.
pub fn cut_stays_good()
    ensures { CutStaysGood }
{}

/// A tree that keeps the rules keeps them under whatever other handles of operations.
pub fn renamed_keeps_rules()
    ensures { RenamedKeepsRules }
{}

/// A good tree is good where its operations get other, different handles.
pub fn renamed_stays_good()
    ensures { RenamedStaysGood }
{}

/// A good tree is good with its chains of blocks joined.
pub fn joined_stays_good()
    ensures { JoinedStaysGood }
{}

/// A tree that keeps the rules keeps them with its chains of blocks joined.
pub fn joined_keeps_rules()
    ensures { JoinedChainsKeepRules }
{}

/// A tree that keeps the rules keeps them with its control flow simplified: with the branches decided that constants
/// decide, without the blocks that no path from the entry reaches, and with its chains of blocks joined.
pub fn simplify_keeps_rules()
    ensures { SimplifiedKeepsRules }
{
    decided_in_place_stays_good();
    cut_stays_good();
    renamed_keeps_rules();
}

/// A good tree is good with its control flow simplified, where different operations get different handles.
pub fn simplify_stays_good()
    ensures { SimplifiedStaysGood }
{
    decided_in_place_stays_good();
    cut_stays_good();
    renamed_stays_good();
}
