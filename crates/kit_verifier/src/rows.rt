//! The rules on single operations and the table of kinds.
ghost use Rattle.kit_verifier.specs.Rows.{FormatsAreRows, OwnKeysAreRows};

/// The rules and the table of kinds say the same of a kind: an operation that fits its kind's format has as many
/// results, operands, successors and regions as the kind's row says, and the keys that are the kind's own are the row's.
///
/// It has no code: its contract is the law.
pub fn formats_are_rows<O, B>()
    ensures formats { FormatsAreRows O B }
    ensures keys { OwnKeysAreRows }
{}
