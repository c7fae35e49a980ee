//! Laws of modules of two contexts.
ghost use Rattle.kit_text_programs.specs.SameLaws.{KitIsMeant, ListsOfPassesCut, OneTextSaysTheSame, PassesKeepSame};
ghost use Rattle.kit_text_programs.specs.SameLaws.{TheSameSayOneText, TypesAreNumbered};

/// Of trees that say the same a list of passes makes trees that say the same. A list of passes on a tree is its
/// beginning and then its rest. What the optimisations ask of an operation or a block is in what it says.
pub fn passes_keep_same()
    ensures same { PassesKeepSame }
    ensures cut { ListsOfPassesCut }
    ensures meant { KitIsMeant }
{}

/// What stands in two contexts for one text, but for labels, says the same; what says the same stands for one text but
/// for labels, where the texts are closed and number definitions in their order, and different types have different
/// numbers.
pub fn texts_say_the_same()
    ensures same { OneTextSaysTheSame }
    ensures one { TheSameSayOneText }
{}

/// The types of closed texts can be numbered apart, and with them the handles of two contexts with the same types, in
/// which operations stand for two of the texts.
pub fn types_are_numbered()
    ensures { TypesAreNumbered }
{}
