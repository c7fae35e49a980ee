//! The passes by their names.

/// An optimisation of modules of `kit`.
#[derive(Clone, Copy, Debug, PartialEq, Eq)]
pub enum KitPass {
    /// Constants are put in for the values that are known to be constants.
    Sccp,
    /// What is dead is taken out.
    Dce,
    /// Branches are decided, blocks that nothing reaches go, and chains of blocks are joined.
    SimplifyCfg,
}
