//! Keys of saved values.

/// A value that a context keeps once, by its number there. Only the context that saves makes keys.
#[derive(Clone, Copy, Debug, PartialEq, Eq, Hash)]
pub struct SavedKey {
    pub(crate) number: usize,
}
