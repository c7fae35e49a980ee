//! What texts come from.
ghost use Rattle.std.specs.Prelude.{◌≡◌, IfOk, true};

use std::alloc::AllocError;

/// A source of texts: a text in memory, or one with a name, as a file.
#[derive(Debug, PartialEq, Eq, Hash, Drop)]
pub enum Source {
    /// A text that was handed over, without a name.
    InMemory,
    /// A text with a name, as the path of a file.
    File(String),
}

impl Source {
    /// A source that equals this one.
    pub fn try_clone(&self) -> Result<Source, AllocError>
        ensures { IfOk result (λ copy. ⟦<Source as PartialEq>⟧.eq copy self.now ≡ true) }
    {
        match self {
            Source::InMemory => Ok(Source::InMemory),
            Source::File(text) => {
                let text = text.clone()?;
                Ok(Source::File(text))
            }
        }
    }
}
