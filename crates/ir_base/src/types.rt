//! Types by number.
ghost use Rattle.std.specs.Prelude.{◌≡◌};

/// A type of a context, by its number there.
#[derive(Clone, Copy, Debug, PartialEq, Eq, Hash)]
pub struct TypeHandle {
    number: usize,
}

impl TypeHandle {
    /// The handle with this number. The context that interns types makes handles.
    pub fn new(number: usize) -> TypeHandle
        ensures { result ≡ record { number = number } }
    {
        TypeHandle { number }
    }

    /// Its number.
    pub fn number(self) -> usize
        ensures { result ≡ self.number }
    {
        self.number
    }
}
