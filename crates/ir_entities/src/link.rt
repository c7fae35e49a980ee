//! The number of a node or of a list, or none, in the space of one number.

ghost use Rattle.std.specs.Prelude.{◌≡◌, ◌+◌, ◌^◌, ◌<◌, Some};

use std::marker::Model;

/// The number of a node or of a list, or none. An `Option<usize>` takes twice the space, so none is 0 here, and the
/// number `n` is kept as `n + 1`.
#[derive(Clone, Copy)]
pub struct Link {
    code: usize,
}

impl Model for Link {
    ghost use Rattle.std.specs.Prelude.{ℕ, Option};

    ghost Value = { Option ℕ };

    ghost use Rattle.ir_entities.specs.Link.{linked, code_of, code_of_linked};

    ghost view = { λ l. linked l.code };

    ghost inverse = { λ o. record { code = code_of o } };

    ghost inverse_ok = { λ l _ i. record { code = code_of_linked l.code i } };
}

impl Link {
    /// Leads nowhere.
    pub const NONE: Link = Link { code: 0 };

    /// Leads to the node or the list with this number.
    pub fn to(number: usize) -> Link
        requires { number + 1 < 2 ^ 64 }
        ensures { result ≡ Some number }
    {
        Link { code: number + 1 }
    }

    /// The number that it leads to, if there is one.
    pub fn get(self) -> Option<usize>
        ensures { result ≡ self }
    {
        self.code.checked_sub(1)
    }
}
