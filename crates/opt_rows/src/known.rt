//! What is known of a value.
ghost use Rattle.std.specs.Prelude.{◌≡◌, true, MatchOption};
ghost use Rattle.opt_rows.specs.Known.{AtOrBelow, answer};
ghost use Rattle.opt_rows.specs.KnownFalls.{FallsBelow};

/// What is known of a value before a program runs. It is Wegman and Zadeck's lattice, top to bottom: undetermined
/// ("top"), one constant, any value ("bottom").
#[derive(Clone, Copy)]
pub enum Known<A> {
    /// Nothing has been found out of it yet.
    Undetermined,
    /// It is this constant whenever it is there.
    One(A),
    /// It may be any value.
    Any,
}

/// What an answer says of a result.
pub fn of_answer<A: Copy>(fold: Option<A>) -> Known<A>
    ensures { result ≡ answer fold }
{
    match fold {
        None => Known::Any,
        Some(constant) => Known::One(constant),
    }
}

/// What is known of a value from now on that was known as `old` and of which `fact` holds too, if that says less: the
/// meet of the two.
pub fn fall<A: Copy + Eq>(old: Known<A>, fact: Known<A>) -> Option<Known<A>>
    requires { (x y : A) → A.eq x y ≡ true → x ≡ y }
    ensures { MatchOption result (AtOrBelow old fact) (FallsBelow old fact) }
{
    match old {
        Known::Undetermined => match fact {
            Known::Undetermined => None,
            Known::One(constant) => Some(Known::One(constant)),
            Known::Any => Some(Known::Any),
        },
        Known::One(first) => match fact {
            Known::Undetermined => None,
            Known::One(second) => {
                if first == second {
                    None
                } else {
                    Some(Known::Any)
                }
            }
            Known::Any => Some(Known::Any),
        },
        Known::Any => None,
    }
}
