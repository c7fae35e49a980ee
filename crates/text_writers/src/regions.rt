//! Regions, down to a limit of depth.
ghost use Rattle.std.specs.Prelude.{◌≡◌};
ghost use Rattle.text_writers.specs.Regions.{PrintsRegion};

use crate::printable::Printable;
use crate::state::State;
use crate::writer::TextWriter;
use std::alloc::AllocError;

/// A region, of which no more than `{..}` is printed where the limit of depth is reached.
#[derive(Drop)]
pub struct InRegion<P> {
    inner: P,
}

/// A region, of which no more than `{..}` is printed where the limit of depth is reached.
pub fn in_region<P>(inner: P) -> InRegion<P>
    ensures { result ≡ record { inner = inner } }
{
    InRegion { inner }
}

impl<C, W: TextWriter, P: Printable<C, W>> Printable<C, W> for InRegion<P> {
    ghost can_print = { λ it. P.can_print it.inner };

    ghost prints = { λ it context state. PrintsRegion (P.prints it.inner context) state };

    fn fmt(&self, context: &C, state: &mut State, out: &mut W) -> Result<(), AllocError> {
        if state.elides_regions() {
            return out.write_text("{..}");
        }
        let guard = state.enter_region();
        self.inner.fmt(context, guard.state, out)
    }
}
