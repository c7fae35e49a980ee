//! Laws of what becomes of handles: each function here has no code, and its contract is a law over the definitions in
//! specs/.
ghost use Rattle.opt_handles.specs.Handles.{HandlesCompose, NewHandlesAreFresh};

/// An entity that is there after a pass and wasn't before has a handle that was never given out before: it led nowhere,
/// and was no handle of something erased.
pub fn new_handles_are_fresh<O, B>()
    ensures { NewHandlesAreFresh O B }
{}

/// Where handles are kept by one pass and by the next one, they are kept by both together.
pub fn handles_compose<O, B>()
    ensures { HandlesCompose O B }
{}
