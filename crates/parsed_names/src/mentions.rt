//! Mentions of names.
ghost use Rattle.ir_names.specs.Identifier.{text_of};
ghost use Rattle.parsed_names.specs.Mentions.{Mentions};

use crate::names::{Known, NameScope};
use ir_names::{GrowError, Identifier};

/// What a name stands for where it is mentioned: its value, or what stands in for that. Where the name is mentioned first, the function makes
/// what stands in, in a context, and the name awaits its definition.
///
/// # Errors
/// The error of making it; or `Memory`, and what was made is then in the context, with no name. The names are as they were.
pub fn mention<V: Copy, C, F: FnOnce(&mut C) -> Result<V, GrowError>>(
    ctx: &mut C,
    names: &mut NameScope<V>,
    name: Identifier,
    make: F,
) -> Result<V, GrowError>
    requires { F.IsAlwaysCallable make }
    ensures { Mentions F.FnOnce make (text_of name) names.old names.new ctx.old ctx.new result }
{
    match names.get(name.as_str()) {
        Some(Known::Defined(value)) | Some(Known::Awaited(value)) => Ok(value),
        None => {
            let stand_in = make(ctx)?;
            names.await_definition(name, stand_in)?;
            Ok(stand_in)
        }
    }
}
