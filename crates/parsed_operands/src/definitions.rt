//! Definitions of names.
ghost use Rattle.std.specs.Prelude.{◌≡◌, ◌↔◌, true, Err, OnOk, OnErr};
ghost use Rattle.ir_names.specs.Identifier.{text_of};
ghost use Rattle.parsed_names.specs.declared.names.DefineError.TheVariants.{MultipleDefinitions};
ghost use Rattle.parsed_names.specs.declared.names.Known.TheVariants.{Defined};
ghost use Rattle.parsed_names.specs.Names.{known_of, knowing, stand_in, is_defined};
ghost use Rattle.parsed_operands.specs.Definitions.{Settles};

use ir_names::Identifier;
use parsed_names::{DefineError, NameScope};

/// Defines a name for a value. Where something stood in for the value, the function puts the value in its place, in a context.
///
/// # Errors
/// `MultipleDefinitions` where the name is defined already, else `Memory`. Nothing is changed then.
pub fn define_name<V: Copy, C, F: FnOnce(&mut C, V)>(
    ctx: &mut C,
    names: &mut NameScope<V>,
    name: Identifier,
    value: V,
    resolve: F,
) -> Result<(), DefineError>
    requires { F.IsAlwaysCallable resolve }
    ensures defined { OnOk result (names.new ≡ knowing names.old (text_of name) (Defined value)) }
    ensures settled { OnOk result (Settles F.FnOnce resolve (stand_in (known_of names.old (text_of name))) ctx.old ctx.new) }
    ensures twice { (result ≡ Err MultipleDefinitions) ↔ (is_defined (known_of names.old (text_of name)) ≡ true) }
    ensures err { OnErr result (names.new ≡ names.old) }
    ensures err_context { OnErr result (ctx.new ≡ ctx.old) }
{
    match names.define(name, value) {
        Ok(Some(stand_in)) => {
            resolve(ctx, stand_in);
            Ok(())
        }
        Ok(None) => Ok(()),
        Err(error) => Err(error),
    }
}
