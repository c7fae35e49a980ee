//! The function that a path of names leads to.
ghost use Rattle.std.specs.Prelude.{◌≡◌, IsSome, IfSome, option_map};
ghost use Rattle.ir_names.specs.Identifier.{text_of};
ghost use Rattle.ir_program.specs.Program.{operation_at};
ghost use Rattle.kit_places.specs.Store.{function_named};
ghost use Rattle.kit_places.specs.Placed.{IsPlaceOfFunction, IsLocated, place_of};

use crate::reading::{find_function, find_module};
use ir_context::Context;
use ir_names::Identifier;
use ir_program::{Operation, Ptr};
use kit::Kit;

/// A function, and the module that it is in, which is the nearest one that encloses the operations of its blocks.
#[derive(Clone, Copy)]
pub struct Place {
    pub within: Ptr<Operation>,
    pub function: Ptr<Operation>,
}

/// The function of a name in a module, with the module.
fn place_in(ctx: &Context<Kit>, within: Ptr<Operation>, name: &Identifier) -> Option<Place>
    requires { IsSome (operation_at ctx.now.program within) }
    ensures found { result ≡ option_map (λ f. record { within = within; function = f })
        (function_named ctx.now.program within (text_of name.now)) }
    ensures place { IfSome result (IsPlaceOfFunction ctx.now.program (text_of name.now)) }
{
    match find_function(ctx, within, name.as_str()) {
        Some(function) => Some(Place { within, function }),
        None => None,
    }
}

/// Where a path of names leads from a module.
pub fn find_place(ctx: &Context<Kit>, root: Ptr<Operation>, path: &[Identifier]) -> Option<Place>
    requires { IsSome (operation_at ctx.now.program root) }
    ensures place { result ≡ place_of ctx.now root path.now }
    ensures located { IfSome result (IsLocated ctx.now.program path.now) }
{
    let mut outer = root;
    for i in 0..path.len() {
        if i + 1 == path.len() {
            return place_in(ctx, outer, &path[i]);
        }
        match find_module(ctx, outer, path[i].as_str()) {
            Some(inner) => outer = inner,
            None => return None,
        }
    }
    None
}
