//! Attributes that are printed behind the text.
ghost use Rattle.std.specs.Prelude.{IsOk};
ghost use Rattle.ir_names.specs.declared.interfaces.AttrInterface.TheVariants as interface;

use ir_context::Context;
use ir_names::AttrInterface;
use ir_queries::AttrInterfaceMarker;
use ir_types::DialectTables;
use std::convert::Infallible;

/// The attribute is printed behind the text.
pub struct OutlinedAttr;

impl AttrInterfaceMarker for OutlinedAttr {
    ghost INTERFACE = { interface.OutlinedAttr };

    const INTERFACE: AttrInterface = AttrInterface::OutlinedAttr;
}

impl OutlinedAttr {
    /// Each attribute is accepted.
    pub fn verify<D: DialectTables>(_attr: &D::Attr, _ctx: &Context<D>) -> Result<(), Infallible>
        ensures { IsOk result }
    {
        Ok(())
    }
}

/// The attribute is printed once, behind the text, and then named by its number.
pub struct PrintOnceAttr;

impl AttrInterfaceMarker for PrintOnceAttr {
    ghost INTERFACE = { interface.PrintOnceAttr };

    const INTERFACE: AttrInterface = AttrInterface::PrintOnceAttr;
}

impl PrintOnceAttr {
    /// Each attribute is accepted.
    pub fn verify<D: DialectTables>(_attr: &D::Attr, _ctx: &Context<D>) -> Result<(), Infallible>
        ensures { IsOk result }
    {
        Ok(())
    }
}
