//! Attributes under names by what they implement.
ghost use Rattle.std.specs.Prelude.{◌≡◌, ◌↔◌, ℕ, true, false, List, None, Some, IfOk, OnOk, IfErr, IsErr, option_copied};
ghost use Rattle.ir_names.specs.Dictionary.{contains_name, AddsCopy, AreCopies};
ghost use Rattle.ir_names.specs.declared.interfaces.AttrInterface.TheVariants.{OutlinedAttr};
ghost use Rattle.ir_names.specs.Text.{is_identifier};
ghost use Rattle.ir_queries.specs.Lookups.{passing_at, entries_failing};

use crate::{AttrInterfaceMarker, attr_impls, attr_should_outline};
use ir_context::AttrInterfaceCastErr;
use ir_names::{AttributeDict, Identifier};
use ir_types::DialectTables;
use std::alloc::{AllocError, Global};

/// Looking attributes up by what they implement.
pub trait AttributeLookups<D: DialectTables> {
    /// The names with their attributes, in order.
    ghost entries: { Self → List (List ℕ × D.Attr) };

    /// The attribute under a name, if one stands there and implements the interface that `I` stands for.
    fn get_as<I: AttrInterfaceMarker>(&self, key: &str) -> Option<&D::Attr>
        ensures { option_copied result ≡ passing_at (λ attr. D.attr_has attr I.INTERFACE) (entries self.now) key.now };

    /// The attribute under a name, which implements the interface that `I` stands for.
    ///
    /// # Errors
    /// Refused exactly where no attribute stands under the name, or the one that does doesn't implement the interface.
    fn try_get_as<I: AttrInterfaceMarker>(
        &self,
        key: &str,
    ) -> Result<&D::Attr, AttrInterfaceCastErr>
        ensures found { IfOk result (λ attr. passing_at (λ attr. D.attr_has attr I.INTERFACE)
            (entries self.now) key.now ≡ Some attr.now) }
        ensures refused { IsErr result ↔ (passing_at (λ attr. D.attr_has attr I.INTERFACE) (entries self.now) key.now
            ≡ None) }
        ensures interface { IfErr result (λ e. e.interface ≡ I.INTERFACE) };

    /// A dictionary of the attributes that are not printed behind the text, in the same order: under each name an attribute
    /// that equals this one's.
    ///
    /// # Errors
    /// Refused only where there is no memory for it, or for a copy of an attribute.
    fn clone_skip_outlined(&self, alloc: Global) -> Result<AttributeDict<D>, AllocError>
        ensures { IfOk result (AreCopies D.Attr.eq
            (entries_failing (λ attr. D.attr_has attr OutlinedAttr) (entries self.now))) };
}

impl<D: DialectTables> AttributeLookups<D> for AttributeDict<D> {
    ghost entries = { λ d. d };

    fn get_as<I: AttrInterfaceMarker>(&self, key: &str) -> Option<&D::Attr> {
        let attr = self.get(key)?;
        if attr_impls::<D, I>(attr) {
            return Some(attr);
        }
        None
    }

    fn try_get_as<I: AttrInterfaceMarker>(
        &self,
        key: &str,
    ) -> Result<&D::Attr, AttrInterfaceCastErr> {
        match self.get_as::<I>(key) {
            Some(attr) => Ok(attr),
            None => Err(AttrInterfaceCastErr {
                interface: I::INTERFACE,
            }),
        }
    }

    fn clone_skip_outlined(&self, alloc: Global) -> Result<AttributeDict<D>, AllocError> {
        self.know_distinct();
        self.know_identifiers();
        let mut copy = AttributeDict::new(alloc);
        for (name, attr) in self.iter() {
            if !attr_should_outline::<D>(attr) {
                add_copy(&mut copy, alloc, name, attr)?;
            }
        }
        Ok(copy)
    }
}

/// Puts a copy of an attribute under a new name.
fn add_copy<D: DialectTables>(
    copies: &mut AttributeDict<D>,
    alloc: Global,
    name: &str,
    attr: &D::Attr,
) -> Result<(), AllocError>
    requires identifier { is_identifier name.now ≡ true }
    requires new { contains_name copies.old name.now ≡ false }
    ensures { OnOk result (AddsCopy D.Attr.eq copies.old copies.new (name.now, attr.now)) }
{
    let attr = D::clone_attr(alloc, attr)?;
    copies.set(Identifier::new(alloc, name)?, attr)?;
    Ok(())
}
