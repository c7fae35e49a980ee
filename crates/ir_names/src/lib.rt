//! Names, handles and the closed types of a dialect: the words that every layer above speaks.
#![tactic(auto)]

mod dialects;
mod dictionary;
mod identifier;
mod interfaces;
mod kinds;
mod lazy_map;
mod legaliser;
mod names;
mod place;

pub use dialects::Dialects;
pub use dictionary::{AttributeDict, Attributes};
pub use identifier::{Identifier, IdentifierError, InvalidIdentifier, ident};
pub use interfaces::{AttrInterface, OpInterface, RegionKind, TypeInterface, TypeTest};
pub use ir_base::{GrowError, TypeHandle};
pub use kinds::Signedness;
pub use legaliser::Legaliser;
pub use names::{AttrId, AttrName, DialectName, OpId, OpName, TypeId, TypeName};
pub use place::Place;
