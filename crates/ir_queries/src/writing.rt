//! Writing unique names.
ghost use Rattle.std.specs.Prelude.{◌+◌, ◌++◌, OnOk, codes, decimal, option_map};
ghost use Rattle.std.specs.Fmt.{WritesInCalls};
ghost use Rattle.ir_names.specs.Identifier.{text_of};
ghost use Rattle.ir_queries.specs.Naming.{with_id};

use ir_names::Identifier;
use std::fmt;

/// Writes the unique name of a value with this number: a name that it was given, `_` and its id; its id alone where it was
/// given none.
pub(crate) fn write_value<W: fmt::Write>(
    f: &mut W,
    name: Option<&Identifier>,
    number: u64,
) -> fmt::Result
    ensures { OnOk result (WritesInCalls W.write_str_gives f.old
        (with_id (option_map (λ given. text_of given.now) name.entry) (codes "v" ++ decimal number)) f.new) }
{
    match name {
        Some(name) => write!(f, "{name}_v{number}"),
        None => write!(f, "v{number}"),
    }
}

/// The same of a block whose handle has this slot, which its name counts from 1, and this version.
pub(crate) fn write_block<W: fmt::Write>(
    f: &mut W,
    name: Option<&Identifier>,
    slot: usize,
    version: u64,
) -> fmt::Result
    ensures { OnOk result (WritesInCalls W.write_str_gives f.old
        (with_id (option_map (λ given. text_of given.now) name.entry)
        (codes "block" ++ decimal (slot + 1) ++ codes "v" ++ decimal version)) f.new) }
{
    // A slot may be any usize, and the one behind the last isn't.
    let number = slot as u128 + 1;
    match name {
        Some(name) => write!(f, "{name}_block{number}v{version}"),
        None => write!(f, "block{number}v{version}"),
    }
}
