//! What edges below an operation say of the edges under it.
ghost use Rattle.std.specs.Prelude.{◌↔◌};
ghost use Rattle.opt_inside.specs.Edges.{FitsEdgesBelow, HasLocalEdgesBelow};
ghost use Rattle.opt_inside.specs.declared.reach.starts.Start.TheVariants as start;
ghost use Rattle.opt_inside.specs.reach.Edges.{FitsEdgesFrom, HasLocalEdgesFrom};

use ir_program::{Operation, Program, Ptr};
use opt_dialect::Meanings;

/// Tells that edges stay in their region below an operation, or fit there, exactly where they do so under the place where
/// looking begins at the operation. It does nothing.
pub fn know_edges_under<D: Meanings>(program: &Program<D::Operation, D::Block>, _op: Ptr<Operation>)
    ensures local { HasLocalEdgesBelow D.meaning.is_terminator program.now _op
        ↔ HasLocalEdgesFrom D.meaning.is_terminator program.now (start.Operation _op) }
    ensures fits { FitsEdgesBelow D.meaning program.now _op
        ↔ FitsEdgesFrom D.meaning program.now (start.Operation _op) }
{
    program.know_lists();
}
