//! What values are printed as: into a writer, with an indentation and a limit of depth.
#![tactic(auto)]

mod displays;
mod functions;
pub mod laws;
mod lines;
mod lists;
mod printable;
mod quotes;
mod regions;
mod separators;
mod state;
mod writer;

pub use displays::{Displayable, disp};
pub use functions::{PrinterFn, printable_from_fn};
pub use lines::{IndentedNewliner, fmt_indented_newline, indented_nl};
pub use lists::{
    IterWithSep, IterWithSepBy, ListWithSep, fmt_iter, iter_with_sep, iter_with_sep_by,
    list_with_sep,
};
pub use printable::{EnclosedText, Printable, enclosed};
pub use quotes::{QuotedText, quoted};
pub use regions::{InRegion, in_region};
pub use separators::ListSeparator;
pub use state::{IndentGuard, RegionDepthGuard, RegionPrintDepthLimit, State};
pub use writer::TextWriter;
