//! Where an operation stands in a tree.
use std::fmt;

/// The way from the root down to an operation: the numbers, each from 0, of a region, of a block
/// in it, of an operation in that, and so on. Displayed joined by `.`, the root as `root`.
#[derive(Debug, PartialEq, Eq, Drop)]
pub struct Place {
    pub children: Vec<usize>,
}

impl fmt::Display for Place {
    fn fmt<W: fmt::Write>(&self, f: &mut fmt::Formatter<W>) -> fmt::Result {
        if self.children.is_empty() {
            return f.write_str("root");
        }
        for (index, child) in self.children.iter().enumerate() {
            if index > 0 {
                f.write_str(".")?;
            }
            write!(f, "{child}")?;
        }
        Ok(())
    }
}
