//! Ranges of indices, of which the last may be counted from the end.
ghost use Rattle.std.specs.Prelude.{◌≡◌, ◌<◌};
ghost use Rattle.op_ifaces.specs.declared.ranges.IndexRange.TheVariants.{Range};
ghost use Rattle.op_ifaces.specs.Ranges.{index_range};

/// The indices that a range of an interface names in a row.
#[derive(Clone, Copy, Debug, PartialEq, Eq)]
pub enum IndexRange {
    /// From the first to the last, both in the range.
    Range {
        /// The first index.
        start: usize,
        /// The last index, which is in the range too.
        end: usize,
    },
    /// The last one isn't there.
    NotEnough,
    /// None.
    Empty,
}

/// The indices from `m` to `n` in a row of this length, where a negative `n` counts from the end: -1 is the last one.
pub fn resolve_index_range(m: u32, n: i32, len: usize) -> IndexRange
    ensures exact { result ≡ index_range m n len }
    ensures within { (start end : _) → result ≡ Range start end → end < len }
{
    let start = m as usize;
    let end = if n >= 0 {
        let end = n as usize;
        if end >= len {
            return IndexRange::NotEnough;
        }
        end
    } else {
        let back = n.unsigned_abs() as usize;
        if back > len {
            return IndexRange::Empty;
        }
        len - back
    };
    if end < start {
        return IndexRange::Empty;
    }
    IndexRange::Range { start, end }
}
