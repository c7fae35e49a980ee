//! Sizes of segments, by themselves.
ghost use Rattle.std.specs.Prelude.{◌≡◌, ◌↔◌, ◌≤◌, Some, IfSome, IsTrue, sum};
ghost use Rattle.builtin_ifaces.specs.Segments.{IsSegmentAt};

use std::ops::Range;

/// Whether the sizes add up to a total.
pub(crate) fn add_up(sizes: &[u32], total: usize) -> bool
    ensures { IsTrue result ↔ (sum sizes.now ≡ total) }
{
    let mut left = total;
    for size in sizes {
        let size = *size as usize;
        if size > left {
            return false;
        }
        left -= size;
    }
    left == 0
}

/// Where the segment with a number begins and ends; none where there are not so many. The sizes add up to the total.
pub(crate) fn segment_at(sizes: &[u32], s: usize, total: usize) -> Option<Range<usize>>
    requires { sum sizes.now ≡ total }
    ensures found { IfSome result (λ range. IsSegmentAt sizes.now s range.start range.end) }
    ensures only { (start end : _) → IsSegmentAt sizes.now s start end
        → result ≡ Some (record { start = start; end = end }) }
    ensures order { IfSome result (λ range. range.start ≤ range.end) }
    ensures within { IfSome result (λ range. range.end ≤ total) }
{
    let mut start: usize = 0;
    for i in 0..sizes.len() {
        let end = start + sizes[i] as usize;
        if i == s {
            return Some(start..end);
        }
        start = end;
    }
    None
}
