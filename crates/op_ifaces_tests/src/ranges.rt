//! Which indices ranges name.
use op_ifaces::{IndexRange, resolve_index_range};
use std::test::Fail;

#[test]
fn ranges_name_their_members(rt: HostRuntime) -> Result<(), Fail> {
    assert_eq!(rt;
        resolve_index_range(0, -2, 3),
        IndexRange::Range { start: 0, end: 1 }
    );
    assert_eq!(rt; resolve_index_range(0, 3, 3), IndexRange::NotEnough);
    assert_eq!(rt; resolve_index_range(0, 0, 0), IndexRange::NotEnough);
    assert_eq!(rt; resolve_index_range(2, -2, 3), IndexRange::Empty);
    assert_eq!(rt; resolve_index_range(0, -4, 3), IndexRange::Empty);
    assert_eq!(rt; resolve_index_range(3, 2, 3), IndexRange::Empty);
    Ok(())
}
