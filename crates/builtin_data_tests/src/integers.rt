//! The numbers that integers are printed as.
use builtin_data::{IntegerAttr, IntegerType};
use ir_names::{Signedness, TypeHandle};
use std::process::Abort;

/// Asserts that the bits are of the type, and printed as this number.
fn check(rt: &impl Abort, width: u32, signedness: Signedness, bits: u64, wanted: i128) {
    let integer = IntegerType::new(width, signedness);
    if integer.has_bits(bits) {
        let attr = IntegerAttr::new(TypeHandle::new(0), integer, bits);
        assert!(rt; attr.as_signed() == wanted);
    } else {
        assert!(rt; false);
    }
}

#[test]
fn integers_are_printed_by_their_types(rt: HostRuntime) {
    check(&rt, 64, Signedness::Signless, 18446744073709551615, -1);
    check(&rt, 1, Signedness::Signless, 1, 1);
    check(&rt, 1, Signedness::Signed, 1, -1);
    check(&rt, 8, Signedness::Unsigned, 200, 200);
    check(&rt, 8, Signedness::Signless, 128, -128);
    check(&rt, 8, Signedness::Signed, 127, 127);
}

#[test]
fn bits_above_the_width_are_refused(rt: HostRuntime) {
    assert!(rt; !IntegerType::new(8, Signedness::Signless).has_bits(256));
    assert!(rt; !IntegerType::new(0, Signedness::Signless).has_bits(0));
    assert!(rt; !IntegerType::new(65, Signedness::Signless).has_bits(0));
}
