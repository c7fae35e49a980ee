//! What tests assert.
use std::fmt::Debug;
use std::process::Abort;

/// Asserts that two values are the same. It stands in a function of its own, so that it is proved once what that takes.
pub fn same<T: Debug + PartialEq + Drop>(rt: &impl Abort, left: T, right: T) {
    assert_eq!(rt; left, right);
}
