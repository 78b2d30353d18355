//! A function that compares two values. The proofs of the tests take less time with a single
//! `assert_eq!` here than with an `assert_eq!` at each call. Each test crate has its own copy of
//! this function, because a library must not end the program.
use std::fmt::Debug;
use std::process::Abort;

/// Checks that the value `found` equals the expected value `wanted`.
pub(crate) fn expect_equal<T: Copy + Debug + PartialEq>(rt: &impl Abort, found: T, wanted: T) {
    assert_eq!(rt; found, wanted);
}
