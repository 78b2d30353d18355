//! Tests of subtraction. The expected values were worked out manually from the manual's rule for
//! SUB.
use crate::checks::expect_equal;
use mcs_nibble::{Bit, Nibble};
use std::test::Fail;

#[test]
fn differences_follow_the_manual(rt: HostRuntime) -> Result<(), Fail> {
    for (minuend, subtrahend, difference, carry) in [(3, 5, 14, 0), (5, 3, 2, 1)] {
        let minuend = Nibble::of(minuend).ok_or("a nibble")?;
        let subtrahend = Nibble::of(subtrahend).ok_or("a nibble")?;
        let (nibble, cy) = minuend.sub_borrow(subtrahend, Bit::ZERO);
        expect_equal(&rt, nibble.get(), difference);
        expect_equal(&rt, cy.get(), carry);
    }
    Ok(())
}
