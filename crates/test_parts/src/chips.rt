//! Tests of a single ROM. The expected values of its port were worked out manually.
use crate::checks::expect_equal;
use mcs_fixtures::boards::MIXED;
use mcs_nibble::Nibble;
use mcs_rom4001::Rom;
use std::test::Fail;

/// Checks a ROM whose port lines 0 and 2 are inputs. Line 1 is an output that reads as 0, and line
/// 3 is an output that reads as 1.
#[test]
fn port_of_mixed_lines(rt: HostRuntime) -> Result<(), Fail> {
    let mut rom = Rom::new(MIXED);
    for (inputs, read) in [(5, 13), (0, 8)] {
        let inputs = Nibble::of(inputs).ok_or("a nibble")?;
        expect_equal(&rt, rom.read_port(inputs).get(), read);
    }
    rom.write_port(Nibble::MAX);
    expect_equal(&rt, rom.port().get(), 10);
    rom.set_byte(0x80, 0xA5);
    expect_equal(&rt, [rom.byte(0x80), rom.byte(0x81)], [0xA5, 0]);
    rom.clear_port();
    rom.set_port(Nibble::MAX);
    for (k, bit) in [(0, 0), (1, 1), (2, 0), (3, 1)] {
        expect_equal(&rt, rom.line(k).get(), bit);
    }
    Ok(())
}
