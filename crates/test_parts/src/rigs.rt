//! Tests of a small rig (three ROMs, two chains of at most 40 bits): a ROM that the board lacks,
//! and keys. The expected values were worked out manually from the wiring rules.
use crate::boards::one_rom_board;
use crate::checks::expect_equal;
use mcs_board::Rig;
use mcs_cpu4004::Bus;
use mcs_fixtures::boards::example_board;
use mcs_model::board::{Board, BoardFault};
use mcs_nibble::{Addr, Bit, Nibble};
use std::alloc::Global;
use std::process::Abort;

type SmallRig = Rig<3, 8, 2, 40>;

fn wired_rig(alloc: Global, rt: &impl Abort, board: Result<Board, BoardFault>) -> SmallRig {
    let mut rig = SmallRig::new(alloc).expect(rt, "memory");
    wire(rt, &mut rig, board);
    rig
}

fn wire(rt: &impl Abort, rig: &mut SmallRig, board: Result<Board, BoardFault>) {
    let board = board.expect(rt, "a board");
    assert!(rt; SmallRig::fits(&board));
    rig.wire(&board);
}

fn nibble(n: u8) -> Nibble {
    Nibble::low_of(n)
}

fn address(at: u16) -> Addr {
    Addr::ZERO.plus(at)
}

/// Checks that the first four lamps have the wanted values; `None` means that there is no lamp.
fn expect_lamps(rt: &impl Abort, rig: &SmallRig, wanted: [Option<Bit>; 4]) {
    let lamps = [rig.lamp(0), rig.lamp(1), rig.lamp(2), rig.lamp(3)];
    expect_equal(rt, lamps, wanted);
}

#[test]
fn absent_rom_reads_0_and_stores_nothing(rt: HostRuntime) {
    let mut rig = wired_rig(rt.alloc(), &rt, one_rom_board());
    expect_equal(&rt, rig.fetch(address(0x100)), 0);
    rig.set_rom_byte(address(0x100), 0xD5);
    expect_equal(&rt, rig.fetch(address(0x100)), 0);
    rig.set_rom_byte(address(0x0FF), 0xD5);
    expect_equal(&rt, rig.fetch(address(0x0FF)), 0xD5);
}

/// Checks that a port read returns the keys pressed on driven rows. Two 1 bits shifted into the
/// chain drive rows 0 and 1. The keys at (0, 1) and (1, 2) pull lines 1 and 2 of ROM 1.
#[test]
fn keys_of_driven_rows_are_read(rt: HostRuntime) {
    let mut rig = wired_rig(rt.alloc(), &rt, example_board());
    assert!(rt; rig.board().has_key(0, 1));
    rig.press(0, 1);
    assert!(rt; rig.board().has_key(1, 2));
    rig.press(1, 2);
    for n in [3, 2, 3] {
        rig.rom_port(nibble(n));
    }
    expect_lamps(
        &rt,
        &rig,
        [Some(Bit::ONE), Some(Bit::ONE), Some(Bit::ZERO), None],
    );
    rig.src(0, 0x10);
    expect_equal(&rt, rig.port_read(), nibble(6));
    assert!(rt; rig.board().has_key(1, 2));
    rig.release(1, 2);
    expect_equal(&rt, rig.port_read(), nibble(2));
    rig.src(0, 0x20);
    expect_equal(&rt, rig.port_read(), Nibble::ZERO);
}
