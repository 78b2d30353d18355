//! Tests of rigs whose part counts differ from the bench's: one part of each kind, or no chain.
use crate::boards::{largest_board, long_chain_board, mixed_rom_board};
use crate::checks::expect_equal;
use mcs_board::Rig;
use mcs_cpu4004::{Bus, Cpu, Cycle};
use mcs_model::board::{Board, BoardFault};
use mcs_nibble::{Addr, Bit, Nibble};
use std::alloc::Global;
use std::process::Abort;

fn nibble(n: u8) -> Nibble {
    Nibble::low_of(n)
}

/// Builds a rig, wires a board to it, and runs a program for `cycles` cycles. Returns the rig and
/// the processor. `MAX` is the maximum length of a chain in bits.
fn run_program<const ROMS: usize, const BANKS: usize, const CHAINS: usize, const MAX: usize>(
    alloc: Global,
    rt: &impl Abort,
    board: Result<Board, BoardFault>,
    program: &[u8],
    cycles: u32,
) -> (Rig<ROMS, BANKS, CHAINS, MAX>, Cpu) {
    let board = board.expect(rt, "a board");
    let mut rig = Rig::<ROMS, BANKS, CHAINS, MAX>::new(alloc).expect(rt, "memory");
    assert!(rt; Rig::<ROMS, BANKS, CHAINS, MAX>::fits(&board));
    rig.wire(&board);
    let mut at = Addr::ZERO;
    for byte in program {
        rig.set_rom_byte(at, *byte);
        at = at.plus(1);
    }
    let mut cpu = Cpu::new();
    for _ in 0..cycles {
        assert!(rt; cpu.cycle(&mut rig) != Cycle::Outside);
    }
    (rig, cpu)
}

/// Checks lamp 0, which is at the end of a chain of 80 bits (`MAX`). At first, only bit 0 of the chain is 1. After 79
/// shifts this 1 is at the end, and the next shift drops it. The clock is line 0 of the selected ROM.
fn expect_bit_at_chain_end<
    const ROMS: usize,
    const BANKS: usize,
    const CHAINS: usize,
    const MAX: usize,
>(rt: &impl Abort, rig: &mut Rig<ROMS, BANKS, CHAINS, MAX>) {
    for _ in 0..79 {
        expect_equal(rt, rig.lamp(0), Some(Bit::ZERO));
        rig.rom_port(nibble(0));
        rig.rom_port(nibble(1));
    }
    expect_equal(rt, rig.lamp(0), Some(Bit::ONE));
    rig.rom_port(nibble(0));
    rig.rom_port(nibble(1));
    expect_equal(rt, rig.lamp(0), Some(Bit::ZERO));
}

/// Runs FIM P0 FF, SRC P0, LDM 9, WRM, FIM P0 00, SRC P0, LDM 3, WRR on a rig with one part of each
/// kind. The program writes the last main nibble of bank 0 and shifts the chain once.
#[test]
fn rig_with_one_part_of_each_kind(rt: HostRuntime) {
    let program = [0x20, 0xFF, 0x21, 0xD9, 0xE0, 0x20, 0x00, 0x21, 0xD3, 0xE2];
    let (mut rig, cpu) = run_program::<1, 1, 1, 80>(
        rt.alloc(),
        &rt,
        long_chain_board(),
        &program,
        10,
    );
    expect_equal(&rt, cpu.regs().pc.get(), 10);
    expect_equal(&rt, rig.ram(0, 0xFF), nibble(9));
    expect_equal(&rt, rig.ram(1, 0xFF), Nibble::ZERO);
    expect_equal(&rt, rig.chain_bit(0, 0), Bit::ONE);
    expect_bit_at_chain_end(&rt, &mut rig);
    let larger_board = largest_board().expect(&rt, "a board");
    assert!(rt; !Rig::<1, 1, 1, 80>::fits(&larger_board));
    let longer_board = long_chain_board().expect(&rt, "a board");
    assert!(rt; !Rig::<1, 1, 1, 79>::fits(&longer_board));
}

/// Runs LDM 15, WRR, RDR on a rig without chains, at a port `1i0i`. The latch stores lines 1 and 3.
/// RDR reads the constants that the mask sets for these lines.
#[test]
fn rig_without_chains(rt: HostRuntime) {
    let program = [0xDF, 0xE2, 0xEA];
    let (mut rig, cpu) = run_program::<1, 0, 0, 0>(rt.alloc(), &rt, mixed_rom_board(), &program, 3);
    expect_equal(&rt, cpu.regs().acc, nibble(8));
    expect_equal(&rt, rig.rom_latch(0), nibble(10));
    expect_equal(&rt, rig.read_port(nibble(0)), nibble(8));
    expect_equal(&rt, rig.read_port(nibble(1)), Nibble::ZERO);
    expect_equal(&rt, rig.chain_bit(0, 0), Bit::ZERO);
    rig.reset();
    expect_equal(&rt, rig.rom_latch(0), Nibble::ZERO);
    let longer_board = long_chain_board().expect(&rt, "a board");
    assert!(rt; !Rig::<1, 0, 0, 0>::fits(&longer_board));
}
