//! Tests of the processor on a bus with a program memory. The expected results of the cycles were
//! worked out manually from the instruction descriptions in Intel's manual.
ghost use Rattle.std.specs.Prelude.{◌≡◌, ℕ, ◌<◌};
ghost use Rattle.mcs_model.specs.Bus.{BusState, zero_bus};

use crate::checks::expect_equal;
use mcs_cpu4004::{Bus, Cpu, Cycle, Regs};
use mcs_nibble::{Addr, Bit, Nibble, RegNo};

/// A bus that has only a program memory, an SRC byte and a TEST pin.
#[derive(Drop)]
struct Memory {
    rom: [u8; 4096],
    src: u8,
    test: Bit,
}

impl Bus for Memory {
    ghost flat = { λ m. record zero_bus { rom = m.rom; rom_src = m.src; test = m.test } };

    #[tactic(auto, unfolding(mcs_model::specs::Bus::fetch_of))]
    fn fetch(&self, at: Addr) -> u8 {
        self.rom[usize::from(at.get())]
    }

    #[tactic(auto, unfolding(mcs_model::specs::Bus::after_src, mcs_model::specs::Bus::zero_bus))]
    fn src(&mut self, _bank: u8, byte: u8) {
        self.src = byte;
    }

    #[tactic(auto, unfolding(mcs_model::specs::Bus::ram_of, mcs_model::specs::Bus::zero_bus))]
    fn ram_read(&self, _bank: u8) -> Nibble {
        Nibble::ZERO
    }

    #[tactic(auto, unfolding(mcs_model::specs::Bus::after_ram, mcs_model::specs::Bus::with_ram, mcs_model::specs::Bus::zero_bus))]
    fn ram_write(&mut self, _bank: u8, _n: Nibble) {}

    #[tactic(auto, unfolding(mcs_model::specs::Bus::status_of, mcs_model::specs::Bus::zero_bus))]
    fn status_read(&self, _bank: u8, _k: u8) -> Nibble {
        Nibble::ZERO
    }

    #[tactic(auto, unfolding(mcs_model::specs::Bus::after_status, mcs_model::specs::Bus::with_status, mcs_model::specs::Bus::zero_bus))]
    fn status_write(&mut self, _bank: u8, _k: u8, _n: Nibble) {}

    #[tactic(auto, unfolding(mcs_model::specs::Levels::after_ram_port, mcs_model::specs::Bus::zero_bus))]
    fn ram_port(&mut self, _bank: u8, _n: Nibble) {}

    #[tactic(auto, unfolding(mcs_model::specs::Levels::after_rom_port, mcs_model::specs::Bus::zero_bus))]
    fn rom_port(&mut self, _n: Nibble) {}

    #[tactic(auto, unfolding(mcs_model::specs::Levels::port_at, mcs_model::specs::Bus::zero_bus))]
    fn port_read(&self) -> Nibble {
        Nibble::ZERO
    }

    fn test(&self) -> Bit {
        self.test
    }
}

fn address(at: u16) -> Addr {
    Addr::ZERO.plus(at)
}

fn nibble(n: u8) -> Nibble {
    Nibble::low_of(n)
}

/// Returns a bus whose memory has the given bytes, and 0 at all other addresses. TEST is 1.
fn memory_with(bytes: &[(u16, u8)]) -> Memory {
    let mut rom = [0; 4096];
    for (at, byte) in bytes {
        rom[usize::from(address(*at).get())] = *byte;
    }
    Memory {
        rom,
        src: 0,
        test: Bit::ONE,
    }
}

/// Returns the 16 index registers whose eight pairs contain the given bytes. The even register of a
/// pair contains the high nibble.
fn index_registers(bytes: [u8; 8]) -> [Nibble; 16] {
    let mut r = [Nibble::ZERO; 16];
    for i in 0..8 {
        r[2 * i] = Nibble::high_of(bytes[i]);
        r[2 * i + 1] = Nibble::low_of(bytes[i]);
    }
    r
}

/// Runs `cycles` cycles from the address `pc`, and returns the registers after the last cycle.
fn registers_after(cpu: &mut Cpu, bus: &mut Memory, pc: u16, cycles: u32) -> Regs {
    cpu.set_pc(address(pc));
    for _ in 0..cycles {
        let _ = cpu.cycle(bus);
    }
    cpu.regs()
}

#[test]
fn daa_corrects_a_sum(rt: HostRuntime) {
    let mut cpu = Cpu::new();
    cpu.set_acc(nibble(9));
    cpu.set_register(RegNo::from_opcode(2), nibble(8));
    let regs = registers_after(&mut cpu, &mut memory_with(&[(0, 0x82), (1, 0xFB)]), 0, 2);
    expect_equal(&rt, regs.acc, nibble(7));
    expect_equal(&rt, regs.cy, Bit::ONE);
    expect_equal(&rt, regs.pc, address(2));
    expect_equal(&rt, regs.r, index_registers([0, 0x80, 0, 0, 0, 0, 0, 0]));
}

#[test]
fn jumps_on_condition_to_the_page_of_the_next_address(rt: HostRuntime) {
    for (from, word, target) in [(0x0FE, 0x10, 0x110), (0x0FC, 0x10, 0x010)] {
        let mut bus = memory_with(&[(from, 0x11), (from + 1, word)]);
        bus.test = Bit::ZERO;
        let regs = registers_after(&mut Cpu::new(), &mut bus, from, 1);
        expect_equal(&rt, regs.pc, address(target));
        expect_equal(&rt, regs.owed, 1);
    }
}

#[test]
fn fetches_indirect_from_the_next_page(rt: HostRuntime) {
    let mut cpu = Cpu::new();
    cpu.set_r(index_registers([0x20, 0, 0, 0, 0, 0, 0, 0]));
    let regs = registers_after(
        &mut cpu,
        &mut memory_with(&[(0x0FF, 0x32), (0x120, 0xAB)]),
        0x0FF,
        2,
    );
    expect_equal(&rt, regs.pc, address(0x100));
    expect_equal(&rt, regs.owed, 0);
    expect_equal(&rt, regs.r, index_registers([0x20, 0xAB, 0, 0, 0, 0, 0, 0]));
}

#[test]
fn call_stack_wraps(rt: HostRuntime) {
    let mut bus = memory_with(&[
        (0x00, 0x50),
        (0x01, 0x10),
        (0x10, 0x50),
        (0x11, 0x20),
        (0x12, 0xC4),
        (0x20, 0x50),
        (0x21, 0x30),
        (0x22, 0xC3),
        (0x30, 0x50),
        (0x31, 0x40),
        (0x32, 0xC2),
        (0x40, 0xC1),
    ]);
    let regs = registers_after(&mut Cpu::new(), &mut bus, 0, 12);
    expect_equal(&rt, regs.acc, nibble(4));
    expect_equal(&rt, regs.pc, address(0x041));
    expect_equal(
        &rt,
        regs.ret,
        [address(0x033), address(0x023), address(0x013)],
    );
}

#[test]
fn jun_jumps_in_its_first_cycle(rt: HostRuntime) {
    let mut bus = memory_with(&[(0, 0x41), (1, 0x23)]);
    let mut cpu = Cpu::new();
    expect_equal(&rt, cpu.cycle(&mut bus), Cycle::Done);
    expect_equal(&rt, cpu.regs().pc, address(0x123));
    expect_equal(&rt, cpu.regs().owed, 1);
    expect_equal(&rt, cpu.cycle(&mut bus), Cycle::Idle);
    expect_equal(&rt, cpu.regs().pc, address(0x123));
    expect_equal(&rt, cpu.regs().owed, 0);
}

#[test]
fn accumulator_instructions_set_carry(rt: HostRuntime) {
    let rows = [
        (0xF8, 0, 0, 15, 0),
        (0xF8, 1, 0, 0, 1),
        (0xF6, 1, 0, 0, 1),
        (0xF9, 0, 1, 10, 0),
        (0xFC, 8, 0, 4, 0),
        (0xFC, 3, 0, 15, 0),
    ];
    for (code, acc, cy, acc_after, cy_after) in rows {
        let mut cpu = Cpu::new();
        cpu.set_acc(nibble(acc));
        cpu.set_cy(Bit::low_of(cy));
        let regs = registers_after(&mut cpu, &mut memory_with(&[(0, code)]), 0, 1);
        assert_eq!(rt; regs.acc, nibble(acc_after), "code {code} at {acc}");
        assert_eq!(rt; regs.cy, Bit::low_of(cy_after), "code {code} at {acc}");
        expect_equal(&rt, regs.pc, address(1));
    }
}

#[test]
fn jumps_and_fetches_cross_pages(rt: HostRuntime) {
    let mut cpu = Cpu::new();
    cpu.set_acc(nibble(3));
    let regs = registers_after(
        &mut cpu,
        &mut memory_with(&[(0x0FF, 0x1C), (0x100, 0x34)]),
        0x0FF,
        1,
    );
    expect_equal(&rt, regs.pc, address(0x134));
    expect_equal(&rt, regs.owed, 1);

    let mut cpu = Cpu::new();
    cpu.set_register(RegNo::from_opcode(5), nibble(15));
    let regs = registers_after(
        &mut cpu,
        &mut memory_with(&[(0x200, 0x75), (0x201, 0x80)]),
        0x200,
        1,
    );
    expect_equal(&rt, regs.r, [Nibble::ZERO; 16]);
    expect_equal(&rt, regs.pc, address(0x202));
    expect_equal(&rt, regs.owed, 1);

    let mut cpu = Cpu::new();
    cpu.set_r(index_registers([0, 0x34, 0, 0, 0, 0, 0, 0]));
    let regs = registers_after(&mut cpu, &mut memory_with(&[(0x0FF, 0x33)]), 0x0FF, 1);
    expect_equal(&rt, regs.pc, address(0x134));
    expect_equal(&rt, regs.owed, 0);

    let regs = registers_after(
        &mut Cpu::new(),
        &mut memory_with(&[(0xFFF, 0x20), (0, 0xAB)]),
        0xFFF,
        1,
    );
    expect_equal(&rt, regs.r, index_registers([0xAB, 0, 0, 0, 0, 0, 0, 0]));
    expect_equal(&rt, regs.pc, address(0x001));
    expect_equal(&rt, regs.owed, 1);
}

#[test]
fn undefined_opcode_changes_nothing(rt: HostRuntime) {
    for code in 0..=255u8 {
        let is_undefined = matches!(code, 0x01..=0x0F | 0xE3 | 0xFE | 0xFF);
        let mut bus = memory_with(&[(0, code)]);
        let mut cpu = Cpu::new();
        expect_equal(&rt, cpu.is_outside_table(&bus), is_undefined);
        expect_equal(&rt, cpu.cycle(&mut bus) == Cycle::Outside, is_undefined);
        if is_undefined {
            expect_equal(&rt, cpu.regs(), Regs::new());
        }
    }
}
