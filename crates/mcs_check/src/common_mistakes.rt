//! Common programming mistakes, detected in the cycle that begins an instruction.
ghost use Rattle.std.specs.Prelude.{◌≡◌};
ghost use Rattle.mcs_model.specs.Command.{lacks_rom};
ghost use Rattle.mcs_check.specs.Mistaken.{makes_call_mistake, makes_chip_mistake, makes_port_mistake, has_input, has_output, is_fourth_call, is_unmatched_return, cycle_makes_mistake, is_rdr, is_wrr, lacks_selected_ram, reads_absent_rom, last_address_read, op_makes_mistake, uses_ram};

use crate::replica::SearchMachine;
use mcs_model::board::Board;
use mcs_model::op::Op;
use mcs_model::regs::Regs;
use mcs_nibble::{Addr, PairNo};

/// The kinds of mistake to look for.
#[derive(Clone, Copy, Debug)]
pub struct Mistakes {
    /// An opcode outside the instruction table.
    pub invalid_opcode: bool,
    /// A fourth nested call.
    pub fourth_call: bool,
    /// A BBL while no call is open.
    pub unmatched_return: bool,
    /// A read or write of an absent RAM chip.
    pub absent_ram: bool,
    /// A read of a word from an absent ROM.
    pub absent_rom: bool,
    /// An RDR from a port without input lines.
    pub port_without_inputs: bool,
    /// A WRR to a port without output lines.
    pub port_without_outputs: bool,
}

impl Mistakes {
    /// No kind of mistake.
    pub const NONE: Mistakes = Mistakes {
        invalid_opcode: false,
        fourth_call: false,
        unmatched_return: false,
        absent_ram: false,
        absent_rom: false,
        port_without_inputs: false,
        port_without_outputs: false,
    };

    /// All kinds of mistake.
    pub(crate) const ALL: Mistakes = Mistakes {
        invalid_opcode: true,
        fourth_call: true,
        unmatched_return: true,
        absent_ram: true,
        absent_rom: true,
        port_without_inputs: true,
        port_without_outputs: true,
    };
}

/// Returns whether an instruction is a JMS while three calls are open.
fn is_fourth_call(op: &Op, calls: u8) -> bool
    ensures { result ≡ is_fourth_call op.now calls }
{
    match op {
        Op::Jms(_, _) => calls > 2,
        _ => false,
    }
}

/// Returns whether an instruction is a BBL while no call is open.
fn is_unmatched_return(op: &Op, calls: u8) -> bool
    ensures { result ≡ is_unmatched_return op.now calls }
{
    match op {
        Op::Bbl(_) => calls == 0,
        _ => false,
    }
}

/// Returns whether an instruction reads or writes a RAM chip.
fn uses_ram(op: &Op) -> bool
    ensures { result ≡ uses_ram op.now }
{
    match op {
        Op::Wrm | Op::Wmp | Op::Wr0 | Op::Wr1 | Op::Wr2 | Op::Wr3 => true,
        Op::Sbm | Op::Rdm | Op::Adm | Op::Rd0 | Op::Rd1 | Op::Rd2 | Op::Rd3 => true,
        _ => false,
    }
}

/// Returns the address of the last word that an instruction reads from ROM.
fn last_address_read(op: &Op, regs: &Regs) -> Addr
    ensures { result ≡ last_address_read op.now regs.now }
{
    let next = regs.pc.plus(1);
    match op {
        Op::Jcn(_, _) => next,
        Op::Fim(_, _) => next,
        Op::Fin(_) => Addr::on_page(next.page(), regs.pair(PairNo::ZERO)),
        Op::Jun(_, _) => next,
        Op::Jms(_, _) => next,
        Op::Isz(_, _) => next,
        _ => regs.pc,
    }
}

/// Returns whether a board has no ROM at an address.
fn lacks_rom(board: &Board, at: Addr) -> bool
    ensures { result ≡ lacks_rom board.now at }
{
    board.mask(at.page().get()).is_none()
}

/// Returns whether an instruction reads a word from a ROM that the board does not have.
fn reads_absent_rom(op: &Op, regs: &Regs, board: &Board) -> bool
    ensures { result ≡ reads_absent_rom op.now regs.now board.now }
{
    lacks_rom(board, regs.pc) || lacks_rom(board, last_address_read(op, regs))
}

/// Returns whether a ROM's port has an input line.
fn has_input(board: &Board, chip: u8) -> bool
    ensures { result ≡ has_input board.now chip }
{
    board.is_input(chip, 0)
        || board.is_input(chip, 1)
        || board.is_input(chip, 2)
        || board.is_input(chip, 3)
}

/// Returns whether a ROM's port has an output line.
fn has_output(board: &Board, chip: u8) -> bool
    ensures { result ≡ has_output board.now chip }
{
    !board.mask(chip).is_none()
        && !(board.is_input(chip, 0)
            && board.is_input(chip, 1)
            && board.is_input(chip, 2)
            && board.is_input(chip, 3))
}

/// Returns whether an instruction is an RDR.
fn is_rdr(op: &Op) -> bool
    ensures { result ≡ is_rdr op.now }
{
    match op {
        Op::Rdr => true,
        _ => false,
    }
}

/// Returns whether an instruction is a WRR.
fn is_wrr(op: &Op) -> bool
    ensures { result ≡ is_wrr op.now }
{
    match op {
        Op::Wrr => true,
        _ => false,
    }
}

impl SearchMachine {
    /// Returns whether the selected RAM chip is absent from the board.
    fn lacks_selected_ram(&self) -> bool
        ensures { result ≡ lacks_selected_ram self.now.0 self.now.1 }
    {
        let bank = self.cpu.regs().dcl;
        let has_chip = self.rig.ram_src(bank) / 64 < self.rig.board().bank_chips(bank);
        !has_chip
    }

    /// Returns whether an instruction makes a call mistake that `kinds` includes: a fourth nested call, or a BBL
    /// while no call is open.
    fn makes_call_mistake(&self, kinds: &Mistakes, op: &Op) -> bool
        ensures { result ≡ makes_call_mistake kinds.now op.now self.now }
    {
        kinds.fourth_call && is_fourth_call(op, self.calls)
            || kinds.unmatched_return && is_unmatched_return(op, self.calls)
    }

    /// Returns whether an instruction makes a chip mistake that `kinds` includes: it uses an absent RAM chip or an
    /// absent ROM.
    fn makes_chip_mistake(&self, kinds: &Mistakes, op: &Op) -> bool
        ensures { result ≡ makes_chip_mistake kinds.now op.now self.now }
    {
        kinds.absent_ram && uses_ram(op) && self.lacks_selected_ram()
            || kinds.absent_rom && reads_absent_rom(op, &self.cpu.regs(), self.rig.board())
    }

    /// Returns whether an instruction makes a port mistake that `kinds` includes: an RDR without input lines, or a
    /// WRR without output lines.
    fn makes_port_mistake(&self, kinds: &Mistakes, op: &Op) -> bool
        ensures { result ≡ makes_port_mistake kinds.now op.now self.now }
    {
        let board = self.rig.board();
        let chip = self.rig.rom_src() / 16;
        kinds.port_without_inputs && is_rdr(op) && !has_input(board, chip)
            || kinds.port_without_outputs && is_wrr(op) && !has_output(board, chip)
    }

    /// Returns whether an instruction makes a mistake that `kinds` includes.
    pub(crate) fn op_makes_mistake(&self, kinds: &Mistakes, op: &Op) -> bool
        ensures { result ≡ op_makes_mistake kinds.now op.now self.now }
    {
        self.makes_call_mistake(kinds, op)
            || self.makes_chip_mistake(kinds, op)
            || self.makes_port_mistake(kinds, op)
    }

    /// Returns whether the next cycle makes a mistake that `kinds` includes.
    pub fn cycle_makes_mistake(&self, kinds: &Mistakes) -> bool
        ensures { result ≡ cycle_makes_mistake kinds.now self.now }
    {
        let regs = self.cpu.regs();
        if regs.owed == 1 {
            return false;
        }
        match mcs_board::instruction(&self.cpu, &self.rig, regs.pc) {
            Some(op) => self.op_makes_mistake(kinds, &op),
            None => kinds.invalid_opcode,
        }
    }
}
