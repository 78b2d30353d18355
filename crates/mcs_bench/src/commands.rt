//! The commands that a bench accepts, and their effects.
ghost use Rattle.std.specs.Prelude.{◌≡◌, ◌&&◌, ◌<◌, Some, Ok, Err, None, IsOk, MatchOption, length, if◌then◌else◌};
ghost use Rattle.std.specs.List.{list_any};
ghost use Rattle.mcs_model.specs.ChipWrites.{with_rom_bytes};
ghost use Rattle.mcs_model.specs.Command.{refusal, refusal_of_command, place_refusal, lacks_rom, after, after_change, reply, with_place};

use crate::bench::Bench;
use crate::running::{run, step};
use mcs_board::{BenchRig, every_board_fits_the_bench};
use mcs_cpu4004::Cpu;
use mcs_model::board::Board;
use mcs_model::command::{Command, Place, Reply};
use mcs_model::image::Image;
use mcs_model::limits::{ACCEPTED_COMMANDS, BREAKPOINTS, RUN_CYCLES};
use mcs_model::refusals::BenchFault;
use mcs_nibble::{Addr, BankNo};

/// Returns `None` if `is_allowed` is true, otherwise `fault`.
fn fault_unless(is_allowed: bool, fault: BenchFault) -> Option<BenchFault>
    ensures { result ≡ (if is_allowed then None else Some fault) }
{
    if is_allowed { None } else { Some(fault) }
}

/// Returns `fault` if `is_forbidden` is true, otherwise `None`.
fn fault_if(is_forbidden: bool, fault: BenchFault) -> Option<BenchFault>
    ensures { result ≡ (if is_forbidden then Some fault else None) }
{
    if is_forbidden { Some(fault) } else { None }
}

/// Returns whether the board lacks the ROM of an address.
fn lacks_rom(board: &Board, at: Addr) -> bool
    ensures { result ≡ lacks_rom board.now at }
{
    board.mask(at.page().get()).is_none()
}

/// Returns whether any address of an image is in a ROM that the board lacks.
fn image_lacks_rom(board: &Board, image: &Image) -> bool
    ensures { result ≡ list_any (λ p. lacks_rom board.now p.0) image.now }
{
    image.pairs().iter().any(|pair| lacks_rom(board, pair.0))
}

/// Writes the bytes of an image to ROM. Returns the reply `Loaded` with the number of these bytes.
fn load(rig: &mut BenchRig, image: &Image) -> Reply
    ensures bytes { rig.new ≡ with_rom_bytes rig.old image.now }
    ensures count { result ≡ Reply.Loaded (length image.now) }
{
    for pair in image.pairs() {
        rig.set_rom_byte(pair.0, pair.1);
    }
    Reply::Loaded(image.pairs().len() as u16)
}

impl Bench {
    /// Returns the reason why the bench rejects a poke of `place`, or `None` if the bench accepts the poke.
    fn place_refusal(&self, place: Place) -> Option<BenchFault>
        ensures { result ≡ place_refusal self.now.bus place }
    {
        let board = self.rig.board();
        match place {
            Place::Rom(at, _) => fault_if(lacks_rom(board, at), BenchFault::NoRom),
            Place::Ram(bank, src, _) => {
                fault_unless(
                    src / 64 < board.bank_chips(bank.get()),
                    BenchFault::NoSuchPlace,
                )
            }
            Place::Status(bank, high, _, _) => fault_unless(
                high.get() / 4 < board.bank_chips(bank.get()),
                BenchFault::NoSuchPlace,
            ),
            Place::Acc(_) | Place::Cy(_) | Place::Pc(_) | Place::Register(_, _) | Place::Dcl(_) =>
                None,
        }
    }

    /// Returns the reason why the bench rejects a command, or `None` if there is none. Does not check the limit on
    /// the number of accepted commands.
    fn refusal_of_command(&self, command: &Command) -> Option<BenchFault>
        ensures { result ≡ refusal_of_command self.now command.now }
    {
        let board = self.rig.board();
        match command {
            Command::Load(image) => fault_if(image_lacks_rom(board, image), BenchFault::NoRom),
            Command::Press(row, column) | Command::Release(row, column) => {
                fault_unless(board.has_key(*row, *column), BenchFault::NoKey)
            }
            Command::Run(n) => fault_unless(1 <= *n && *n <= RUN_CYCLES, BenchFault::BadCount),
            Command::Poke(place) => self.place_refusal(*place),
            Command::Break(at) => fault_unless(
                self.breaks.has_room_for(*at),
                BenchFault::BreaksFull,
            ),
            Command::Watch(bank, src) => {
                fault_unless(
                    self.watches.has_room_for(bank.get(), *src),
                    BenchFault::WatchesFull,
                )
            }
            Command::Wire(_)
            | Command::Step
            | Command::Test(_)
            | Command::Reset
            | Command::Unbreak(_)
            | Command::Unwatch(_, _) => None,
        }
    }

    /// Checks whether the bench accepts a command. Does not change the bench.
    ///
    /// # Errors
    ///
    /// Returns `CommandsExhausted` if the bench has already accepted 4,294,967,295 commands. Otherwise returns:
    /// - `NoKey` if the board has no key at the command's row and column
    /// - `NoRom` if the command writes to a ROM that the board lacks
    /// - `NoSuchPlace` if the command pokes a RAM chip that the board lacks
    /// - `BadCount` for a run of 0 cycles or of more than 100,000
    /// - `BreaksFull` if a 33rd breakpoint would be set
    /// - `WatchesFull` if a ninth RAM nibble would be watched
    pub fn check(&self, command: &Command) -> Result<(), BenchFault>
        ensures { MatchOption (refusal self.now command.now) (IsOk result)
            (λ fault. result ≡ Err fault) }
    {
        if self.seq == ACCEPTED_COMMANDS {
            return Err(BenchFault::CommandsExhausted);
        }
        match self.refusal_of_command(command) {
            Some(fault) => Err(fault),
            None => Ok(()),
        }
    }

    /// Replaces the board of the rig, as the command `Wire` does, and resets the processor.
    fn wire(&mut self, board: &Board)
        ensures { self.new ≡ after_change self.old (Command.Wire board.now) }
    {
        every_board_fits_the_bench(board);
        self.rig.wire(board);
        self.cpu = Cpu::new();
    }

    /// Sets the command register (DCL) to a bank number.
    fn set_dcl(&mut self, bank: BankNo)
        ensures { self.new ≡ with_place self.old (Place.Dcl bank) }
    {
        self.cpu.set_dcl(bank.get());
    }

    /// Writes the value of `place` to the location of `place`. Does nothing if the chip of that location is absent.
    fn write_place(&mut self, place: Place)
        ensures { self.new ≡ with_place self.old place }
    {
        match place {
            Place::Acc(n) => self.cpu.set_acc(n),
            Place::Cy(bit) => self.cpu.set_cy(bit),
            Place::Pc(at) => self.cpu.set_pc(at),
            Place::Register(r, n) => self.cpu.set_register(r, n),
            Place::Dcl(bank) => self.set_dcl(bank),
            Place::Rom(at, byte) => self.rig.set_rom_byte(at, byte),
            Place::Ram(bank, src, n) => self.rig.set_ram(bank.get(), src, n),
            Place::Status(bank, high, k, n) => {
                self.rig.set_status(bank.get(), high, k.get(), n);
            }
        }
    }

    /// Resets the processor and the chips, as a power cycle does.
    fn reset(&mut self)
        ensures { self.new ≡ after_change self.old Command.Reset }
    {
        self.cpu = Cpu::new();
        self.rig.reset();
    }

    /// Runs for at most `n` cycles. Returns the number of cycles done and the reason why the run stopped.
    fn run(&mut self, n: u32) -> Reply
        ensures state { self.new ≡ after_change self.old (Command.Run n) }
        ensures reply { result ≡ reply self.old (Command.Run n) }
    {
        let (cycles, stop) = run(&mut self.cpu, &mut self.rig, &self.breaks, &self.watches, n);
        Reply::Ran { cycles, stop }
    }

    /// Executes the pending second cycle if there is one, otherwise one instruction. Returns the number of cycles
    /// done and the reason why the step stopped.
    fn step(&mut self) -> Reply
        ensures state { self.new ≡ after_change self.old Command.Step }
        ensures reply { result ≡ reply self.old Command.Step }
    {
        let (cycles, stop) = step(&mut self.cpu, &mut self.rig);
        Reply::Ran { cycles, stop }
    }

    /// Executes a command that the bench accepts, and returns the reply. Does not count the command.
    fn execute(&mut self, command: &Command) -> Reply
        requires { refusal_of_command self.old command.now ≡ None }
        ensures state { self.new ≡ after_change self.old command.now }
        ensures reply { result ≡ reply self.old command.now }
    {
        match command {
            Command::Wire(board) => self.wire(board),
            Command::Load(image) => return load(&mut self.rig, image),
            Command::Press(row, column) => self.rig.press(*row, *column),
            Command::Release(row, column) => self.rig.release(*row, *column),
            Command::Run(n) => return self.run(*n),
            Command::Step => return self.step(),
            Command::Poke(place) => self.write_place(*place),
            Command::Test(bit) => self.rig.set_test(*bit),
            Command::Reset => self.reset(),
            Command::Break(at) => self.breaks.set(*at),
            Command::Unbreak(at) => self.breaks.clear(*at),
            Command::Watch(bank, src) => self.watches.set(bank.get(), *src),
            Command::Unwatch(bank, src) => self.watches.clear(bank.get(), *src),
        }
        Reply::Done
    }

    /// Executes a command that `check` accepts, counts it, and returns the reply. Allocates no memory.
    pub fn apply(&mut self, command: &Command) -> Reply
        requires accepted { refusal self.old command.now ≡ None }
        ensures state { self.new ≡ after self.old command.now }
        ensures reply { result ≡ reply self.old command.now }
    {
        let accepted = self.seq + 1;
        let reply = self.execute(command);
        self.seq = accepted;
        reply
    }
}
