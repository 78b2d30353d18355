//! The processor's interface to everything outside it.
ghost use Rattle.std.specs.Prelude.{◌≡◌, ℕ, ◌<◌};
ghost use Rattle.mcs_model.specs.Bus.{BusState, fetch_of, after_src, ram_of, after_ram, status_of, after_status};
ghost use Rattle.mcs_model.specs.Levels.{after_ram_port, after_rom_port, port_of};

use mcs_nibble::{Addr, Bit, Nibble};

/// The chips that the processor accesses, and the TEST pin. In a valid state, absent chips read
/// as 0. Writes to absent chips have no effect. Contracts describe a call by the flat state of the
/// bus before and after the call. The bank number is the value of the command register, 0 to 7.
/// (Fethsaim, not Intel, defines this numbering.)
pub trait Bus {
    ghost flat: { Self → BusState };

    /// Returns the ROM byte at an address.
    fn fetch(&self, at: Addr) -> u8
        ensures { result ≡ fetch_of (flat self.now) at };

    /// Sends an SRC byte to the ROMs and to a RAM bank. The ROMs store the byte. The bank also stores the byte, unless
    /// the bank has no chips.
    fn src(&mut self, bank: u8, byte: u8)
        requires { bank < 8 }
        ensures { flat self.new ≡ after_src (flat self.old) bank byte };

    /// Returns the selected RAM nibble of a bank.
    fn ram_read(&self, bank: u8) -> Nibble
        requires { bank < 8 }
        ensures { result ≡ ram_of (flat self.now) bank };

    /// Writes the selected RAM nibble of a bank.
    fn ram_write(&mut self, bank: u8, n: Nibble)
        requires { bank < 8 }
        ensures { flat self.new ≡ after_ram (flat self.old) bank n };

    /// Returns status character `k`, 0 to 3, of the selected register of a bank.
    fn status_read(&self, bank: u8, k: u8) -> Nibble
        requires bank { bank < 8 }
        requires k { k < 4 }
        ensures { result ≡ status_of (flat self.now) bank k };

    /// Writes status character `k`, 0 to 3, of the selected register of a bank.
    fn status_write(&mut self, bank: u8, k: u8, n: Nibble)
        requires bank { bank < 8 }
        requires k { k < 4 }
        ensures { flat self.new ≡ after_status (flat self.old) bank k n };

    /// Writes the output port of the selected RAM chip of a bank. Shifts each chain whose clock
    /// line rises.
    fn ram_port(&mut self, bank: u8, n: Nibble)
        requires { bank < 8 }
        ensures { flat self.new ≡ after_ram_port (flat self.old) bank n };

    /// Writes the port of the ROM that the last SRC selected. Shifts each chain whose clock line
    /// rises.
    fn rom_port(&mut self, n: Nibble)
        ensures { flat self.new ≡ after_rom_port (flat self.old) n };

    /// Returns the value that the processor reads from the port of the ROM that the last SRC selected.
    fn port_read(&self) -> Nibble
        ensures { result ≡ port_of (flat self.now) };

    /// Returns the level of the TEST pin.
    fn test(&self) -> Bit
        ensures { result ≡ (flat self.now).test };
}
