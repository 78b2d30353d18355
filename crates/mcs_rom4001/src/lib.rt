//! The 4001: 256 bytes of program memory and a four-line port.
//!
//! A `Rom` is a complete chip. A rig uses only the port of each ROM, a `RomPort`. The rig stores the bytes of all
//! ROMs in one list, indexed by address, so that a fetch reads one list element.
#![tactic(auto)]

ghost use Rattle.std.specs.Prelude.{◌≡◌, ℕ, ◌<◌, All, slice_index, slice_set, replicate, length};
ghost use Rattle.mcs_rom4001.specs.Roms.{IsValidPort, IsValidRom};
ghost use Rattle.mcs_nibble.specs.Bits.{bit_of};
ghost use Rattle.mcs_nibble.specs.Ports.{latch_value, latch_bit, read_bit, read_lines};

use mcs_nibble::{Bit, LineMask, Nibble};
use std::marker::Model;

/// The port of a 4001 (MCS-4 Users Manual). Its mask makes each of its four lines an input or an output. Its latch
/// holds the levels of the output lines. The latch bit of an input line is 0.
#[derive(Drop)]
pub struct RomPort {
    mask: [LineMask; 4],
    port: Nibble,
}

impl Model for RomPort {
    ghost use Rattle.std.specs.Prelude.{◌≡◌};
    ghost use Rattle.mcs_nibble.specs.Ports.{latch_value};
    ghost use Rattle.mcs_rom4001.specs.Roms.{PortState};

    ghost Value = { PortState };

    ghost view = { λ r. record { mask = r.mask; port = r.port } };

    ghost invariant = { λ r. latch_value r.mask r.port ≡ r.port };
}

/// Returns the latch bit of line `k` (0 to 3) after `n` is written: bit `k` of `n` for an output line, 0 for an input
/// line.
fn latched_bit(mask: &[LineMask; 4], n: Nibble, k: u8) -> Bit
    requires { k < 4 }
    ensures { result ≡ latch_bit mask.now n k }
{
    match mask[usize::from(k)] {
        LineMask::Input => Bit::ZERO,
        LineMask::Zero | LineMask::One => n.bit(k),
    }
}

/// Returns the bit that the processor reads from line `k` (0 to 3). An input line reads as its level, bit `k` of
/// `inputs`. An output line reads as the constant of its mask.
fn read_port_line(mask: &[LineMask; 4], inputs: Nibble, k: u8) -> Bit
    requires { k < 4 }
    ensures { result ≡ read_bit (bit_of inputs) mask.now k }
{
    match mask[usize::from(k)] {
        LineMask::Input => inputs.bit(k),
        LineMask::Zero => Bit::ZERO,
        LineMask::One => Bit::ONE,
    }
}

/// Returns the latch contents after `n` is written to a port with these line masks: the bits of `n` for output lines,
/// 0 for input lines.
#[tactic(auto, unfolding(mcs_nibble::specs::Ports::latch_value))]
pub fn latched_port(mask: &[LineMask; 4], n: Nibble) -> Nibble
    ensures { result ≡ latch_value mask.now n }
{
    Nibble::of_bits(
        latched_bit(mask, n, 0),
        latched_bit(mask, n, 1),
        latched_bit(mask, n, 2),
        latched_bit(mask, n, 3),
    )
}

/// Returns the value that the processor reads from a port with these line masks. An input line reads as its level,
/// bit `k` of `inputs` for line `k`. An output line reads as the constant of its mask.
#[tactic(auto, unfolding(mcs_nibble::specs::Ports::read_lines))]
pub fn read_port_of(mask: &[LineMask; 4], inputs: Nibble) -> Nibble
    ensures { result ≡ read_lines (bit_of inputs) mask.now }
{
    Nibble::of_bits(
        read_port_line(mask, inputs, 0),
        read_port_line(mask, inputs, 1),
        read_port_line(mask, inputs, 2),
        read_port_line(mask, inputs, 3),
    )
}

impl RomPort {
    /// Returns a port with the given line masks, from line 0 to line 3. The latch is 0.
    pub fn new(mask: [LineMask; 4]) -> RomPort
        ensures { result ≡ record { mask = mask; port = 0 } }
    {
        RomPort {
            mask,
            port: Nibble::ZERO,
        }
    }

    /// Returns a copy of the port.
    pub fn copy(&self) -> RomPort
        ensures { result ≡ self.now }
    {
        RomPort {
            mask: self.mask,
            port: self.port,
        }
    }

    /// Writes `n` to the latch, as the instruction WRR does. Output lines hold their bits until the next write. The
    /// latch bits of input lines stay 0.
    pub fn write_port(&mut self, n: Nibble)
        ensures { self.new ≡ record self.old { port = latch_value self.old.mask n } }
    {
        self.port = latched_port(&self.mask, n);
    }

    /// Returns the value that the instruction RDR reads. An input line reads as its level, bit `k` of `inputs` for
    /// line `k`. An output line reads as the constant of its mask.
    pub fn read_port(&self, inputs: Nibble) -> Nibble
        ensures { result ≡ read_lines (bit_of inputs) self.now.mask }
    {
        read_port_of(&self.mask, inputs)
    }

    /// Returns the contents of the port latch.
    pub fn port(&self) -> Nibble
        ensures { result ≡ self.now.port }
    {
        self.port
    }

    /// Sets the port latch to 0.
    pub fn clear_port(&mut self)
        ensures { self.new ≡ record self.old { port = 0 } }
    {
        self.port = Nibble::ZERO;
    }

    /// Proves that the port latch is below 16, and that the latch bits of input lines are 0.
    pub fn show_state_is_valid(&self)
        ensures { IsValidPort self.now }
    {
        let _latch = self.port.get();
    }
}

/// A 4001 chip: 256 bytes of program memory, and a port.
#[derive(Drop)]
pub struct Rom {
    bytes: [u8; 256],
    lines: RomPort,
}

impl Model for Rom {
    ghost use Rattle.mcs_rom4001.specs.Roms.{RomState};

    ghost Value = { RomState };

    ghost view = { λ r. record { mask = r.lines.mask; bytes = r.bytes; port = r.lines.port } };
}

/// Proves that the array has 256 numbers, each below 256.
fn show_bytes_are_valid(bytes: &[u8; 256])
    ensures count { length bytes.now ≡ 256 }
    ensures range { All (λ byte. byte < 256) bytes.now }
{
    let _bytes = bytes.as_slice();
}

impl Rom {
    /// Returns a ROM with the given line masks, from line 0 to line 3. All bytes and the port latch are 0.
    pub fn new(mask: [LineMask; 4]) -> Rom
        ensures { result ≡ record { mask = mask; bytes = replicate 256 0; port = 0 } }
    {
        Rom {
            bytes: [0; 256],
            lines: RomPort::new(mask),
        }
    }

    /// Returns the byte at address `at` within the chip.
    pub fn byte(&self, at: u8) -> u8
        ensures { result ≡ slice_index self.now.bytes at }
    {
        self.bytes[usize::from(at)]
    }

    /// Sets the byte at address `at` within the chip.
    pub fn set_byte(&mut self, at: u8, byte: u8)
        ensures byte { self.new ≡ record self.old { bytes = slice_set self.old.bytes at byte } }
        ensures whole { length self.old.bytes ≡ 256 }
    {
        self.bytes[usize::from(at)] = byte;
    }

    /// Writes `n` to the latch, as the instruction WRR does. Output lines hold their bits until the next write. The
    /// latch bits of input lines stay 0.
    pub fn write_port(&mut self, n: Nibble)
        ensures { self.new ≡ record self.old { port = latch_value self.old.mask n } }
    {
        self.lines.write_port(n);
    }

    /// Returns the value that the instruction RDR reads. An input line reads as its level, bit `k` of `inputs` for
    /// line `k`. An output line reads as the constant of its mask.
    pub fn read_port(&self, inputs: Nibble) -> Nibble
        ensures { result ≡ read_lines (bit_of inputs) self.now.mask }
    {
        self.lines.read_port(inputs)
    }

    /// Returns the latch bit of line `k` (0 to 3), which is 0 for an input line.
    pub fn line(&self, k: u8) -> Bit
        requires { k < 4 }
        ensures { result ≡ bit_of self.now.port k }
    {
        self.port().bit(k)
    }

    /// Returns the contents of the port latch.
    pub fn port(&self) -> Nibble
        ensures { result ≡ self.now.port }
    {
        self.lines.port()
    }

    /// Sets the port latch to `n`. The latch bits of input lines stay 0.
    pub fn set_port(&mut self, n: Nibble)
        ensures { self.new ≡ record self.old { port = latch_value self.old.mask n } }
    {
        self.write_port(n);
    }

    /// Sets the port latch to 0.
    pub fn clear_port(&mut self)
        ensures { self.new ≡ record self.old { port = 0 } }
    {
        self.lines.clear_port();
    }

    /// Proves that the ROM has 256 bytes, each below 256, and that the port latch is below 16. Also proves that the
    /// latch bits of input lines are 0.
    pub fn show_state_is_valid(&self)
        ensures { IsValidRom self.now }
    {
        show_bytes_are_valid(&self.bytes);
        self.lines.show_state_is_valid();
    }
}
