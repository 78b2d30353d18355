//! The registers of a 4004.
ghost use Rattle.std.specs.Prelude.{◌≡◌};
ghost use Rattle.mcs_model.specs.BenchState.{new_regs};
ghost use Rattle.mcs_model.specs.Registers.{register_of, pair_of, with_register, with_pair};

use mcs_nibble::{Addr, Bit, Nibble, PairNo, RegNo};

/// The state that a 4004 keeps between two instruction cycles.
#[derive(Clone, Copy, Debug, PartialEq, Eq)]
pub struct Regs {
    /// The accumulator.
    pub acc: Nibble,
    /// The carry.
    pub cy: Bit,
    /// The index registers, `R0` first.
    pub r: [Nibble; 16],
    /// The program counter.
    pub pc: Addr,
    /// The three return addresses. BBL returns to the first one. (Fethsaim, not Intel, specifies that they form one
    /// list.)
    pub ret: [Addr; 3],
    /// The command register, 0 to 7. (Fethsaim, not Intel, specifies that its value is the RAM bank number.)
    pub dcl: u8,
    /// 1 if the second cycle of the last instruction is pending, otherwise 0.
    pub owed: u8,
}

impl Regs {
    /// Returns the power-on state: all registers are 0.
    pub fn new() -> Regs
        ensures { result ≡ new_regs }
    {
        Regs {
            acc: Nibble::ZERO,
            cy: Bit::ZERO,
            r: [Nibble::ZERO; 16],
            pc: Addr::ZERO,
            ret: [Addr::ZERO; 3],
            dcl: 0,
            owed: 0,
        }
    }

    /// Returns the value of an index register.
    pub fn register(&self, r: RegNo) -> Nibble
        ensures { result ≡ register_of self.now r }
    {
        self.r[usize::from(r.get())]
    }

    /// Sets an index register.
    pub fn set_register(&mut self, r: RegNo, n: Nibble)
        ensures { self.new ≡ with_register self.old r n }
    {
        self.r[usize::from(r.get())] = n;
    }

    /// Returns the value of a register pair. The even register is the upper nibble.
    pub fn pair(&self, p: PairNo) -> u8
        ensures { result ≡ pair_of self.now p }
    {
        let k = usize::from(p.get()) * 2;
        self.r[k].get() * 16 + self.r[k + 1].get()
    }

    /// Sets both registers of a pair from a byte. The even register gets the upper nibble.
    pub fn set_pair(&mut self, p: PairNo, byte: u8)
        ensures { self.new ≡ with_pair self.old p byte }
    {
        let k = usize::from(p.get()) * 2;
        self.r[k] = Nibble::high_of(byte);
        self.r[k + 1] = Nibble::low_of(byte);
    }
}
