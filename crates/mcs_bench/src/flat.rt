//! A bench's state as plain numbers. These numbers can be out of range.
ghost use Rattle.std.specs.Prelude.{◌≡◌, ◌<◌, ℕ, IfOk, length, replicate, slice_index, slice_set};
ghost use Rattle.mcs_model.specs.BenchState.{new_bench_state};
ghost use Rattle.mcs_bench.specs.States.{state_of};

use arrayvec::ArrayVec;
use mcs_model::board::Board;
use mcs_model::limits::{BREAKPOINTS, CHAIN_SOCKETS, CHAINS, KEYS, WATCHES};
use std::alloc::{AllocError, Global};
use std::marker::Model;

/// A byte list of fixed length. In contracts, it is a list of numbers.
#[derive(Drop)]
pub struct Cells {
    bytes: Vec<u8>,
}

impl Model for Cells {
    ghost use Rattle.std.specs.Prelude.{List, ℕ};

    ghost Value = { List ℕ };

    ghost view = { λ c. c.bytes.items };
}

impl Cells {
    /// Returns `count` zero bytes. Fails if memory cannot be allocated.
    fn zeros(alloc: Global, count: usize) -> Result<Cells, AllocError>
        ensures { IfOk result (λ cells. cells ≡ replicate count 0) }
    {
        Ok(Cells {
            bytes: vec![in alloc; 0; count]?,
        })
    }

    /// Returns the number of bytes.
    pub fn len(&self) -> usize
        ensures { result ≡ length self.now }
    {
        self.bytes.len()
    }

    /// Returns all bytes.
    pub(crate) fn bytes(&self) -> &[u8]
        ensures { result.now ≡ self.now }
    {
        &self.bytes
    }

    /// Returns byte `i`, counted from 0.
    pub fn get(&self, i: usize) -> u8
        requires { i < length self.now }
        ensures { result ≡ slice_index self.now i }
    {
        self.bytes[i]
    }

    /// Sets byte `i`, counted from 0.
    pub fn set(&mut self, i: usize, byte: u8)
        requires { i < length self.old }
        ensures { self.new ≡ slice_set self.old i byte }
    {
        self.bytes[i] = byte;
    }
}

/// A bench's state as plain numbers. The state need not be valid: `check` returns whether a bench can be in that state.
#[derive(Drop)]
pub struct Flat {
    /// The number of accepted commands.
    pub seq: u32,
    /// The board.
    pub board: Board,
    /// The ROM bytes, indexed by address: 4,096 bytes, 0 for absent ROMs.
    pub rom: Cells,
    /// The RAM nibbles, at index bank * 256 + SRC byte: 2,048 numbers, 0 for absent chips.
    pub ram: Cells,
    /// The status characters: 512 nibbles, 0 for absent chips. Character `k`, 0 to 3, is at index (bank * 16 + upper
    /// nibble of the SRC byte) * 4 + k.
    pub status: Cells,
    /// The port latches of the RAM chips, at index bank * 4 + chip: 32 nibbles, 0 for absent chips.
    pub ram_ports: Cells,
    /// The port latches of the ROMs: 16 nibbles. The latch of an absent ROM is 0, and so is each latch bit of an
    /// input line.
    pub rom_ports: Cells,
    /// The accumulator, a nibble.
    pub acc: u8,
    /// The carry, a bit.
    pub cy: u8,
    /// The index registers, each a nibble.
    pub r: [u8; 16],
    /// The program counter, 0 to 4095.
    pub pc: u16,
    /// The call stack: three return addresses, each 0 to 4095. BBL returns to the first one.
    pub ret: [u16; 3],
    /// The command register, 0 to 7.
    pub dcl: u8,
    /// The SRC byte latched in the ROMs.
    pub rom_src: u8,
    /// The SRC bytes latched in the banks, 0 in a bank without chips.
    pub ram_src: [u8; 8],
    /// 1 if the second cycle of an instruction is pending, otherwise 0.
    pub owed: u8,
    /// The bits of each shift-register chain of the board, bit 0 first.
    pub chains: ArrayVec<ArrayVec<u8, CHAIN_SOCKETS>, CHAINS>,
    /// The states of the board's keys, row by row: 1 for a key that is down, otherwise 0.
    pub keys: ArrayVec<u8, KEYS>,
    /// The level of the TEST pin, 0 or 1.
    pub test: u8,
    /// The breakpoint addresses in ascending order.
    pub breakpoints: ArrayVec<u16, BREAKPOINTS>,
    /// The indices of the watched RAM nibbles (bank * 256 + SRC byte) in ascending order.
    pub watches: ArrayVec<u16, WATCHES>,
}

impl Flat {
    /// Returns the state of a new bench: the empty board, and all numbers 0, except the TEST level, which is 1.
    ///
    /// # Errors
    ///
    /// Fails if memory cannot be allocated.
    pub fn new(alloc: Global) -> Result<Flat, AllocError>
        ensures { IfOk result (λ flat. state_of flat ≡ new_bench_state) }
    {
        Ok(Flat {
            seq: 0,
            board: Board::empty(),
            rom: Cells::zeros(alloc, 4096)?,
            ram: Cells::zeros(alloc, 2048)?,
            status: Cells::zeros(alloc, 512)?,
            ram_ports: Cells::zeros(alloc, 32)?,
            rom_ports: Cells::zeros(alloc, 16)?,
            acc: 0,
            cy: 0,
            r: [0; 16],
            pc: 0,
            ret: [0; 3],
            dcl: 0,
            rom_src: 0,
            ram_src: [0; 8],
            owed: 0,
            chains: ArrayVec::new(),
            keys: ArrayVec::new(),
            test: 1,
            breakpoints: ArrayVec::new(),
            watches: ArrayVec::new(),
        })
    }
}
