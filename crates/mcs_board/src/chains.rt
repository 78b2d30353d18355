//! A rig's shift-register chains: functions that wire the chains to a board, clear the chains, and get or set one bit.
//! Setting a bit shifts nothing.
ghost use Rattle.std.specs.Prelude.{◌≡◌, ℕ, ◌<◌, ◌≤◌, ◌↔◌, All, IsTrue, length, replicate, [], IfOk, slice_index_or};
ghost use Rattle.mcs_model.specs.Boards.{chain_bits, chain_count};
ghost use Rattle.mcs_model.specs.Levels.{chain_bit};
ghost use Rattle.mcs_model.specs.ChipWrites.{with_chain_bit};

use crate::rig::Rig;
use mcs_model::board::Board;
use mcs_nibble::Bit;
use mcs_shift4003::Chain;
use std::alloc::{AllocError, Global};

/// Returns `count` chains without bits. Fails if memory cannot be allocated.
pub(crate) fn empty_chains<const MAX: usize>(
    alloc: Global,
    count: usize,
) -> Result<Vec<Chain<MAX>>, AllocError>
    ensures { IfOk result (λ chains. chains.items ≡ replicate count []) }
{
    let mut chains = Vec::new(alloc);
    for _ in 0..count {
        chains.push(Chain::new(0))?;
    }
    Ok(chains)
}

/// Returns the number of bits in chain `i`, or 0 if the board has no chain `i`.
fn bits_in_chain(board: &Board, i: usize) -> usize
    ensures { result ≡ chain_bits board.now i }
{
    if i < board.chain_count() {
        usize::from(board.chain(i).bits())
    } else {
        0
    }
}

/// Returns whether each chain of the board has at most `size` bits.
pub(crate) fn chains_fit(board: &Board, size: usize) -> bool
    ensures { IsTrue result ↔ ((k : ℕ) → chain_bits board.now k ≤ size) }
{
    for i in 0..board.chain_count() {
        if bits_in_chain(board, i) > size {
            return false;
        }
    }
    true
}

/// Replaces the chains with those of a new board, and sets all their bits to 0. Requires that no chain of the board
/// has more than `MAX` bits.
pub(crate) fn rewire_chains<const MAX: usize>(chains: &mut Vec<Chain<MAX>>, board: &Board)
    requires { (k : ℕ) → chain_bits board.now k ≤ MAX }
    ensures count { length chains.new.items ≡ length chains.old.items }
    ensures rows { (k : ℕ) → k < length chains.old.items → slice_index_or chains.new.items k []
        ≡ replicate (chain_bits board.now k) 0 }
{
    for i in 0..chains.len() {
        chains[i] = Chain::new(bits_in_chain(board, i));
    }
}

/// Sets all bits of the chains to 0.
pub(crate) fn clear_chains<const MAX: usize>(chains: &mut Vec<Chain<MAX>>)
    ensures count { length chains.new.items ≡ length chains.old.items }
    ensures rows { (k : ℕ) → k < length chains.old.items → slice_index_or chains.new.items k []
        ≡ replicate (length (slice_index_or chains.old.items k [])) 0 }
{
    for i in 0..chains.len() {
        chains[i].clear();
    }
}

/// Returns a copy of the chains. Fails if memory cannot be allocated.
pub(crate) fn copy_chains<const MAX: usize>(
    alloc: Global,
    chains: &Vec<Chain<MAX>>,
) -> Result<Vec<Chain<MAX>>, AllocError>
    ensures { IfOk result (λ copy. copy.items ≡ chains.now.items) }
{
    let mut copy = Vec::with_capacity(alloc, chains.len())?;
    for chain in chains {
        copy.push(chain.copy())?;
    }
    Ok(copy)
}

impl<const ROMS: usize, const BANKS: usize, const CHAINS: usize, const MAX: usize> Rig<
    ROMS,
    BANKS,
    CHAINS,
    MAX,
> {
    /// Returns the number of chains on the board.
    pub(crate) fn chain_count(&self) -> usize
        ensures count { result ≡ chain_count self.now.board }
        ensures rows { length self.now.chains ≡ chain_count self.now.board }
        ensures fits { result ≤ CHAINS }
    {
        let _chains = &self.chains;
        self.parts().chains.len()
    }

    /// Returns bit `i` of chain `n`, or 0 if the chain has no bit `i`.
    pub(crate) fn bit_of_present_chain(&self, n: usize, i: usize) -> Bit
        requires { n < chain_count self.now.board }
        ensures { result ≡ chain_bit self.now n i }
    {
        let chains = self.chains.as_slice();
        match chains[n].bit(i) {
            Some(bit) => bit,
            None => Bit::ZERO,
        }
    }

    /// Returns bit `i` of chain `chain`, or 0 if the board lacks that bit. Chains and bits are numbered from 0.
    #[inline(always)]
    pub fn chain_bit(&self, chain: u8, i: u8) -> Bit
        ensures { result ≡ chain_bit self.now chain i }
    {
        let n = usize::from(chain);
        if n >= self.chain_count() {
            return Bit::ZERO;
        }
        self.bit_of_present_chain(n, usize::from(i))
    }

    /// Sets bit `i` of chain `chain`, and shifts nothing. Chains and bits are numbered from 0. Has no effect if the
    /// board lacks that bit.
    pub fn set_chain_bit(&mut self, chain: u8, i: u8, bit: Bit)
        ensures { self.new ≡ with_chain_bit self.old chain i bit }
    {
        let n = usize::from(chain);
        if n >= self.chain_count() {
            return;
        }
        // The chain sockets fit in memory, so the size of one socket is bounded. The proof of the call to `set_bit`
        // needs this bound.
        let chains = self.chains.as_slice();
        let _sockets = chains.len();
        let index = usize::from(i);
        if index >= usize::from(self.board().chain(n).bits()) {
            return;
        }
        self.chains[n].set_bit(index, bit);
    }

    /// Proves that each bit of the board's chains is 0 or 1.
    pub(crate) fn show_chains_are_valid(&self)
        ensures { (i : ℕ) → i < chain_count self.now.board →
            All (λ bit. bit < 2) (slice_index_or self.now.chains i []) }
    {
        let _key_pad = &self.key_pad;
        let chains = self.chains.as_slice();
        for i in 0..chains.len() {
            chains[i].show_state_is_valid();
        }
    }
}
