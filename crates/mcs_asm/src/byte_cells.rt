//! The bytes of an image, by address, while the assembler builds the image.
ghost use Rattle.std.specs.Prelude.{◌≡◌, ℕ, ◌<◌, ◌≤◌, ◌+◌, IfOk, length, take, drop, is_some, None};
ghost use Rattle.std.specs.List.{list_any};
ghost use lib.ListN.{replicate};
ghost use Rattle.mcs_asm.specs.ByteCells.{cells_after_write, pairs_from};

use mcs_model::image::Image;
use mcs_nibble::Addr;
use std::alloc::{AllocError, Global};
use std::marker::Model;

/// A cell for each of the 4096 addresses; a cell contains a byte or is empty.
#[derive(Drop)]
pub struct ByteCells {
    bytes: Vec<Option<u8>>,
}

impl Model for ByteCells {
    ghost use Rattle.std.specs.Prelude.{List, Option, ℕ, ◌≡◌, length};

    ghost Value = { List (Option ℕ) };

    ghost view = { λ c. c.bytes.items };

    ghost invariant = { λ c. length c.bytes.items ≡ 4096 };
}

impl ByteCells {
    /// Returns 4096 empty cells. Fails if allocation fails.
    #[tactic(auto, using(crate::proofs::CellPairs::replicate_rules))]
    pub fn new(alloc: Global) -> Result<ByteCells, AllocError>
        ensures { IfOk result (λ c. c ≡ replicate 4096 None) }
    {
        let mut bytes = Vec::with_capacity(alloc, 4096)?;
        for _n in 0..4096u16 {
            bytes.push(None)?;
        }
        Ok(ByteCells { bytes })
    }

    /// Returns true if at least one of the `count` addresses that start at `at` has a byte.
    pub fn is_occupied(&self, at: usize, count: usize) -> bool
        requires { at + count ≤ 4096 }
        ensures { result ≡ list_any is_some (take count (drop at self.now)) }
    {
        any_occupied(&self.bytes[at..at + count])
    }

    /// Stores bytes at consecutive addresses, starting at `at`.
    pub fn write(&mut self, at: usize, bytes: &[u8])
        requires { at + length bytes.now ≤ 4096 }
        ensures { self.new ≡ cells_after_write at bytes.now self.old }
    {
        for i in 0..bytes.len() {
            self.bytes[at + i] = Some(bytes[i]);
        }
    }

    /// Returns the stored bytes with their addresses, in ascending order of address. Fails if
    /// allocation fails.
    pub fn image(&self, alloc: Global) -> Result<Image, AllocError>
        ensures { IfOk result (λ i. i ≡ pairs_from 0 self.now) }
    {
        let mut image = Image::new(alloc)?;
        for at in 0..4096u16 {
            if let (Some(addr), Some(byte)) = (Addr::of(at), self.bytes[usize::from(at)]) {
                image.push(addr, byte)?;
            }
        }
        Ok(image)
    }
}

fn any_occupied(cells: &[Option<u8>]) -> bool
    ensures { result ≡ list_any is_some cells.now }
{
    cells.iter().any(|c| c.is_some())
}
