//! Program images: the bytes of a program, with their addresses in ROM.
ghost use Rattle.std.specs.Prelude.{◌≡◌, ◌<◌, ◌≤◌, ◌∷◌, ◌++◌, [], All, IfOk, OnOk, OnErr, length};
ghost use Rattle.mcs_model.specs.Images.{IsImage};

use mcs_nibble::Addr;
use std::alloc::{AllocError, Global};
use std::marker::Model;

/// Bytes with their addresses, in ascending order of address. No address occurs twice.
#[derive(Debug, Drop)]
pub struct Image {
    pairs: Vec<(Addr, u8)>,
}

impl Model for Image {
    ghost use Rattle.std.specs.Prelude.{List, ℕ};
    ghost use Rattle.mcs_model.specs.Images.{IsImage};

    ghost Value = { List (ℕ × ℕ) };

    ghost view = { λ i. i.pairs.items };

    ghost invariant = { λ i. IsImage i.pairs.items };
}

impl Image {
    /// Returns an empty image with capacity for one page of bytes. Fails if memory cannot be allocated.
    pub fn new(alloc: Global) -> Result<Image, AllocError>
        ensures { IfOk result (λ i. i ≡ []) }
    {
        Ok(Image {
            pairs: Vec::with_capacity(alloc, 256)?,
        })
    }

    /// Appends `byte` with the address `at`, which must be above all addresses in the image. Fails and leaves the
    /// image unchanged if memory cannot be allocated.
    pub fn push(&mut self, at: Addr, byte: u8) -> Result<(), AllocError>
        requires { All (λ p. p.0 < at) self.old }
        ensures added { OnOk result (self.new ≡ self.old ++ (at, byte) ∷ []) }
        ensures unchanged { OnErr result (self.new ≡ self.old) }
    {
        self.pairs.push((at, byte))?;
        Ok(())
    }

    /// Returns the bytes with their addresses, in ascending order of address. The image has at most 4,096 bytes.
    pub fn pairs(&self) -> &[(Addr, u8)]
        ensures pairs { result.now ≡ self.now }
        ensures image { IsImage result.now }
        ensures few { length result.now ≤ 4096 }
    {
        &self.pairs
    }
}
