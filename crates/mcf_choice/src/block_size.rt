//! Sizes of blocks.
ghost use Rattle.std.specs.Prelude.{◌≡◌, SomeIff};
ghost use Rattle.mcf_choice.specs.BlockSizes.{IsBlockSize, standard_block};

use std::marker::Model;

/// The number of arcs in a block of block pricing: 1 to 1,000,000.
#[derive(Clone, Copy, Debug, PartialEq, Eq)]
pub struct BlockSize {
    size: u32,
}

impl Model for BlockSize {
    ghost use Rattle.std.specs.Prelude.{ℕ};
    ghost use Rattle.mcf_choice.specs.BlockSizes.{IsBlockSize};

    ghost Value = { ℕ };

    ghost view = { λ b. b.size };

    ghost invariant = { λ b. IsBlockSize b.size };

    ghost inverse = { λ n. record { size = n } };
}

impl BlockSize {
    /// This size, if a block may have it: from 1 to 1,000,000.
    pub fn new(size: u32) -> Option<BlockSize>
        ensures { SomeIff result (IsBlockSize size) size }
    {
        if 1 <= size && size <= 1_000_000 {
            Some(BlockSize { size })
        } else {
            None
        }
    }

    /// 256 arcs.
    pub fn standard() -> BlockSize
        ensures { result ≡ standard_block }
    {
        BlockSize { size: 256 }
    }

    /// The number of arcs.
    pub fn get(self) -> u32
        ensures value { result ≡ self }
        ensures range { IsBlockSize result }
    {
        self.size
    }
}
