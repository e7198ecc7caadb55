// A fixed array of bits, eight to a byte.
ghost use Rattle.std.specs.Prelude.{◌≡◌, ◌^◌, ◌<◌, ℕ, List, replicate, length};
ghost use Rattle.matter_idl.specs.inner.bits.{bits_size, has_bit, BitSet};

use std::marker::Model;

// The bytes of 2^19 bits.
const BITS_SIZE: usize = 0x1_0000;

#[derive(Drop)]
pub struct Bits {
    bytes: [u8; BITS_SIZE],
}

impl Model for Bits {
    ghost Value = { List ℕ };

    ghost view = { λ b. b.bytes };

    ghost invariant = { λ b. length b.bytes ≡ bits_size };
}

impl Bits {
    // All bits are clear. It is built where the caller keeps it.
    #[inline(always)]
    pub fn new() -> Self
        ensures { result ≡ replicate bits_size 0 }
    {
        Bits {
            bytes: [0; BITS_SIZE],
        }
    }

    pub fn has(&self, i: usize) -> bool
        requires { i < 2 ^ 19 }
        ensures { result ≡ has_bit self.now i }
    {
        self.bytes[i / 8] >> (i % 8) & 1 == 1
    }

    pub fn set(&mut self, i: usize)
        requires { i < 2 ^ 19 }
        ensures { BitSet self.new self.old i }
    {
        let at = i / 8;
        self.bytes[at] |= 1 << (i % 8);
    }
}
