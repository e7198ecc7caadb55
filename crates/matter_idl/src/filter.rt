// A filter before the search for an id: eight bits are set for the id of every global type, so an id that has one of its bits clear is that of none.
ghost use Rattle.std.specs.Prelude.{◌≡◌, ◌^◌, ◌<◌};
ghost use Rattle.matter_idl.specs.inner.filter.{id_bits, hash_of, position_of, MayHoldTo, Added};

use crate::bits::Bits;

// The bits of an id.
const ID_BITS: u32 = 8;

// The id of a type, which is its kind and the bytes of its name, as a number.
pub fn hash_of(kind: u8, name: &[u8]) -> u32
    ensures { result ≡ hash_of kind name.now }
{
    name.iter().fold(0x811c_9dc5 + u32::from(kind), |h, byte| {
        h.wrapping_add(u32::from(*byte)).wrapping_mul(0x100_0193)
    })
}

// The place of the j-th bit of a hash.
fn position(h: u32, j: u32) -> usize
    requires { j < id_bits }
    ensures value { result ≡ position_of h j }
    ensures upper_bound { result < 2 ^ 19 }
{
    let step = h / 0x8_0000 * 2 + 1;
    ((h % 0x8_0000 + j * step) % 0x8_0000) as usize
}

// Whether all bits of a hash are set.
pub fn may_hold(filter: &Bits, h: u32) -> bool
    ensures { MayHoldTo result filter.now h }
{
    for j in 0..ID_BITS {
        if !filter.has(position(h, j)) {
            return false;
        }
    }
    true
}

// Sets all bits of a hash.
pub fn add(filter: &mut Bits, h: u32)
    ensures { Added filter.new filter.old h }
{
    for j in 0..ID_BITS {
        filter.set(position(h, j));
    }
}
