// What a call returns: a number in the top 8 bits, which is that of the refusal or 0, and its value below.
ghost use Rattle.std.specs.Prelude.{◌≡◌, ◌+◌, ◌*◌, ◌≤◌, ◌<◌};
ghost use Rattle.lexing.specs.answers.{number_of};
ghost use Rattle.matter_idl.specs.interface.{value_limit, number_unit};

use lexing::answers::Refusal;

// The largest value that a result has room for, and one of the number above it.
pub const VALUE_LIMIT: usize = 0xff_ffff_ffff_ffff;

const NUMBER_UNIT: u64 = 0x100_0000_0000_0000;

pub fn packed(number: usize, value: usize) -> u64
    requires number_bound { number < 256 }
    requires value_le_value_limit { value ≤ value_limit }
    ensures { result ≡ number * number_unit + value }
{
    number as u64 * NUMBER_UNIT + value as u64
}

pub fn refused(refusal: Refusal, value: usize) -> u64
    requires { value ≤ value_limit }
    ensures { result ≡ number_of refusal * number_unit + value }
{
    packed(refusal.number(), value)
}
