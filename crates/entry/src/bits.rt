// Fields of 128 bits.
ghost use Rattle.std.specs.Prelude.{◌≡◌, ◌+◌, ◌-◌, ◌^◌, ◌<◌, ◌≤◌, ◌==◌};
ghost use Rattle.packed.specs.Packed.{bits as bits_of, is_set};

// Bits hi to lo: two numbers and no range or struct, so that `field(bits, 83, 82)` reads as the layouts do.
pub(crate) fn field(bits: u128, hi: u32, lo: u32) -> u128
    requires { (lo ≤ hi) × ((hi < 127 + lo) × (lo < 128)) }
    ensures value { result ≡ bits_of hi lo bits }
    ensures bound { result < 2 ^ (hi + 1 - lo) }
{
    (bits >> lo) & ((1 << (hi + 1 - lo)) - 1)
}

pub(crate) fn is_set(bits: u128, k: u32) -> bool
    requires { k < 128 }
    ensures { result ≡ is_set k bits }
{
    field(bits, k, k) == 1
}

// Whether bits hi to lo are all zero.
pub(crate) fn is_zero(bits: u128, hi: u32, lo: u32) -> bool
    requires { (lo ≤ hi) × ((hi < 127 + lo) × (lo < 128)) }
    ensures { result ≡ (bits_of hi lo bits == 0) }
{
    field(bits, hi, lo) == 0
}
