// Whole numbers with a sign, each in an `i64`, and 32-bit numbers that stand for them; the bits of a byte.

#![tactic(auto)]

ghost use Rattle.std.specs.Prelude.{◌≡◌, ◌^◌, ◌<◌, nat_le, unsigned_abs};
ghost use Rattle.base_integers.specs.Bits.{is_set};
ghost use Rattle.base_integers.specs.Whole.{same, less, signed, word, difference};

// Whether z is from -limit to limit.
pub fn is_within(limit: u32, z: i64) -> bool
    ensures { result ≡ nat_le (unsigned_abs z) limit }
{
    let limit = i64::from(limit);
    (-limit..=limit).contains(&z)
}

// The number that these 32 bits stand for in two's complement.
pub fn signed(n: u32) -> i64
    ensures { result ≡ signed n }
{
    i64::from(n.cast_signed())
}

// The 32 bits that stand for z in two's complement.
pub fn word(z: i64) -> u32
    ensures { result ≡ word z }
{
    (z.cast_unsigned() % 0x1_0000_0000) as u32
}

// x minus y, wrapped at 32 bits.
pub fn less(x: u32, y: u32) -> u32
    ensures { result ≡ less x y }
{
    x.wrapping_sub(y)
}

// The same, signed.
pub fn difference(x: u32, y: u32) -> i64
    ensures { result ≡ difference x y }
{
    signed(less(x, y))
}

// Whether bit k of a byte is set. The library has no test of one bit.
pub fn is_set(k: u8, b: u8) -> bool
    requires { k < 8 }
    ensures { result ≡ is_set k b }
{
    (b >> k) % 2 == 1
}
