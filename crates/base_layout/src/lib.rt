// Numbers of two, four and six bytes, least significant first, read from a slice; numbers and bytes put into one.

#![tactic(auto)]

ghost use Rattle.std.specs.Prelude.{◌≡◌, ◌+◌, ◌≤◌, ◌<◌, ◌∷◌, [], length, get_or, take, drop};
ghost use Rattle.base_integers.specs.Whole.{signed};
ghost use Rattle.base_layout.specs.Bytes.{le, of_le, read_at, pasted};

pub fn of2(a: u8, b: u8) -> u16
    ensures { result ≡ of_le (a ∷ b ∷ []) }
{
    u16::from_le_bytes([a, b])
}

pub fn of4(a: u8, b: u8, c: u8, d: u8) -> u32
    ensures { result ≡ of_le (a ∷ b ∷ c ∷ d ∷ []) }
{
    u32::from_le_bytes([a, b, c, d])
}

// The N bytes from place at on: what numbers of every width are read by.
fn bytes_at<const N: usize>(s: &[u8], at: usize) -> [u8; N]
    requires { at + N ≤ length s.now }
    ensures { result ≡ read_at N at s.now }
{
    let mut bytes = [0; N];
    bytes.copy_from_slice(&s[at..at + N]);
    bytes
}

pub fn get2(s: &[u8], at: usize) -> u16
    requires { at + 2 ≤ length s.now }
    ensures { result ≡ of_le (read_at 2 at s.now) }
{
    u16::from_le_bytes(bytes_at(s, at))
}

pub fn get4(s: &[u8], at: usize) -> u32
    requires { at + 4 ≤ length s.now }
    ensures { result ≡ of_le (read_at 4 at s.now) }
{
    u32::from_le_bytes(bytes_at(s, at))
}

pub fn get6(s: &[u8], at: usize) -> u64
    requires { at + 6 ≤ length s.now }
    ensures { result ≡ of_le (read_at 6 at s.now) }
{
    u64::from(get4(s, at)) + 0x1_0000_0000 * u64::from(get2(s, at + 4))
}

// A whole number of four bytes, in two's complement.
pub fn get_whole(s: &[u8], at: usize) -> i64
    requires { at + 4 ≤ length s.now }
    ensures { result ≡ signed (of_le (read_at 4 at s.now)) }
{
    base_integers::signed(get4(s, at))
}

// The byte at a place, 0 beyond the end.
pub fn byte_at(s: &[u8], i: usize) -> u8
    ensures { result ≡ get_or s.now i 0 }
{
    s.get(i).copied().unwrap_or(0)
}

// Puts all of src into dst from place at on.
pub fn put_all(dst: &mut [u8], at: usize, src: &[u8])
    requires { at + length src.now ≤ length dst.old }
    ensures { dst.new ≡ pasted at src.now dst.old }
{
    // no copy_from_slice, which tests for overlap: to put a receiver compiled to 31 instructions in place of 15
    for i in 0..src.len() {
        dst[at + i] = src[i];
    }
}

// Fills s with the bytes that spell x.
fn spell(s: &mut [u8], x: u32)
    ensures { s.new ≡ le (length s.old) x }
{
    let mut rest = x;
    for byte in s.iter_mut() {
        *byte = (rest % 256) as u8;
        rest /= 256;
    }
}

// Puts the k bytes of x into s from place at on. The width is a parameter, so the bytes come one by one.
pub fn put_number(s: &mut [u8], at: usize, k: usize, x: u32)
    requires { at + k ≤ length s.old }
    ensures { s.new ≡ pasted at (le k x) s.old }
{
    spell(&mut s[at..at + k], x);
}

// The number that the k bytes of s from place at on spell, from the last down: as a copy of k bytes a board would have to bring `memcpy`.
pub fn get_number(s: &[u8], at: usize, k: usize) -> u32
    requires { (at + k ≤ length s.now) × (k ≤ 4) }
    ensures { result ≡ of_le (take k (drop at s.now)) }
{
    let mut number: u32 = 0;
    for i in 0..k {
        number = number * 256 + s[at + (k - 1 - i)] as u32;
    }
    number
}
