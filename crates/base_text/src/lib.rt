// Characters: numbers in decimal and bytes in hex.

#![tactic(auto)]

ghost use Rattle.std.specs.Prelude.{◌≡◌, ◌+◌, ◌≤◌, ◌<◌, length};
ghost use Rattle.base_layout.specs.Bytes.{pasted};
ghost use Rattle.base_text.specs.Digits.{hex_digit, decimal};

pub fn hex_digit(d: u8) -> u8
    requires { d < 16 }
    ensures { result ≡ hex_digit d }
{
    if d < 10 { b'0' + d } else { b'A' + (d - 10) }
}

// A number in decimal; how many digits it has.
pub fn put_decimal(out: &mut [u8], at: usize, n: u64) -> usize
    requires { at + length (decimal n) ≤ length out.old }
    ensures value { result ≡ length (decimal n) }
    ensures out_after { out.new ≡ pasted at (decimal n) out.old }
{
    let mut digits = [0u8; 20];
    digits[19] = b'0' + (n % 10) as u8;
    let mut rest = n / 10;
    let mut i: usize = 19;
    // no loop over the places: it ends where the number does
    while 0 < rest {
        i -= 1;
        digits[i] = b'0' + (rest % 10) as u8;
        rest /= 10;
    }
    base_layout::put_all(out, at, &digits[i..]);
    20 - i
}
