// The servo's filter: from the following error to the output.

#![tactic(auto)]

ghost use Rattle.std.specs.Prelude.{◌≡◌, ◌<◌, ◌^◌, nat_abs, pos, ◌+ℤ◌, ◌*ℤ◌};
ghost use Rattle.std.specs.Int.Signed.{quot_z};
ghost use Rattle.std.specs.Int.{w64};
ghost use Rattle.std.proofs.Common.{SFits};
ghost use Rattle.base_integers.specs.Whole.{difference};
ghost use Rattle.servo_filter.specs.Filter.{Kept, held, limited, drive, answered, filtered};

// Gains and limits, as Set Gain brings them: IL holds the integral, OL the output, and past EL the servo goes off.
#[derive(Clone, Copy)]
pub struct Gains {
    pub kp: u16,
    pub kd: u16,
    pub ki: u16,
    pub il: u16,
    pub ol: u8,
    pub el: u16,
}

// What the filter keeps from tick to tick: the integral and the previous error.
#[derive(Clone, Copy)]
pub struct Memory {
    pub integral: i64,
    pub previous: i64,
}

// What holding an output to its limits leaves of it: all of it, or the limit that it lay above or below. Both sides are cases: the promises speak of each.
#[derive(Clone, Copy)]
pub enum Limited {
    Plain(i64),
    Above(i64),
    Below(i64),
}

// What a tick of the filter comes to: its new memory and the output, plain or cut to its limit; or off.
#[derive(Clone, Copy)]
pub enum Filtered {
    Plain(Memory, i64),
    Cut(Memory, i64),
    Off,
}

// z held to -limit..limit.
pub fn hold(limit: u16, z: i64) -> i64
    ensures { result ≡ held limit z }
{
    let high = limit as i64;
    z.clamp(-high, high)
}

// An output held to its limits, and whether that cut anything off it, and on which side.
fn limit(ol: u8, z: i64) -> Limited
    ensures { result ≡ limited ol z }
{
    let output = hold(ol as u16, z);
    if output < z {
        return Limited::Above(output);
    }
    if z < output {
        return Limited::Below(output);
    }
    Limited::Plain(output)
}

// A gain times a number.
fn times(k: u16, z: i64) -> i64
    requires { nat_abs z < 2 ^ 17 }
    ensures { result ≡ pos k *ℤ z }
{
    (k as i64) * z
}

// The three parts of the drive, added up.
fn total(p: i64, d: i64, i: i64) -> i64
    requires sfits { SFits w64 (p +ℤ d) }
    requires sfits_2 { SFits w64 (p +ℤ d +ℤ i) }
    ensures { result ≡ p +ℤ d +ℤ i }
{
    p + d + i
}

// What drives the motor, in 256ths of an output.
fn drive(g: Gains, e: i64, previous: i64, integral: i64) -> i64
    requires { (nat_abs e < 2 ^ 16) × (nat_abs previous < 2 ^ 16) × (nat_abs integral < 2 ^ 16) }
    ensures { result ≡ drive g e previous integral }
{
    total(
        times(g.kp, e),
        times(g.kd, e - previous),
        times(g.ki, integral),
    )
}

// A 256th, toward zero.
fn scaled(u: i64) -> i64
    requires { SFits w64 (quot_z u (pos 256)) }
    ensures { result ≡ quot_z u (pos 256) }
{
    u / 256
}

fn remembered(integral: i64, previous: i64) -> Memory
    ensures { result ≡ record { integral = integral; previous = previous } }
{
    Memory { integral, previous }
}

// Where the output was cut, the integral goes back to its former number. Each side has an arm, since a pattern of both that binds a signed number gets no
// proof.
fn answered(a: Limited, new: i64, former: i64, e: i64) -> Filtered
    ensures { result ≡ answered a new former e }
{
    match a {
        Limited::Plain(output) => Filtered::Plain(remembered(new, e), output),
        Limited::Above(output) => Filtered::Cut(remembered(former, e), output),
        Limited::Below(output) => Filtered::Cut(remembered(former, e), output),
    }
}

// The filter at the error e.
fn at_error(g: Gains, m: Memory, e: i64) -> Filtered
    requires kept { Kept m }
    requires e_bound { nat_abs e < 2 ^ 32 }
    ensures { result ≡ filtered g m e }
{
    if (g.el as u64) < e.unsigned_abs() {
        return Filtered::Off;
    }
    let sum = m.integral + e;
    let integral = hold(g.il, sum);
    let u = drive(g, e, m.previous, integral);
    answered(limit(g.ol, scaled(u)), integral, m.integral, e)
}

// A tick of the filter, from the setpoint's whole part and the position.
pub fn filter(g: Gains, m: Memory, setpoint: u32, position: u32) -> Filtered
    requires { Kept m }
    ensures { result ≡ filtered g m (difference setpoint position) }
{
    at_error(g, m, base_integers::difference(setpoint, position))
}
