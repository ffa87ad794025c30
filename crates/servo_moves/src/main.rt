// Walks moves and filter ticks, and writes the speeds and the outputs.

#![tactic(auto)]

ghost use Rattle.std.specs.Prelude.{◌≡◌, ◌≤◌, ◌<◌, ◌^◌, nat_abs};
ghost use Rattle.servo_motion.specs.Profile.{fastest};
ghost use Rattle.servo_filter.specs.Filter.{Kept, blank, told};
ghost use Rattle.servo_filter.specs.Promises.{Ranged as Gains-as-Ranged};
ghost use Rattle.servo_moves.specs.Steps.{Moving};

use servo_filter::{Filtered, Gains, Memory};
use servo_motion::Profile;

// A space and the number. Here and below, what can't be written is passed over.
fn write(out: &impl Print, z: i64)
    requires { nat_abs z < 2 ^ 63 }
{
    let _ = print!(out; " {z}");
}

// So many ticks, each by this step.
fn ticks<F: Fn(Profile) -> Profile>(step: &F, start: Profile, count: u32) -> Profile
    requires callable { (p : _) → Moving p → F.pre step.now p }
    requires keeps { (p q : _) → Moving p → F.post step.now p q → Moving q }
    requires moving { Moving start }
    ensures { Moving result }
{
    let mut p = start;
    for _ in 0..count {
        p = step(p);
    }
    p
}

// The setpoint's whole part and fraction.
fn place(out: &impl Print, setpoint: u64)
    requires { setpoint < 2 ^ 48 }
{
    let _ = println!(out;
        " at {} {}",
        servo_motion::whole(setpoint),
        setpoint % 65536
    );
}

// The speed after every so many ticks, each by this step, and where that ends.
fn walk<F: Fn(Profile) -> Profile>(out: &impl Print, step: F, start: Profile, every: u32, rows: u32)
    requires callable { (p : _) → Moving p → F.pre step p }
    requires keeps { (p q : _) → Moving p → F.post step p q → Moving q }
    requires moving { Moving start }
{
    let mut p = start;
    for _ in 0..rows {
        p = ticks(&step, p, every);
        write(out, p.speed);
    }
    place(out, p.setpoint);
}

// A trapezoid from rest.
#[tactic(auto, using(crate::proofs::Steps::trapezoid_kept))]
fn trapezoid(
    out: &impl Print,
    setpoint: u64,
    goal: u32,
    acceleration: u32,
    top: u32,
    every: u32,
    rows: u32,
)
    requires { (setpoint < 2 ^ 48) × (0 < acceleration) × (acceleration ≤ fastest) × (top ≤ fastest) }
{
    let p = Profile {
        setpoint,
        speed: 0,
        goal,
        aim: 0,
        acceleration,
        top,
    };
    walk(out, |p: Profile| p.by_trapezoid(), p, every, rows);
}

// Velocity mode from a setpoint of 0.
#[tactic(auto, using(crate::proofs::Steps::velocity_kept))]
fn velocity(out: &impl Print, speed: i64, aim: i64, acceleration: u32, rows: u32)
    requires { (nat_abs speed ≤ fastest) × (nat_abs aim ≤ fastest) × (0 < acceleration) × (acceleration ≤ fastest) }
{
    let p = Profile {
        setpoint: 0,
        speed,
        goal: 0,
        aim,
        acceleration,
        top: 0,
    };
    walk(out, |p: Profile| p.by_velocity(), p, 1, rows);
}

// The output, with a word if it was cut, or off; and the memory that is kept.
fn answered(out: &impl Print, f: Filtered) -> Memory
    requires { nat_abs (told f).output < 256 }
    ensures { result ≡ (told f).memory }
{
    match f {
        Filtered::Plain(m, output) => {
            write(out, output);
            m
        }
        Filtered::Cut(m, output) => {
            write(out, output);
            let _ = print!(out; " cut");
            m
        }
        Filtered::Off => {
            let _ = print!(out; " off");
            blank()
        }
    }
}

// With what the filter asks of a memory; the program stands on the filter alone.
fn blank() -> Memory
    ensures { (result ≡ blank) × Kept result }
{
    Memory {
        integral: 0,
        previous: 0,
    }
}

// The outputs at these positions, one a tick, and the memory after them.
fn outputs(out: &impl Print, g: Gains, start: Memory, setpoint: u32, positions: &[u32]) -> Memory
    requires gains_ranged { Gains-as-Ranged g }
    requires kept { Kept start }
    ensures { Kept result }
{
    let mut m = start;
    for position in positions {
        m = answered(out, servo_filter::filter(g, m, setpoint, *position));
    }
    let _ = println!(out);
    m
}

// The bench sheet's moves, their mirror images, and the shortest one.
fn bench(out: &impl Print) {
    trapezoid(out, 65524, 1, 2, 5, 1, 6);
    trapezoid(out, 65525, 1, 2, 5, 1, 6);
    trapezoid(out, 12, 0, 2, 5, 1, 6);
    trapezoid(out, 11, 0, 2, 5, 1, 6);
    trapezoid(out, 65535, 1, 2, 5, 1, 3);
    velocity(out, 5, -5, 2, 6);
}

// Across 2 ^ 31 and across 0, both ways, and as far as a position can be.
fn wraps(out: &impl Print) {
    trapezoid(out, 0x7FFF_FFFE_0000, 0x8000_0002, 40000, 90000, 1, 7);
    trapezoid(out, 0x8000_0002_8000, 0x7FFF_FFFE, 40000, 90000, 1, 8);
    trapezoid(out, 0xFFFF_FFFF_4000, 2, 50000, 70000, 1, 6);
    trapezoid(out, 0x0000_0001_C000, 0xFFFF_FFFE, 50000, 70000, 1, 7);
    trapezoid(
        out,
        0x0000_0000_0007,
        0x7FFF_FFFF,
        83886080,
        83886080,
        10,
        4,
    );
    trapezoid(
        out,
        0x0000_0000_0007,
        0x8000_0000,
        83886080,
        83886080,
        10,
        4,
    );
}

// Acceleration above the greatest speed, far above it, and a single step; then long moves, every so many ticks.
fn limits(out: &impl Print) {
    trapezoid(out, 0, 1, 50000, 30000, 1, 5);
    trapezoid(out, 0, 0xFFFF_FFFF, 83886080, 30000, 1, 5);
    trapezoid(out, 65535, 1, 83886080, 83886080, 1, 3);
    trapezoid(out, 0, 5000, 300, 300000, 100, 22);
    trapezoid(out, 0x1234_5678_9ABC, 0x1234_0000, 777, 123456, 1000, 14);
    trapezoid(out, 65536, 4, 1, 83886080, 100, 10);
}

// Velocity mode up and down, to its own speed, and at both ends of its range.
fn velocities(out: &impl Print) {
    velocity(out, -7, 20, 10, 4);
    velocity(out, 100, 100, 1, 2);
    velocity(out, 3, -40, 83886080, 3);
    velocity(out, -83886080, 83886080, 83886080, 4);
    velocity(out, 83886080, -83886080, 1, 3);
}

// A 256th toward zero.
fn small_errors(out: &impl Print) {
    let positions = [255u32, 256, 4294967041, 4294967040, 0];
    let g = Gains {
        kp: 1,
        kd: 0,
        ki: 0,
        il: 0,
        ol: 255,
        el: 16383,
    };
    outputs(out, g, blank(), 0, &positions);
}

// All three gains k, the limits at their greatest.
fn gains(k: u16) -> Gains
    requires { k ≤ 32767 }
    ensures { Gains-as-Ranged result }
{
    Gains {
        kp: k,
        kd: k,
        ki: k,
        il: 32767,
        ol: 255,
        el: 16383,
    }
}

// With gains of 0 nothing is cut, and the integral winds up; then gains at their greatest, and the error that brings u to its bound. So they cut at once,
// and the integral stays 0.
fn greatest_gains(out: &impl Print) {
    let winding = [2147467265u32, 2147467265, 2147467265, 2147500031];
    let last = [2147467265u32];
    let wound = outputs(out, gains(0), blank(), 2147483648, &winding);
    outputs(out, gains(32767), wound, 2147483648, &last);
    outputs(out, gains(32767), blank(), 2147483648, &winding);
}

// A held integral, outputs that are cut, and an error above the limit.
fn held_integral(out: &impl Print) {
    let positions = [500u32, 200, 700, 1200, 3000, 3001, 1000];
    let g = Gains {
        kp: 9,
        kd: 5,
        ki: 30,
        il: 1000,
        ol: 100,
        el: 2000,
    };
    outputs(out, g, blank(), 1000, &positions);
}

fn main(rt: HostRuntime) {
    bench(&rt);
    wraps(&rt);
    limits(&rt);
    velocities(&rt);
    small_errors(&rt);
    greatest_gains(&rt);
    held_integral(&rt);
}
