// The parts of a servo as bytes. The number of a way and of a mode is its place in the enum.

#![tactic(auto)]

ghost use Rattle.std.specs.Prelude.{◌≡◌, ◌++◌};
ghost use Rattle.base_layout.specs.Bytes.{le};
ghost use Rattle.servo_slot_rules.specs.Slot.{sample, counts, tuning, rates, load, memory, drive, homing};

use servo_filter::Memory;
use servo_rules::{Counts, Drive, Homing, Load, Rates, Sample, Tuning};

// The setpoint of a profile.
const SETPOINT_LEN: usize = servo_slot_rules::SPEED_AT - servo_slot_rules::SETPOINT_AT;

pub fn sample_bytes(x: Sample) -> [u8; servo_slot_rules::SAMPLE_LEN]
    ensures { result ≡ sample.codec.enc x }
{
    let [a, b, c, d] = x.raw.to_le_bytes();
    [x.power, x.ad, a, b, c, d, x.inputs]
}

// Two numbers of four bytes.
fn pair_bytes(x: u32, y: u32) -> [u8; 8]
    ensures { result ≡ le 4 x ++ le 4 y }
{
    let [a, b, c, d] = x.to_le_bytes();
    let [e, f, g, h] = y.to_le_bytes();
    [a, b, c, d, e, f, g, h]
}

pub fn counts_bytes(k: Counts) -> [u8; servo_slot_rules::COUNTS_LEN]
    ensures { result ≡ counts.codec.enc k }
{
    pair_bytes(k.offset, k.last)
}

pub fn tuning_bytes(t: Tuning) -> [u8; servo_slot_rules::TUNING_LEN]
    ensures { result ≡ tuning.codec.enc t }
{
    let g = t.gains;
    let [kp0, kp1] = g.kp.to_le_bytes();
    let [kd0, kd1] = g.kd.to_le_bytes();
    let [ki0, ki1] = g.ki.to_le_bytes();
    let [il0, il1] = g.il.to_le_bytes();
    let [el0, el1] = g.el.to_le_bytes();
    [
        kp0, kp1, kd0, kd1, ki0, ki1, il0, il1, g.ol, el0, el1, t.cl, t.sm,
    ]
}

pub fn rates_bytes(r: Rates) -> [u8; servo_slot_rules::RATES_LEN]
    ensures { result ≡ rates.codec.enc r }
{
    let [a, b, c, d] = r.velocity.to_le_bytes();
    let [e, f, g, h] = r.acceleration.to_le_bytes();
    [a, b, c, d, e, f, g, h, r.paced as u8, r.ramped as u8]
}

pub fn load_bytes(l: Load) -> [u8; servo_slot_rules::LOAD_LEN]
    ensures { result ≡ load.codec.enc l }
{
    let [a, b, c, d] = l.place.to_le_bytes();
    [
        l.waits as u8,
        l.way as u8,
        l.placed as u8,
        a,
        b,
        c,
        d,
        l.pulsed as u8,
        l.pulse,
        l.reverse as u8,
    ]
}

pub fn setpoint_bytes(x: u64) -> [u8; SETPOINT_LEN]
    ensures { result ≡ le 6 x }
{
    let [a, b, c, d, e, f, _, _] = x.to_le_bytes();
    [a, b, c, d, e, f]
}

pub fn memory_bytes(y: Memory) -> [u8; servo_slot_rules::MEMORY_LEN]
    ensures { result ≡ memory.codec.enc y }
{
    pair_bytes(
        base_integers::word(y.integral),
        base_integers::word(y.previous),
    )
}

pub fn drive_bytes(d: Drive) -> [u8; servo_slot_rules::DRIVE_LEN]
    ensures { result ≡ drive.codec.enc d }
{
    let [p0, p1, p2, p3] = base_integers::word(d.pulse).to_le_bytes();
    let [o0, o1, o2, o3] = base_integers::word(d.output).to_le_bytes();
    [
        d.mode as u8,
        p0,
        p1,
        p2,
        p3,
        o0,
        o1,
        o2,
        o3,
        d.error as u8,
        d.amplifier as u8,
        d.cut as u8,
    ]
}

pub fn homing_bytes(h: Homing) -> [u8; servo_slot_rules::HOMING_LEN]
    ensures { result ≡ homing.codec.enc h }
{
    let [a, b, c, d] = h.home.to_le_bytes();
    [a, b, c, d, h.byte]
}
