// A servo, or a part of it, put into its slot of the record.

#![tactic(auto)]

ghost use Rattle.std.specs.Prelude.{◌≡◌, ◌≤◌, length};
ghost use Rattle.base_integers.specs.Whole.{word};
ghost use Rattle.base_layout.specs.Bytes.{le, pasted};
ghost use Rattle.servo_slot_rules.specs.Slot.{profile, rates_at, profile_at, speed_at, servo_size, encode_of};
ghost use Rattle.servo_slot_rules.specs.Parts.{front_of, back_of, ticked_over};

use servo_motion::Profile;
use servo_rules::{Run, Sample, Servo};

const PROFILE_LEN: usize = servo_slot_rules::MEMORY_AT - servo_slot_rules::PROFILE_AT;

// One array, so that a profile is put by plain stores: the setpoint, then speed, goal, aim, acceleration and top.
fn profile_bytes(p: Profile) -> [u8; PROFILE_LEN]
    ensures { result ≡ profile.codec.enc p }
{
    let [p0, p1, p2, p3, p4, p5] = servo_slot_bytes::setpoint_bytes(p.setpoint);
    let [s0, s1, s2, s3] = base_integers::word(p.speed).to_le_bytes();
    let [g0, g1, g2, g3] = p.goal.to_le_bytes();
    let [m0, m1, m2, m3] = base_integers::word(p.aim).to_le_bytes();
    let [a0, a1, a2, a3] = p.acceleration.to_le_bytes();
    let [t0, t1, t2, t3] = p.top.to_le_bytes();
    [
        p0, p1, p2, p3, p4, p5, s0, s1, s2, s3, g0, g1, g2, g3, m0, m1, m2, m3, a0, a1, a2, a3, t0,
        t1, t2, t3,
    ]
}

// Puts what stands before the rates.
fn put_front(s: &mut [u8], m: Servo)
    requires { servo_size ≤ length s.old }
    ensures { s.new ≡ pasted 0 (front_of m) s.old }
{
    let head = module_station::head_bytes(servo_rules::TYPE, m.station);
    let latched = servo_slot_bytes::sample_bytes(m.latched);
    let counts = servo_slot_bytes::counts_bytes(m.counts);
    let tuning = servo_slot_bytes::tuning_bytes(m.settings.tuning);
    base_layout::put_all(s, 0, &head);
    base_layout::put_all(s, servo_slot_rules::LATCHED_AT, &latched);
    base_layout::put_all(s, servo_slot_rules::COUNTS_AT, &counts);
    base_layout::put_all(s, servo_slot_rules::TUNING_AT, &tuning);
}

// Puts the rates and what stands after them.
fn put_back(s: &mut [u8], m: Servo)
    requires { servo_size ≤ length s.old }
    ensures { s.new ≡ pasted rates_at (back_of m) s.old }
{
    let rates = servo_slot_bytes::rates_bytes(m.settings.rates);
    let load = servo_slot_bytes::load_bytes(m.settings.load);
    let profile = profile_bytes(m.run.profile);
    let memory = servo_slot_bytes::memory_bytes(m.run.memory);
    let drive = servo_slot_bytes::drive_bytes(m.run.drive);
    let homing = servo_slot_bytes::homing_bytes(m.homing);
    base_layout::put_all(s, servo_slot_rules::RATES_AT, &rates);
    base_layout::put_all(s, servo_slot_rules::LOAD_AT, &load);
    base_layout::put_all(s, servo_slot_rules::PROFILE_AT, &profile);
    base_layout::put_all(s, servo_slot_rules::MEMORY_AT, &memory);
    base_layout::put_all(s, servo_slot_rules::DRIVE_AT, &drive);
    base_layout::put_all(s, servo_slot_rules::HOME_AT, &homing);
}

// Puts a servo into a slot, from the slot's start on.
pub fn put(s: &mut [u8], m: Servo)
    requires { servo_size ≤ length s.old }
    ensures { s.new ≡ pasted 0 (encode_of m) s.old }
{
    put_front(s, m);
    put_back(s, m);
}

// Puts the setpoint and the speed of a profile into a slot.
fn put_pace(s: &mut [u8], p: Profile)
    requires { servo_size ≤ length s.old }
    ensures { s.new ≡ pasted speed_at (le 4 (word p.speed)) (pasted profile_at (le 6 p.setpoint) s.old) }
{
    let speed = base_integers::word(p.speed);
    let setpoint = servo_slot_bytes::setpoint_bytes(p.setpoint);
    base_layout::put_all(s, servo_slot_rules::SETPOINT_AT, &setpoint);
    base_layout::put_number(s, servo_slot_rules::SPEED_AT, 4, speed);
}

// Puts only what a tick changes where homing finds nothing: the latched sample, the position before the tick, setpoint and speed, memory and drive.
#[tactic(auto, unfolding(servo_slot_rules::specs::Parts::ticked_over))]
pub fn put_ticked(s: &mut [u8], x: Sample, last: u32, r: Run)
    requires { servo_size ≤ length s.old }
    ensures { s.new ≡ ticked_over x last r s.old }
{
    let latched = servo_slot_bytes::sample_bytes(x);
    let memory = servo_slot_bytes::memory_bytes(r.memory);
    let drive = servo_slot_bytes::drive_bytes(r.drive);
    base_layout::put_all(s, servo_slot_rules::LATCHED_AT, &latched);
    base_layout::put_number(s, servo_slot_rules::LAST_AT, 4, last);
    put_pace(s, r.profile);
    base_layout::put_all(s, servo_slot_rules::MEMORY_AT, &memory);
    base_layout::put_all(s, servo_slot_rules::DRIVE_AT, &drive);
}
