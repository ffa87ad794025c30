// A servo and its parts, read from its slot of the record.

#![tactic(auto)]

ghost use Rattle.std.specs.Prelude.{◌≡◌, ◌+◌, ◌≤◌, length};
ghost use Rattle.servo_slot_rules.specs.Slot.{way_in, mode_in, sample, counts, gains, tuning, rates, load, settings, profile, memory, drive, run, homing, latched_at, counts_at, tuning_at, rates_at, load_at, profile_at, memory_at, drive_at, homing_at, servo_size, decode_of};

use servo_filter::{Gains, Memory};
use servo_motion::Profile;
use servo_rules::{
    Counts, Drive, Homing, Load, Mode, Rates, Run, Sample, Servo, Settings, Tuning, Way,
};

// No `impl From`: it would stand with the enum in servo_rules, which has no function and knows no numbers of a slot.
fn way_in(b: u8) -> Way
    ensures { result ≡ way_in b }
{
    match b {
        0 => Way::Pulse,
        1 => Way::Speed,
        _ => Way::Move,
    }
}

fn mode_in(b: u8) -> Mode
    ensures { result ≡ mode_in b }
{
    match b {
        0 => Mode::Off,
        1 => Mode::Pwm,
        2 => Mode::Hold,
        3 => Mode::Velocity,
        _ => Mode::Trapezoid,
    }
}

// The sample that stands from a place on, in a slot or in a tick's list. A slot is a slice, and each contract says how long: slots are lent out of the
// record, and an array or a struct over one would be a conversion more in each public call.
pub fn sample_in(s: &[u8], at: usize) -> Sample
    requires { at + sample.codec.size ≤ length s.now }
    ensures { result ≡ sample.codec.dec at s.now }
{
    Sample {
        raw: base_layout::get4(s, at + 2),
        power: s[at],
        ad: s[at + 1],
        inputs: s[at + 6],
    }
}

// The sample that the last tick latched.
pub fn latched_in(s: &[u8]) -> Sample
    requires { servo_size ≤ length s.now }
    ensures { result ≡ sample.codec.dec latched_at s.now }
{
    sample_in(s, servo_slot_rules::LATCHED_AT)
}

pub fn counts_in(s: &[u8]) -> Counts
    requires { servo_size ≤ length s.now }
    ensures { result ≡ counts.codec.dec counts_at s.now }
{
    Counts {
        offset: base_layout::get4(s, servo_slot_rules::OFFSET_AT),
        last: base_layout::get4(s, servo_slot_rules::LAST_AT),
    }
}

pub fn gains_in(s: &[u8]) -> Gains
    requires { servo_size ≤ length s.now }
    ensures { result ≡ gains.codec.dec tuning_at s.now }
{
    Gains {
        kp: base_layout::get2(s, servo_slot_rules::KP_AT),
        kd: base_layout::get2(s, servo_slot_rules::KD_AT),
        ki: base_layout::get2(s, servo_slot_rules::KI_AT),
        il: base_layout::get2(s, servo_slot_rules::IL_AT),
        ol: s[servo_slot_rules::OL_AT],
        el: base_layout::get2(s, servo_slot_rules::EL_AT),
    }
}

fn tuning_in(s: &[u8]) -> Tuning
    requires { servo_size ≤ length s.now }
    ensures { result ≡ tuning.codec.dec tuning_at s.now }
{
    Tuning {
        gains: gains_in(s),
        cl: s[servo_slot_rules::CL_AT],
        sm: s[servo_slot_rules::SM_AT],
    }
}

// Flags beside values and no `Option`, here as in a load: where nothing was loaded or waits the other bytes come back as they were read, whatever they
// are (`there` of `Lawful`, proofs/Codec.antt of base_layout).
pub fn rates_in(s: &[u8]) -> Rates
    requires { servo_size ≤ length s.now }
    ensures { result ≡ rates.codec.dec rates_at s.now }
{
    Rates {
        velocity: base_layout::get4(s, servo_slot_rules::VELOCITY_AT),
        acceleration: base_layout::get4(s, servo_slot_rules::ACCELERATION_AT),
        paced: s[servo_slot_rules::PACED_AT] == 1,
        ramped: s[servo_slot_rules::RAMPED_AT] == 1,
    }
}

fn load_in(s: &[u8]) -> Load
    requires { servo_size ≤ length s.now }
    ensures { result ≡ load.codec.dec load_at s.now }
{
    Load {
        waits: s[servo_slot_rules::WAITS_AT] == 1,
        way: way_in(s[servo_slot_rules::WAY_AT]),
        placed: s[servo_slot_rules::PLACED_AT] == 1,
        place: base_layout::get4(s, servo_slot_rules::PLACE_AT),
        pulsed: s[servo_slot_rules::PULSED_AT] == 1,
        pulse: s[servo_slot_rules::PULSE_AT],
        reverse: s[servo_slot_rules::REVERSE_AT] == 1,
    }
}

fn settings_in(s: &[u8]) -> Settings
    requires { servo_size ≤ length s.now }
    ensures { result ≡ settings.codec.dec tuning_at s.now }
{
    Settings {
        tuning: tuning_in(s),
        rates: rates_in(s),
        load: load_in(s),
    }
}

fn profile_in(s: &[u8]) -> Profile
    requires { servo_size ≤ length s.now }
    ensures { result ≡ profile.codec.dec profile_at s.now }
{
    Profile {
        setpoint: base_layout::get6(s, servo_slot_rules::SETPOINT_AT),
        speed: base_layout::get_whole(s, servo_slot_rules::SPEED_AT),
        goal: base_layout::get4(s, servo_slot_rules::GOAL_AT),
        aim: base_layout::get_whole(s, servo_slot_rules::AIM_AT),
        acceleration: base_layout::get4(s, servo_slot_rules::FORCE_AT),
        top: base_layout::get4(s, servo_slot_rules::TOP_AT),
    }
}

fn memory_in(s: &[u8]) -> Memory
    requires { servo_size ≤ length s.now }
    ensures { result ≡ memory.codec.dec memory_at s.now }
{
    Memory {
        integral: base_layout::get_whole(s, servo_slot_rules::INTEGRAL_AT),
        previous: base_layout::get_whole(s, servo_slot_rules::PREVIOUS_AT),
    }
}

pub fn drive_in(s: &[u8]) -> Drive
    requires { servo_size ≤ length s.now }
    ensures { result ≡ drive.codec.dec drive_at s.now }
{
    Drive {
        mode: mode_in(s[servo_slot_rules::MODE_AT]),
        pulse: base_layout::get_whole(s, servo_slot_rules::DUTY_AT),
        output: base_layout::get_whole(s, servo_slot_rules::OUTPUT_AT),
        error: s[servo_slot_rules::ERROR_AT] == 1,
        amplifier: s[servo_slot_rules::AMPLIFIER_AT] == 1,
        cut: s[servo_slot_rules::CUT_AT] == 1,
    }
}

pub fn run_in(s: &[u8]) -> Run
    requires { servo_size ≤ length s.now }
    ensures { result ≡ run.codec.dec profile_at s.now }
{
    Run {
        profile: profile_in(s),
        memory: memory_in(s),
        drive: drive_in(s),
    }
}

pub fn homing_in(s: &[u8]) -> Homing
    requires { servo_size ≤ length s.now }
    ensures { result ≡ homing.codec.dec homing_at s.now }
{
    Homing {
        home: base_layout::get4(s, servo_slot_rules::HOME_AT),
        byte: s[servo_slot_rules::HOMING_AT],
    }
}

// The servo in a slot.
#[tactic(auto, unfolding(servo_slot_rules::specs::Slot::decode_of))]
pub fn decode(s: &[u8]) -> Servo
    requires { servo_size ≤ length s.now }
    ensures { result ≡ decode_of s.now }
{
    Servo {
        station: module_station::station_in(s),
        latched: latched_in(s),
        counts: counts_in(s),
        settings: settings_in(s),
        run: run_in(s),
        homing: homing_in(s),
    }
}
