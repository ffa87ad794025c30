// What runs in a servo, by value: what ticks, starts and stops all ask of it and make of it.

#![tactic(auto)]

ghost use Rattle.std.specs.Prelude.{◌≡◌, not, ◌&&◌};
ghost use Rattle.servo_filter.specs.Filter.{blank};
ghost use Rattle.servo_motion.specs.Profile.{Ranged};
ghost use Rattle.servo_rules.specs.State.{position_at, setpoint_at, good, servo_off, no_load, dropped, with_profile, resting, driving, erring, amplified, idled, off};
ghost use Rattle.servo_rules.specs.Loads.{at_rest, servoing, aimed, to_speed};

use servo_filter::Memory;
use servo_motion::Profile;
use servo_rules::{Counts, Drive, Load, Mode, Run, Sample, Settings, Way};

// The raw count less the offset.
pub fn position(x: Sample, k: Counts) -> u32
    ensures { result ≡ position_at x k }
{
    x.raw.wrapping_sub(k.offset)
}

// The setpoint at a position, without a fraction.
pub fn setpoint_at(x: u32) -> u64
    ensures { result ≡ setpoint_at x }
{
    65536 * (x as u64)
}

pub fn is_at_rest(r: Run) -> bool
    requires { Ranged r.profile }
    ensures { result ≡ at_rest r }
{
    r.profile.speed == 0
}

// Power is good and the error bit is clear.
pub fn is_ready(power: u8, d: Drive) -> bool
    ensures { result ≡ (good power && not d.error) }
{
    (power == 1) & !d.error
}

// PWM counts as servo off.
pub fn is_servo_off(mode: Mode) -> bool
    ensures { result ≡ servo_off mode }
{
    match mode {
        Mode::Off | Mode::Pwm => true,
        Mode::Hold | Mode::Velocity | Mode::Trapezoid => false,
    }
}

// What the filter remembers of nothing.
pub fn blank() -> Memory
    ensures { result ≡ blank }
{
    Memory {
        integral: 0,
        previous: 0,
    }
}

pub fn resting(p: Profile, setpoint: u64) -> Profile
    ensures { result ≡ resting setpoint p }
{
    Profile {
        setpoint,
        speed: 0,
        ..p
    }
}

fn driving(d: Drive, mode: Mode, pulse: i64, output: i64, cut: bool) -> Drive
    ensures { result ≡ driving mode pulse output cut d }
{
    Drive {
        mode,
        pulse,
        output,
        cut,
        ..d
    }
}

// On: output and cut bit stay until the tick.
pub fn servoing(d: Drive, mode: Mode) -> Drive
    ensures { result ≡ servoing mode d }
{
    Drive {
        mode,
        pulse: 0,
        ..d
    }
}

pub fn with_profile(r: Run, p: Profile) -> Run
    ensures { result ≡ with_profile p r }
{
    Run { profile: p, ..r }
}

// With this error bit.
pub fn erring(mut r: Run, e: bool) -> Run
    ensures { result ≡ erring e r }
{
    r.drive.error = e;
    r
}

// With this amplifier bit.
pub fn amplified(mut r: Run, a: bool) -> Run
    ensures { result ≡ amplified a r }
{
    r.drive.amplifier = a;
    r
}

// Speed, output, integral, previous error and cut bit 0.
pub fn idled(r: Run, mode: Mode, pulse: i64) -> Run
    ensures { result ≡ idled mode pulse r }
{
    Run {
        profile: resting(r.profile, r.profile.setpoint),
        memory: blank(),
        drive: driving(r.drive, mode, pulse, 0, false),
    }
}

pub fn off(r: Run) -> Run
    ensures { result ≡ off r }
{
    idled(r, Mode::Off, 0)
}

// Toward a goal speed, from the speed that it has.
fn aimed(p: Profile, setpoint: u64, aim: i64, a: u32) -> Profile
    ensures { result ≡ aimed setpoint aim a p }
{
    Profile {
        setpoint,
        aim,
        acceleration: a,
        ..p
    }
}

// Velocity mode.
pub fn to_speed(r: Run, setpoint: u64, aim: i64, a: u32) -> Run
    ensures { result ≡ to_speed setpoint aim a r }
{
    Run {
        profile: aimed(r.profile, setpoint, aim, a),
        drive: servoing(r.drive, Mode::Velocity),
        ..r
    }
}

pub fn no_load() -> Load
    ensures { result ≡ no_load }
{
    Load {
        waits: false,
        way: Way::Pulse,
        placed: false,
        place: 0,
        pulsed: false,
        pulse: 0,
        reverse: false,
    }
}

// Without the waiting load.
pub fn dropped(s: Settings) -> Settings
    ensures { result ≡ dropped s }
{
    Settings {
        load: no_load(),
        ..s
    }
}
