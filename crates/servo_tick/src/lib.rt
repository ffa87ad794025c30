// A servo's tick, by value: latch, power, homing, profile, filter.

#![tactic(auto)]

ghost use Rattle.std.specs.Prelude.{◌≡◌};
ghost use Rattle.servo_rules.specs.State.{running, putting};
ghost use Rattle.servo_rules.specs.Tick.{advanced, put_out, tripped, servoed, pulsed, driven_by, by_power, met, ticked, Steady};

use servo_filter::{Filtered, Gains, Memory};
use servo_motion::Profile;
use servo_rules::{Counts, Drive, Mode, Run, Sample, Servo};

fn advanced(r: Run) -> Profile
    requires { Steady r }
    ensures { result ≡ advanced r }
{
    match r.drive.mode {
        Mode::Off | Mode::Pwm | Mode::Hold => r.profile,
        Mode::Velocity => r.profile.by_velocity(),
        Mode::Trapezoid => r.profile.by_trapezoid(),
    }
}

// At power 2 the output is 0.
fn put_out(power: u8, u: i64) -> i64
    ensures { result ≡ put_out power u }
{
    if power == 1 { u } else { 0 }
}

fn putting(d: Drive, output: i64, cut: bool) -> Drive
    ensures { result ≡ putting output cut d }
{
    Drive { output, cut, ..d }
}

// After the profile's step to p.
fn tripped(r: Run, p: Profile) -> Run
    ensures { result ≡ tripped p r }
{
    servo_run::erring(servo_run::off(servo_run::with_profile(r, p)), true)
}

// After the profile's step to p, with the filter's memory and output; cut is whether that was cut.
fn followed(power: u8, r: Run, p: Profile, memory: Memory, u: i64, cut: bool) -> Run
    ensures { result ≡ running p memory (putting (put_out power u) cut r.drive) }
{
    Run {
        profile: p,
        memory,
        drive: putting(r.drive, put_out(power, u), cut),
    }
}

fn servoed(power: u8, here: u32, g: Gains, r: Run) -> Run
    requires { Steady r }
    ensures { result ≡ servoed power here g r }
{
    let p = advanced(r);
    match servo_filter::filter(g, r.memory, servo_motion::whole(p.setpoint), here) {
        Filtered::Plain(memory, u) => followed(power, r, p, memory, u, false),
        Filtered::Cut(memory, u) => followed(power, r, p, memory, u, true),
        Filtered::Off => tripped(r, p),
    }
}

// PWM puts out the loaded value, held to OL.
fn pulsed(power: u8, ol: u8, r: Run) -> Run
    requires { Steady r }
    ensures { result ≡ pulsed power ol r }
{
    let u = put_out(power, servo_filter::hold(ol as u16, r.drive.pulse));
    Run {
        drive: putting(r.drive, u, r.drive.cut),
        ..r
    }
}

// Profile and filter, by the mode, at the latched power and the position here, with these gains and limits. The three stay apart, as `ran`'s callers
// have them: a struct of them would be built for one call and taken apart in it.
fn driven(power: u8, here: u32, g: Gains, r: Run) -> Run
    requires { Steady r }
    ensures { result ≡ driven_by r.drive.mode power here g r }
{
    match r.drive.mode {
        Mode::Off => r,
        Mode::Pwm => pulsed(power, g.ol, r),
        Mode::Hold | Mode::Velocity | Mode::Trapezoid => servoed(power, here, g, r),
    }
}

// At low power all goes off, and the amplifier bit stays.
fn by_power(power: u8, r: Run) -> Run
    ensures { result ≡ by_power power r }
{
    if power != 0 {
        return r;
    }
    servo_run::off(r)
}

// What a tick in which homing finds nothing makes of what runs.
pub fn ran(power: u8, here: u32, g: Gains, r: Run) -> Run
    requires { Steady r }
    ensures { result ≡ driven_by (by_power power r).drive.mode power here g (by_power power r) }
{
    if power == 0 {
        return servo_run::off(r);
    }
    driven(power, here, g, r)
}

// The whole of a tick: latch, power, homing, profile, filter.
pub fn ticked(m: Servo, x: Sample) -> Servo
    requires { Steady (met x m).run }
    ensures { result ≡ ticked x m }
{
    let before = m.latched;
    let counts = Counts {
        last: servo_run::position(before, m.counts),
        ..m.counts
    };
    let latched = Servo {
        latched: x,
        counts,
        run: by_power(x.power, m.run),
        ..m
    };
    let n = servo_homing::homed(latched, before.inputs);
    let here = servo_run::position(n.latched, n.counts);
    Servo {
        run: driven(n.latched.power, here, n.settings.tuning.gains, n.run),
        ..n
    }
}
