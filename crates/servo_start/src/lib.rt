// Loads and starts of a servo, by value: what waits, whether it can start, and what a start makes of it.

#![tactic(auto)]

ghost use Rattle.std.specs.Prelude.{◌≡◌, cond};
ghost use Rattle.servo_motion.specs.Profile.{Ranged};
ghost use Rattle.servo_rules.specs.Loads.{way_of, load_of, rates_of, loaded, beginning_at, movable, complete, startable, signed_by, sent, to_place, started_by, start};
ghost use Rattle.servo_rules.specs.Perform.{can, perform};

use servo_motion::Profile;
use servo_rules::{Carried, Load, Mode, Order, Rates, Run, Servo, Settings, Way};

fn way_of(control: u8) -> Way
    ensures { result ≡ way_of control }
{
    if !base_integers::is_set(4, control) {
        Way::Pulse
    } else if base_integers::is_set(5, control) {
        Way::Speed
    } else {
        Way::Move
    }
}

fn load_of(c: Carried) -> Load
    ensures { result ≡ load_of c }
{
    Load {
        waits: true,
        way: way_of(c.control),
        placed: base_integers::is_set(0, c.control),
        place: c.place,
        pulsed: base_integers::is_set(3, c.control),
        pulse: c.pulse,
        reverse: base_integers::is_set(6, c.control),
    }
}

// Absent velocity and acceleration keep the numbers of earlier loads.
fn rates_of(c: Carried, r: Rates) -> Rates
    ensures { result ≡ rates_of c r }
{
    let paced = base_integers::is_set(1, c.control);
    let ramped = base_integers::is_set(2, c.control);
    Rates {
        velocity: if paced { c.velocity } else { r.velocity },
        acceleration: if ramped {
            c.acceleration
        } else {
            r.acceleration
        },
        paced: paced | r.paced,
        ramped: ramped | r.ramped,
    }
}

fn loaded(m: Servo, c: Carried) -> Servo
    ensures { result ≡ loaded c m }
{
    let settings = Settings {
        rates: rates_of(c, m.settings.rates),
        load: load_of(c),
        ..m.settings
    };
    Servo { settings, ..m }
}

// The setpoint that a start begins with, at a position.
fn beginning_at(here: u32, r: Run) -> u64
    ensures { result ≡ beginning_at here r }
{
    if servo_run::is_servo_off(r.drive.mode) {
        servo_run::setpoint_at(here)
    } else {
        r.profile.setpoint
    }
}

fn is_movable(m: Servo) -> bool
    requires { Ranged m.run.profile }
    ensures { result ≡ movable m }
{
    let s = m.settings;
    let here = servo_run::position(m.latched, m.counts);
    let whole = servo_motion::whole(beginning_at(here, m.run));
    let still = servo_run::is_at_rest(m.run);
    let away = s.load.place.wrapping_sub(whole);
    s.rates.paced
        & s.rates.ramped
        & s.load.placed
        & (0 < s.rates.velocity)
        & still
        & (away != 0x8000_0000)
}

fn is_complete(m: Servo) -> bool
    requires { Ranged m.run.profile }
    ensures { result ≡ complete m }
{
    let s = m.settings;
    match s.load.way {
        Way::Pulse => s.load.pulsed,
        Way::Speed => s.rates.paced & s.rates.ramped,
        Way::Move => is_movable(m),
    }
}

pub fn is_startable(m: Servo) -> bool
    requires { Ranged m.run.profile }
    ensures { result ≡ startable m }
{
    m.settings.load.waits & is_complete(m) & servo_run::is_ready(m.latched.power, m.run.drive)
}

// Whether a load can be taken now: where it starts now, whether it could start if it waited.
pub fn can_load(m: Servo, c: Carried) -> bool
    requires { Ranged m.run.profile }
    ensures { result ≡ can (Order.LoadTrajectory c) m }
{
    !base_integers::is_set(7, c.control) | is_startable(loaded(m, c))
}

// A number with its sign.
fn signed_by(reverse: bool, n: u32) -> i64
    ensures { result ≡ signed_by reverse n }
{
    if reverse { -(n as i64) } else { n as i64 }
}

// Toward a position, from the speed that it has.
fn sent(p: Profile, setpoint: u64, goal: u32, a: u32, top: u32) -> Profile
    ensures { result ≡ sent setpoint goal a top p }
{
    Profile {
        setpoint,
        goal,
        acceleration: a,
        top,
        ..p
    }
}

// A trapezoid.
fn to_place(r: Run, setpoint: u64, goal: u32, a: u32, top: u32) -> Run
    ensures { result ≡ to_place setpoint goal a top r }
{
    Run {
        profile: sent(r.profile, setpoint, goal, a, top),
        drive: servo_run::servoing(r.drive, Mode::Trapezoid),
        ..r
    }
}

// What a start of this mode, at a position, makes of what runs.
fn started_by(way: Way, here: u32, s: Settings, r: Run) -> Run
    ensures { result ≡ started_by way here s r }
{
    let setpoint = beginning_at(here, r);
    let n = s.rates;
    let l = s.load;
    match way {
        Way::Pulse => servo_run::idled(r, Mode::Pwm, signed_by(l.reverse, l.pulse as u32)),
        Way::Speed => servo_run::to_speed(
            r,
            setpoint,
            signed_by(l.reverse, n.velocity),
            n.acceleration,
        ),
        Way::Move => to_place(r, setpoint, l.place, n.acceleration, n.velocity),
    }
}

// Starting uses the load up.
pub fn start(m: Servo) -> Servo
    ensures { result ≡ start m }
{
    let s = m.settings;
    let here = servo_run::position(m.latched, m.counts);
    Servo {
        run: started_by(s.load.way, here, s, m.run),
        settings: servo_run::dropped(s),
        ..m
    }
}

pub fn with_load(m: Servo, c: Carried) -> Servo
    ensures { result ≡ perform (Order.LoadTrajectory c) m }
{
    let after = loaded(m, c);
    if base_integers::is_set(7, c.control) {
        return start(after);
    }
    after
}
