// The servo's own orders, by value: whether one can be carried out now, and what it does then; and power-up.

#![tactic(auto)]

ghost use Rattle.std.specs.Prelude.{◌≡◌};
ghost use Rattle.servo_motion.specs.Profile.{Ranged};
ghost use Rattle.servo_rules.specs.State.{no_settings, no_run, fresh, started};
ghost use Rattle.servo_rules.specs.Perform.{shifted, reset_position, can, perform};

use servo_filter::Gains;
use servo_motion::Profile;
use servo_rules::{Counts, Drive, Mode, Order, Rates, Run, Sample, Servo, Settings, Tuning};

// What is stored at power-up.
fn no_settings() -> Settings
    ensures { result ≡ no_settings }
{
    Settings {
        tuning: Tuning {
            gains: Gains {
                kp: 0,
                kd: 0,
                ki: 0,
                il: 0,
                ol: 0,
                el: 0,
            },
            cl: 0,
            sm: 1,
        },
        rates: Rates {
            velocity: 0,
            acceleration: 0,
            paced: false,
            ramped: false,
        },
        load: servo_run::no_load(),
    }
}

// What runs at power-up: off, the error bit set.
fn no_run() -> Run
    ensures { result ≡ no_run }
{
    Run {
        profile: Profile {
            setpoint: 0,
            speed: 0,
            goal: 0,
            aim: 0,
            acceleration: 0,
            top: 0,
        },
        memory: servo_run::blank(),
        drive: Drive {
            mode: Mode::Off,
            pulse: 0,
            output: 0,
            error: true,
            amplifier: false,
            cut: false,
        },
    }
}

// Power-up with this sample latched, at position 0.
pub fn fresh(x: Sample) -> Servo
    ensures { result ≡ fresh x }
{
    Servo {
        station: module_station::power_up(),
        latched: x,
        counts: Counts {
            offset: x.raw,
            last: 0,
        },
        settings: no_settings(),
        run: no_run(),
        homing: servo_homing::none(),
    }
}

pub fn power_up() -> Servo
    ensures { result ≡ started }
{
    fresh(Sample {
        raw: 0,
        power: 0,
        ad: 0,
        inputs: 0,
    })
}

// Setpoint and goal relative to a position.
fn shifted(p: Profile, x: u32) -> Profile
    requires { Ranged p }
    ensures { result ≡ shifted x p }
{
    Profile {
        setpoint: p.setpoint.wrapping_sub(servo_run::setpoint_at(x)) % 0x1_0000_0000_0000,
        goal: p.goal.wrapping_sub(x),
        ..p
    }
}

// Everything that is a position becomes relative to here.
fn position_reset(m: Servo) -> Servo
    requires { Ranged m.run.profile }
    ensures { result ≡ reset_position m }
{
    let here = servo_run::position(m.latched, m.counts);
    Servo {
        counts: Counts {
            offset: m.latched.raw,
            last: m.counts.last.wrapping_sub(here),
        },
        settings: servo_run::dropped(m.settings),
        run: servo_run::with_profile(m.run, shifted(m.run.profile, here)),
        homing: servo_homing::home_from(m.homing, here),
        ..m
    }
}

// Whether an order can be carried out now.
pub fn can(m: Servo, c: Order) -> bool
    requires { Ranged m.run.profile }
    ensures { result ≡ can c m }
{
    match c {
        Order::ResetPosition => servo_run::is_at_rest(m.run),
        Order::LoadTrajectory(x) => servo_start::can_load(m, x),
        Order::Start => servo_start::is_startable(m),
        Order::Stop(_, halt, _) => servo_stop::can_halt(m, halt),
        Order::SetGain(_) | Order::SetHoming(_) | Order::ClearBits => true,
    }
}

fn with_tuning(mut m: Servo, t: Tuning) -> Servo
    ensures { result ≡ perform (Order.SetGain t) m }
{
    m.settings.tuning = t;
    m
}

fn with_homing(mut m: Servo, byte: u8) -> Servo
    ensures { result ≡ perform (Order.SetHoming byte) m }
{
    m.homing = servo_homing::by_byte(m.homing, byte);
    m
}

fn with_error_clear(mut m: Servo) -> Servo
    ensures { result ≡ perform Order.ClearBits m }
{
    m.run = servo_run::erring(m.run, false);
    m
}

pub fn perform(m: Servo, c: Order) -> Servo
    requires { Ranged m.run.profile }
    ensures { result ≡ perform c m }
{
    match c {
        Order::ResetPosition => position_reset(m),
        Order::LoadTrajectory(x) => servo_start::with_load(m, x),
        Order::Start => servo_start::start(m),
        Order::SetGain(t) => with_tuning(m, t),
        Order::Stop(amplifier, halt, x) => servo_stop::stopped(m, amplifier, halt, x),
        Order::SetHoming(byte) => with_homing(m, byte),
        Order::ClearBits => with_error_clear(m),
    }
}
