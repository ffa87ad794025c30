// Stops of a servo, by value: the command's and homing's.

#![tactic(auto)]

ghost use Rattle.std.specs.Prelude.{◌≡◌, cond};
ghost use Rattle.servo_rules.specs.State.{dropped};
ghost use Rattle.servo_rules.specs.Stops.{holding, smooth, halted_by, drops, halted, can_halt};
ghost use Rattle.servo_rules.specs.Perform.{stopped};

use servo_rules::{Halt, Mode, Run, Servo, Settings};

// Holds a position; the output stays until the tick.
fn holding(r: Run, x: u32) -> Run
    ensures { result ≡ holding x r }
{
    Run {
        profile: servo_run::resting(r.profile, servo_run::setpoint_at(x)),
        memory: servo_run::blank(),
        drive: servo_run::servoing(r.drive, Mode::Hold),
    }
}

// Down to speed 0 with the running acceleration; PWM goes off, off stays off.
fn smooth(r: Run) -> Run
    ensures { result ≡ smooth r }
{
    if servo_run::is_servo_off(r.drive.mode) {
        return servo_run::off(r);
    }
    servo_run::to_speed(r, r.profile.setpoint, 0, r.profile.acceleration)
}

// What a stop at a position makes of what runs; x is the given position.
fn halted_by(halt: Halt, here: u32, x: u32, r: Run) -> Run
    ensures { result ≡ halted_by halt here x r }
{
    match halt {
        Halt::Keep => r,
        Halt::Release => servo_run::off(r),
        Halt::Abrupt => holding(r, here),
        Halt::Smooth => smooth(r),
        Halt::Here => holding(r, x),
    }
}

// Any of bits 1 to 4 drops a waiting load.
fn is_dropping(halt: Halt) -> bool
    ensures { result ≡ drops halt }
{
    match halt {
        Halt::Keep => false,
        Halt::Release | Halt::Abrupt | Halt::Smooth | Halt::Here => true,
    }
}

fn dropped_by(halt: Halt, s: Settings) -> Settings
    ensures { result ≡ cond (drops halt) (dropped s) s }
{
    if is_dropping(halt) {
        servo_run::dropped(s)
    } else {
        s
    }
}

// What a stop does, but for the amplifier bit.
pub fn halted(m: Servo, halt: Halt, x: u32) -> Servo
    ensures { result ≡ halted halt x m }
{
    let here = servo_run::position(m.latched, m.counts);
    Servo {
        settings: dropped_by(halt, m.settings),
        run: halted_by(halt, here, x, m.run),
        ..m
    }
}

pub fn stopped(m: Servo, amplifier: bool, halt: Halt, x: u32) -> Servo
    ensures { result ≡ stopped amplifier halt x m }
{
    let n = halted(m, halt, x);
    Servo {
        run: servo_run::amplified(n.run, amplifier),
        ..n
    }
}

// Abrupt and Stop Here need good power and a clear error bit.
pub fn can_halt(m: Servo, halt: Halt) -> bool
    ensures { result ≡ can_halt halt m }
{
    match halt {
        Halt::Keep | Halt::Release | Halt::Smooth => true,
        Halt::Abrupt | Halt::Here => servo_run::is_ready(m.latched.power, m.run.drive),
    }
}
