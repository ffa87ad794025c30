// The servo, type 0 version 10: what it consists of, and what a frame asks of it. Types, definitions and promises; no function.

#![tactic(auto)]

use module_rules::Station;
use servo_filter::{Gains, Memory};
use servo_motion::Profile;

pub const TYPE: u8 = 0;

// How many bytes each item has.
pub const SIZES: [u8; 8] = [4, 1, 2, 1, 4, 2, 2, 1];

// The item of type and version: the type's number, and the version above it.
pub const TYPE_AND_VERSION: u32 = 2560;

// What the board measures: the raw count, power 0 low, 1 good, 2 high, an A/D byte, and the limit inputs: bit 0 limit 1, bit 1 limit 2.
// Power is a number and no enum: ticks and the theorems on them take any, and the list of samples tests it.
#[derive(Clone, Copy)]
pub struct Sample {
    pub raw: u32,
    pub power: u8,
    pub ad: u8,
    pub inputs: u8,
}

// The position is the raw count less the offset; last is the position before the last tick.
#[derive(Clone, Copy)]
pub struct Counts {
    pub offset: u32,
    pub last: u32,
}

// What Set Gain brings.
#[derive(Clone, Copy)]
pub struct Tuning {
    pub gains: Gains,
    pub cl: u8,
    pub sm: u8,
}

// Velocity and acceleration of executed loads since power-up, and whether one carried them.
#[derive(Clone, Copy)]
pub struct Rates {
    pub velocity: u32,
    pub acceleration: u32,
    pub paced: bool,
    pub ramped: bool,
}

// What a load asks for: a PWM value, a speed, a move to a position.
#[derive(Clone, Copy)]
pub enum Way {
    Pulse,
    Speed,
    Move,
}

// The waiting load, if one waits.
#[derive(Clone, Copy)]
pub struct Load {
    pub waits: bool,
    pub way: Way,
    pub placed: bool,
    pub place: u32,
    pub pulsed: bool,
    pub pulse: u8,
    pub reverse: bool,
}

// What frames store for later.
#[derive(Clone, Copy)]
pub struct Settings {
    pub tuning: Tuning,
    pub rates: Rates,
    pub load: Load,
}

// What drives the motor.
#[derive(Clone, Copy)]
pub enum Mode {
    Off,
    Pwm,
    Hold,
    Velocity,
    Trapezoid,
}

// The mode, the PWM value, the motor output, the error bit, the amplifier bit, and whether the last filter tick was cut.
#[derive(Clone, Copy)]
pub struct Drive {
    pub mode: Mode,
    pub pulse: i64,
    pub output: i64,
    pub error: bool,
    pub amplifier: bool,
    pub cut: bool,
}

// What runs: where the setpoint goes, what the filter remembers, and what drives the motor.
#[derive(Clone, Copy)]
pub struct Run {
    pub profile: Profile,
    pub memory: Memory,
    pub drive: Drive,
}

// The position where homing last found its switch, and the byte of Set Homing while homing is in progress, else 0.
#[derive(Clone, Copy)]
pub struct Homing {
    pub home: u32,
    pub byte: u8,
}

// The latched sample is the one that the last tick was handed.
#[derive(Clone, Copy)]
pub struct Servo {
    pub station: Station,
    pub latched: Sample,
    pub counts: Counts,
    pub settings: Settings,
    pub run: Run,
    pub homing: Homing,
}

// What a Load Trajectory carries; 0 for what it does not.
#[derive(Clone, Copy)]
pub struct Carried {
    pub control: u8,
    pub place: u32,
    pub velocity: u32,
    pub acceleration: u32,
    pub pulse: u8,
}

// The kinds of Stop: none of bits 1 to 4, off, abrupt, smooth, Stop Here.
#[derive(Clone, Copy)]
pub enum Halt {
    Keep,
    Release,
    Abrupt,
    Smooth,
    Here,
}

// The servo's own commands.
#[derive(Clone, Copy)]
pub enum Order {
    ResetPosition,
    LoadTrajectory(Carried),
    Start,
    SetGain(Tuning),
    Stop(bool, Halt, u32),
    SetHoming(u8),
    ClearBits,
}
