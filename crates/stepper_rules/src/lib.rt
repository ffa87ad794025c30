// The step-motor module, type 3 version 1: what it consists of, and what a frame asks of it. Types, definitions and promises; no function.

#![tactic(auto)]

use module_rules::Station;

pub const TYPE: u8 = 3;

// How many bytes each item has: there are the position and the type with its version alone.
pub const SIZES: [u8; 8] = [4, 0, 0, 0, 0, 2, 0, 0];

// The item of type and version: the type's number, and the version above it.
pub const TYPE_AND_VERSION: u32 = 259;

// The greatest speed, of a load or as the minimum.
pub const FASTEST: u8 = 250;

// What the board measures: the stop input.
#[derive(Clone, Copy)]
pub struct Sample {
    pub stop: bool,
}

// What frames store for later: the amplifier bit; the minimum speed, 0 before Set Parameters; a load's position and timer count, which nothing uses.
#[derive(Clone, Copy)]
pub struct Settings {
    pub amplifier: bool,
    pub minimum: u8,
    pub place: u32,
    pub timer: u32,
}

// The waiting load, if one waits; a speed or a time of 0 is one that it does not carry.
#[derive(Clone, Copy)]
pub struct Load {
    pub waits: bool,
    pub backward: bool,
    pub speed: u8,
    pub time: u8,
}

// What runs: the speed's size and direction, the speed that it goes to, the acceleration time of the started load, the ticks since that began to
// count, and whether a smooth stop was asked for. At rest all of it is 0.
#[derive(Clone, Copy)]
pub struct Motion {
    pub speed: u8,
    pub backward: bool,
    pub goal: u8,
    pub time: u8,
    pub ticks: u8,
    pub stopping: bool,
}

#[derive(Clone, Copy)]
pub struct Stepper {
    pub station: Station,
    pub settings: Settings,
    pub load: Load,
    pub motion: Motion,
    pub position: u32,
}

// What a Load Trajectory carries; 0 for what it does not.
#[derive(Clone, Copy)]
pub struct Carried {
    pub control: u8,
    pub place: u32,
    pub speed: u8,
    pub time: u8,
    pub timer: u32,
}

// The kinds of Stop: neither of bits 2 and 3, abrupt, smooth.
#[derive(Clone, Copy)]
pub enum Halt {
    Keep,
    Abrupt,
    Smooth,
}

// The step-motor module's own commands; Set Parameters has its minimum speed.
#[derive(Clone, Copy)]
pub enum Order {
    LoadTrajectory(Carried),
    Start,
    SetParameters(u8),
    Stop(bool, Halt),
}
