// The I/O module, type 2 version 1: what it consists of, and what a frame asks of it. Types, definitions and promises; no function.

#![tactic(auto)]

use module_rules::Station;

pub const TYPE: u8 = 2;

// How many bytes each item has.
pub const SIZES: [u8; 8] = [2, 1, 1, 1, 4, 2, 2, 4];

// The item of type and version: the type's number, and the version above it.
pub const TYPE_AND_VERSION: u32 = 258;

// What the board measures: twelve input bits, three A/D bytes, a counter.
#[derive(Clone, Copy)]
pub struct Sample {
    pub inputs: u16,
    pub ad1: u8,
    pub ad2: u8,
    pub ad3: u8,
    pub counter: u32,
}

// A direction bit of 1 is an input.
#[derive(Clone, Copy)]
pub struct Pins {
    pub direction: u16,
    pub register: u16,
    pub pwm1: u8,
    pub pwm2: u8,
}

// What Synch Output will put out.
#[derive(Clone, Copy)]
pub struct Synch {
    pub bits: u16,
    pub pwm1: u8,
    pub pwm2: u8,
}

#[derive(Clone, Copy)]
pub struct Capture {
    pub inputs: u16,
    pub counter: u32,
}

// The latched sample is the one that the last tick was handed.
#[derive(Clone, Copy)]
pub struct Io {
    pub station: Station,
    pub latched: Sample,
    pub pins: Pins,
    pub synch: Synch,
    pub timer: u8,
    pub captured: Capture,
}

// The I/O module's own commands.
#[derive(Clone, Copy)]
pub enum Command {
    Direction(u16),
    Pwm(u8, u8),
    SynchOutput,
    Output(u16),
    SynchStore(u16, u8, u8),
    Timer(u8),
    SynchInput,
}
