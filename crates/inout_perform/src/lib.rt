// The I/O module by value: its power-up, what its own commands make of it, its replies, and what the board drives for it.

#![tactic(auto)]

ghost use Rattle.std.specs.Prelude.{◌≡◌, ◌+◌, ◌≤◌, length};
ghost use Rattle.base_layout.specs.Bytes.{pasted};
ghost use Rattle.module_rules.specs.Touch.{frame_of};
ghost use Rattle.module_rules.specs.Owes.{reply_size};
ghost use Rattle.inout_rules.specs.Pins.{blend};
ghost use Rattle.inout_rules.specs.State.{started, fresh, with_pins, read_now};
ghost use Rattle.inout_rules.specs.Perform.{directed, pulsed, output, perform};
ghost use Rattle.inout_rules.specs.Answers.{numbers, outputs_of, reply};

use inout_rules::{Capture, Command, Io, Pins, Sample, Synch};
use module_rules::Frame;

// Twelve bits: those of x where the direction is input, those of y where it is output.
fn blended(direction: u16, x: u16, y: u16) -> u16
    ensures { result ≡ blend 12 direction x y }
{
    ((x & direction) | (y & !direction)) & 0x0FFF
}

fn directed(p: Pins, direction: u16) -> Pins
    ensures { result ≡ directed direction p }
{
    Pins { direction, ..p }
}

fn pulsed(p: Pins, pwm1: u8, pwm2: u8) -> Pins
    ensures { result ≡ pulsed pwm1 pwm2 p }
{
    Pins { pwm1, pwm2, ..p }
}

// Only bits directed as outputs change.
fn output(p: Pins, bits: u16) -> Pins
    ensures { result ≡ output bits p }
{
    Pins {
        register: blended(p.direction, p.register, bits),
        ..p
    }
}

pub fn power_up() -> Io
    ensures { result ≡ started }
{
    fresh(Sample {
        inputs: 0,
        ad1: 0,
        ad2: 0,
        ad3: 0,
        counter: 0,
    })
}

// The power-up record, which keeps the latched sample at Hard Reset.
pub fn fresh(latched: Sample) -> Io
    ensures { result ≡ fresh latched }
{
    Io {
        station: module_station::power_up(),
        latched,
        pins: Pins {
            direction: 4095,
            register: 0,
            pwm1: 0,
            pwm2: 0,
        },
        synch: Synch {
            bits: 0,
            pwm1: 0,
            pwm2: 0,
        },
        timer: 0,
        captured: Capture {
            inputs: 0,
            counter: 0,
        },
    }
}

fn read_now(m: Io) -> u16
    ensures { result ≡ read_now m }
{
    blended(m.pins.direction, m.latched.inputs, m.pins.register)
}

fn with_pins(m: Io, pins: Pins) -> Io
    ensures { result ≡ with_pins pins m }
{
    Io { pins, ..m }
}

// Synch Output: the stored bits and PWMs, as the directions are now.
fn synch_output(m: Io) -> Io
    ensures { result ≡ perform Command.SynchOutput m }
{
    let put = output(m.pins, m.synch.bits);
    with_pins(m, pulsed(put, m.synch.pwm1, m.synch.pwm2))
}

// Synch Input: the bits as they are read now, and the latched counter.
fn synch_input(m: Io) -> Io
    ensures { result ≡ perform Command.SynchInput m }
{
    Io {
        captured: Capture {
            inputs: read_now(m),
            counter: m.latched.counter,
        },
        ..m
    }
}

// What an own command makes of the module.
pub fn perform(m: Io, c: Command) -> Io
    ensures { result ≡ perform c m }
{
    match c {
        Command::Direction(direction) => with_pins(m, directed(m.pins, direction)),
        Command::Pwm(pwm1, pwm2) => with_pins(m, pulsed(m.pins, pwm1, pwm2)),
        Command::SynchOutput => synch_output(m),
        Command::Output(bits) => with_pins(m, output(m.pins, bits)),
        Command::SynchStore(bits, pwm1, pwm2) => Io {
            synch: Synch { bits, pwm1, pwm2 },
            ..m
        },
        Command::Timer(timer) => Io { timer, ..m },
        Command::SynchInput => synch_input(m),
    }
}

fn numbers(m: Io) -> [u32; 8]
    ensures { result ≡ numbers m }
{
    [
        read_now(m) as u32,
        m.latched.ad1 as u32,
        m.latched.ad2 as u32,
        m.latched.ad3 as u32,
        m.latched.counter,
        inout_rules::TYPE_AND_VERSION,
        m.captured.inputs as u32,
        m.captured.counter,
    ]
}

// Puts the reply to a frame into the room from place from on; how many bytes it has.
#[tactic(auto, unfolding(module_rules::specs::Rules::reply))]
pub fn put_reply(m: Io, f: Frame<'_>, room: &mut [u8], from: usize) -> usize
    requires { from + reply_size ≤ length room.old }
    ensures value { result ≡ length (reply (frame_of f.entry) m) }
    ensures room_after { room.new ≡ pasted from (reply (frame_of f.entry) m) room.old }
{
    let status = module_station::cause_bit(m.station.cause);
    module_reply::put_reply(
        room,
        from,
        f,
        m.station,
        status,
        inout_rules::SIZES,
        numbers(m),
    )
}

// What the board drives, in eight bytes.
pub fn outputs(m: Io) -> [u8; 8]
    ensures { result ≡ outputs_of m }
{
    let [a, b] = m.pins.direction.to_le_bytes();
    let [c, d] = m.pins.register.to_le_bytes();
    [a, b, c, d, m.pins.pwm1, m.pins.pwm2, 0, 0]
}
