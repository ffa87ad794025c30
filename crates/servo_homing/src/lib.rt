// Homing on the carriage switch, by value: its byte, what it stores, its stop, and its step in a tick.

#![tactic(auto)]

ghost use Rattle.std.specs.Prelude.{◌≡◌};
ghost use Rattle.servo_rules.specs.State.{no_homing};
ghost use Rattle.servo_rules.specs.Homing.{good_byte, homing_by, home_from, home_at, homing_bits, changed, homing_halt, halted_or, homed};

use servo_rules::{Halt, Homing, Servo};

// At least one watch bit, at most one stop bit, and no other bit.
pub fn is_good(byte: u8) -> bool
    ensures { result ≡ good_byte byte }
{
    (base_integers::is_set(0, byte) | base_integers::is_set(1, byte))
        & (byte / 4 % 2 + byte / 16 % 2 + byte / 32 % 2 <= 1)
        & !base_integers::is_set(3, byte)
        & (byte / 64 == 0)
}

// Never homed.
pub fn none() -> Homing
    ensures { result ≡ no_homing }
{
    Homing { home: 0, byte: 0 }
}

// With the byte of Set Homing; home keeps its number.
pub fn by_byte(h: Homing, byte: u8) -> Homing
    ensures { result ≡ homing_by byte h }
{
    Homing { byte, ..h }
}

// With home relative to a position.
pub fn home_from(h: Homing, x: u32) -> Homing
    ensures { result ≡ home_from x h }
{
    Homing {
        home: h.home.wrapping_sub(x),
        ..h
    }
}

// Found at a position, and ended.
fn home_at(x: u32) -> Homing
    ensures { result ≡ home_at x }
{
    Homing { home: x, byte: 0 }
}

// Status bits 5 and 6, the inputs, and 7, homing in progress.
pub fn status_bits(inputs: u8, h: Homing) -> u8
    ensures { result ≡ homing_bits inputs h }
{
    let shown = 32 * (inputs % 4);
    if h.byte == 0 {
        return shown;
    }
    shown + 128
}

// Whether an input that the byte watches has changed; mostly none has.
pub fn is_changed(byte: u8, before: u8, inputs: u8) -> bool
    ensures { result ≡ changed byte before inputs }
{
    if before == inputs {
        return false;
    }
    (base_integers::is_set(0, byte) & (before % 2 != inputs % 2))
        | (base_integers::is_set(1, byte) & (before / 2 % 2 != inputs / 2 % 2))
}

// The kind of stop that a byte asks for.
fn halt_of(byte: u8) -> Halt
    ensures { result ≡ homing_halt byte }
{
    if base_integers::is_set(2, byte) {
        return Halt::Release;
    }
    if base_integers::is_set(4, byte) {
        return Halt::Abrupt;
    }
    if base_integers::is_set(5, byte) {
        return Halt::Smooth;
    }
    Halt::Keep
}

// Stops as the command does, but for the amplifier bit; not where the command could not now.
fn halted_or(m: Servo, halt: Halt) -> Servo
    ensures { result ≡ halted_or halt m }
{
    if servo_stop::can_halt(m, halt) {
        return servo_stop::halted(m, halt, 0);
    }
    m
}

// Homing's step in a tick, after latch and power, where these inputs were latched before.
pub fn homed(m: Servo, before: u8) -> Servo
    ensures { result ≡ homed before m }
{
    if !is_changed(m.homing.byte, before, m.latched.inputs) {
        return m;
    }
    let here = servo_run::position(m.latched, m.counts);
    Servo {
        homing: home_at(here),
        ..halted_or(m, halt_of(m.homing.byte))
    }
}
