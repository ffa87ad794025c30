// What a frame asks of a servo: its code, the number of its data bytes and their values, read into an order or found at fault.

#![tactic(auto)]

ghost use Rattle.std.specs.Prelude.{◌≡◌, ◌<◌, true};
ghost use Rattle.base_layout.specs.Bytes.{of_le, read_at};
ghost use Rattle.module_rules.specs.Touch.{frame_of};
ghost use Rattle.module_rules.specs.Rules.{takes};
ghost use Rattle.module_rules.specs.Asks.{asks_of, read};
ghost use Rattle.servo_rules.specs.Carried.{needed, carried_at, carried_in, in_range};
ghost use Rattle.servo_rules.specs.Asks.{load_meant, gains_in, gains_fit, gain_meant, halt_of, one_halt, stop_count, stop_meant, homing_meant, own};
ghost use Rattle.servo_rules.specs.Answers.{request};

use module_rules::{Fault, Frame, Request};
use module_station::Codes;
use servo_filter::Gains;
use servo_rules::{Carried, Halt, Order, Tuning};

// The number in four data bytes from place at on, 0 beyond the end. One function over the width would fill an array in a loop of its own.
fn four_at(ds: &[u8], at: usize) -> u32
    requires { at < 256 }
    ensures { result ≡ of_le (read_at 4 at ds.now) }
{
    u32::from_le_bytes([
        base_layout::byte_at(ds, at),
        base_layout::byte_at(ds, at + 1),
        base_layout::byte_at(ds, at + 2),
        base_layout::byte_at(ds, at + 3),
    ])
}

fn two_at(ds: &[u8], at: usize) -> u16
    requires { at < 256 }
    ensures { result ≡ of_le (read_at 2 at ds.now) }
{
    u16::from_le_bytes([
        base_layout::byte_at(ds, at),
        base_layout::byte_at(ds, at + 1),
    ])
}

// How many data bytes a load's control byte asks for.
fn needed(control: u8) -> usize
    ensures { result ≡ needed control }
{
    let numbers = u8::count_ones(control % 8) as usize;
    let pulse = (control / 8 % 2) as usize;
    1 + 4 * numbers + pulse
}

// A carried number, from place at on, 0 where it is not carried.
fn carried_at(t: bool, at: usize, ds: &[u8]) -> u32
    requires { at < 256 }
    ensures { result ≡ carried_at t at ds.now }
{
    if t {
        return four_at(ds, at);
    }
    0
}

// What a load carries.
#[tactic(auto, unfolding(servo_rules::specs::Carried::carried_in))]
fn carried_in(ds: &[u8]) -> Carried
    ensures { result ≡ carried_in ds.now }
{
    let c = base_layout::byte_at(ds, 0);
    let second = 1 + 4 * ((c % 2) as usize);
    let third = second + 4 * ((c / 2 % 2) as usize);
    let fourth = third + 4 * ((c / 4 % 2) as usize);
    Carried {
        control: c,
        place: carried_at(c % 2 == 1, 1, ds),
        velocity: carried_at(c / 2 % 2 == 1, second, ds),
        acceleration: carried_at(c / 4 % 2 == 1, third, ds),
        pulse: if c / 8 % 2 == 1 {
            base_layout::byte_at(ds, fourth)
        } else {
            0
        },
    }
}

// Whether a load's velocity and acceleration are in range.
#[tactic(auto, unfolding(servo_rules::specs::Carried::in_range))]
fn is_in_range(c: Carried) -> bool
    ensures { result ≡ in_range c }
{
    (c.velocity <= servo_motion::FASTEST)
        & (c.acceleration <= servo_motion::FASTEST)
        & (!base_integers::is_set(2, c.control) | (1 <= c.acceleration))
}

#[tactic(auto, unfolding(servo_rules::specs::Asks::load_meant))]
fn load_asked(ds: &[u8]) -> Result<Order, Fault>
    ensures { result ≡ read ds.now (load_meant ds.now) }
{
    let c = carried_in(ds);
    module_station::counted(needed(base_layout::byte_at(ds, 0)), ds)?;
    module_station::ranged(is_in_range(c))?;
    Ok(Order::LoadTrajectory(c))
}

#[tactic(auto, unfolding(servo_rules::specs::Asks::gains_in))]
fn gains_in(ds: &[u8]) -> Gains
    ensures { result ≡ gains_in ds.now }
{
    Gains {
        kp: two_at(ds, 0),
        kd: two_at(ds, 2),
        ki: two_at(ds, 4),
        il: two_at(ds, 6),
        ol: base_layout::byte_at(ds, 8),
        el: two_at(ds, 10),
    }
}

#[tactic(auto, unfolding(servo_rules::specs::Asks::gains_fit))]
fn gains_fit(g: Gains) -> bool
    ensures { result ≡ gains_fit g }
{
    (g.kp <= 32767) & (g.kd <= 32767) & (g.ki <= 32767) & (g.il <= 32767) & (g.el <= 16383)
}

#[tactic(auto, unfolding(servo_rules::specs::Asks::gain_meant))]
fn gain_asked(ds: &[u8]) -> Result<Order, Fault>
    ensures { result ≡ read ds.now (gain_meant ds.now) }
{
    let gains = gains_in(ds);
    let fit = gains_fit(gains)
        & (base_layout::byte_at(ds, 12) == 1)
        & (base_layout::byte_at(ds, 13) == 0);
    module_station::counted(15, ds)?;
    module_station::ranged(fit)?;
    Ok(Order::SetGain(Tuning {
        gains,
        cl: base_layout::byte_at(ds, 9),
        sm: base_layout::byte_at(ds, 14),
    }))
}

#[tactic(auto, unfolding(servo_rules::specs::Asks::halt_of))]
fn halt_of(control: u8) -> Halt
    ensures { result ≡ halt_of control }
{
    if base_integers::is_set(1, control) {
        return Halt::Release;
    }
    if base_integers::is_set(2, control) {
        return Halt::Abrupt;
    }
    if base_integers::is_set(3, control) {
        return Halt::Smooth;
    }
    if base_integers::is_set(4, control) {
        return Halt::Here;
    }
    Halt::Keep
}

fn is_one_halt(control: u8) -> bool
    ensures { result ≡ one_halt control }
{
    (u8::count_ones(control / 2 % 16) <= 1) & (control / 32 == 0)
}

fn stop_count(control: u8) -> usize
    ensures { result ≡ stop_count control }
{
    if base_integers::is_set(4, control) {
        5
    } else {
        1
    }
}

#[tactic(auto, unfolding(servo_rules::specs::Asks::stop_meant))]
fn stop_asked(ds: &[u8]) -> Result<Order, Fault>
    ensures { result ≡ read ds.now (stop_meant ds.now) }
{
    let c = base_layout::byte_at(ds, 0);
    module_station::counted(stop_count(c), ds)?;
    module_station::ranged(is_one_halt(c))?;
    Ok(Order::Stop(base_integers::is_set(0, c), halt_of(c), four_at(ds, 1)))
}

fn homing_asked(ds: &[u8]) -> Result<Order, Fault>
    ensures { result ≡ read ds.now (homing_meant ds.now) }
{
    let byte = base_layout::byte_at(ds, 0);
    module_station::counted(1, ds)?;
    module_station::ranged(servo_homing::is_good(byte))?;
    Ok(Order::SetHoming(byte))
}

// A command that has no data bytes.
fn bare(order: Order, ds: &[u8]) -> Result<Order, Fault>
    ensures { result ≡ read ds.now (takes 0 true order) }
{
    module_station::counted(0, ds)?;
    Ok(order)
}

// The type's own codes; there are items for every item byte.
struct ServoType;

impl Codes for ServoType {
    type Command = Order;

    ghost own = { own };

    ghost shows = { λ b. true };

    #[tactic(auto, unfolding(servo_rules::specs::Asks::own))]
    fn own_command(code: u8, ds: &[u8]) -> Result<Order, Fault> {
        match code {
            0 => bare(Order::ResetPosition, ds),
            4 => load_asked(ds),
            5 => bare(Order::Start, ds),
            6 => gain_asked(ds),
            7 => stop_asked(ds),
            9 => homing_asked(ds),
            11 => bare(Order::ClearBits, ds),
            _ => Err(Fault::Unknown),
        }
    }

    fn is_shown(_items: u8) -> bool {
        true
    }
}

// What a frame asks; alone says that it was for this module individually.
#[tactic(auto, unfolding(module_rules::specs::Rules::request))]
pub fn request_of(f: Frame<'_>, alone: bool) -> Result<Request<Order>, Fault>
    ensures { asks_of result ≡ request (frame_of f.entry) alone }
{
    module_station::request_of::<ServoType>(f, alone)
}
