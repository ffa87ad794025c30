// What a frame asks of a step-motor module: its code, the number of its data bytes and their values, read into an order or found at fault.

#![tactic(auto)]

ghost use Rattle.std.specs.Prelude.{◌≡◌, cond, ◌<◌};
ghost use Rattle.base_layout.specs.Bytes.{of_le, read_at};
ghost use Rattle.module_rules.specs.Touch.{frame_of};
ghost use Rattle.module_rules.specs.Asks.{asks_of, read};
ghost use Rattle.stepper_rules.specs.Carried.{needed, carried_in, is_speed, in_range};
ghost use Rattle.stepper_rules.specs.Asks.{load_meant, parameters_meant, halt_of, one_halt, stop_meant, own};
ghost use Rattle.stepper_rules.specs.Answers.{shows, request};

use module_rules::{Fault, Frame, Request};
use module_station::Codes;
use stepper_rules::{Carried, Halt, Order};

// The number in three data bytes from place at on, 0 beyond the end. One function over the width would fill an array in a loop of its own.
fn three_at(ds: &[u8], at: usize) -> u32
    requires { at < 256 }
    ensures { result ≡ of_le (read_at 3 at ds.now) }
{
    u32::from_le_bytes([
        base_layout::byte_at(ds, at),
        base_layout::byte_at(ds, at + 1),
        base_layout::byte_at(ds, at + 2),
        0,
    ])
}

// A load's position, in four data bytes behind the control byte.
fn place_in(ds: &[u8]) -> u32
    ensures { result ≡ of_le (read_at 4 1 ds.now) }
{
    u32::from_le_bytes([
        base_layout::byte_at(ds, 1),
        base_layout::byte_at(ds, 2),
        base_layout::byte_at(ds, 3),
        base_layout::byte_at(ds, 4),
    ])
}

// How many data bytes a load's control byte asks for.
fn needed(control: u8) -> usize
    ensures { result ≡ needed control }
{
    let place = (control % 2) as usize;
    let speed = (control / 2 % 2) as usize;
    let time = (control / 4 % 2) as usize;
    let timer = (control / 8 % 2) as usize;
    1 + 4 * place + speed + time + 3 * timer
}

// A number of a load, or none where it is not carried.
fn carried<T: Copy>(is_carried: bool, number: T, none: T) -> T
    ensures { result ≡ cond is_carried number none }
{
    if is_carried { number } else { none }
}

// What a load carries.
#[tactic(auto, unfolding(stepper_rules::specs::Carried::carried_in))]
fn carried_in(ds: &[u8]) -> Carried
    ensures { result ≡ carried_in ds.now }
{
    let c = base_layout::byte_at(ds, 0);
    let speed_at = 1 + 4 * ((c % 2) as usize);
    let time_at = speed_at + ((c / 2 % 2) as usize);
    let timer_at = time_at + ((c / 4 % 2) as usize);
    Carried {
        control: c,
        place: carried(c % 2 == 1, place_in(ds), 0),
        speed: carried(c / 2 % 2 == 1, base_layout::byte_at(ds, speed_at), 0),
        time: carried(c / 4 % 2 == 1, base_layout::byte_at(ds, time_at), 0),
        timer: carried(c / 8 % 2 == 1, three_at(ds, timer_at), 0),
    }
}

fn is_speed(v: u8) -> bool
    ensures { result ≡ is_speed v }
{
    (1 <= v) & (v <= stepper_rules::FASTEST)
}

// Whether a load's control byte, speed and acceleration time are in range.
#[tactic(auto, unfolding(stepper_rules::specs::Carried::in_range))]
fn is_in_range(c: Carried) -> bool
    ensures { result ≡ in_range c }
{
    let k = c.control;
    !base_integers::is_set(5, k)
        & !base_integers::is_set(6, k)
        & (!base_integers::is_set(1, k) | is_speed(c.speed))
        & (!base_integers::is_set(2, k) | (1 <= c.time))
}

#[tactic(auto, unfolding(stepper_rules::specs::Asks::load_meant))]
fn load_asked(ds: &[u8]) -> Result<Order, Fault>
    ensures { result ≡ read ds.now (load_meant ds.now) }
{
    let c = carried_in(ds);
    module_station::counted(needed(base_layout::byte_at(ds, 0)), ds)?;
    module_station::ranged(is_in_range(c))?;
    Ok(Order::LoadTrajectory(c))
}

// Of Set Parameters' five bytes the minimum speed alone is looked at.
#[tactic(auto, unfolding(stepper_rules::specs::Asks::parameters_meant))]
fn parameters_asked(ds: &[u8]) -> Result<Order, Fault>
    ensures { result ≡ read ds.now (parameters_meant ds.now) }
{
    let minimum = base_layout::byte_at(ds, 1);
    module_station::counted(5, ds)?;
    module_station::ranged(is_speed(minimum))?;
    Ok(Order::SetParameters(minimum))
}

fn halt_of(control: u8) -> Halt
    ensures { result ≡ halt_of control }
{
    if base_integers::is_set(2, control) {
        return Halt::Abrupt;
    }
    if base_integers::is_set(3, control) {
        return Halt::Smooth;
    }
    Halt::Keep
}

fn is_one_halt(control: u8) -> bool
    ensures { result ≡ one_halt control }
{
    !(base_integers::is_set(2, control) & base_integers::is_set(3, control))
        & !base_integers::is_set(1, control)
        & (control / 16 == 0)
}

#[tactic(auto, unfolding(stepper_rules::specs::Asks::stop_meant))]
fn stop_asked(ds: &[u8]) -> Result<Order, Fault>
    ensures { result ≡ read ds.now (stop_meant ds.now) }
{
    let c = base_layout::byte_at(ds, 0);
    module_station::counted(1, ds)?;
    module_station::ranged(is_one_halt(c))?;
    Ok(Order::Stop(base_integers::is_set(0, c), halt_of(c)))
}

// Whether there are all the items that an item byte asks for.
pub fn is_shown(items: u8) -> bool
    ensures { result ≡ shows items }
{
    (items / 2 % 16 == 0) & (items / 64 == 0)
}

// The type's own codes.
struct StepperType;

impl Codes for StepperType {
    type Command = Order;

    ghost own = { own };

    ghost shows = { shows };

    #[tactic(auto, unfolding(stepper_rules::specs::Asks::own))]
    fn own_command(code: u8, ds: &[u8]) -> Result<Order, Fault> {
        match code {
            4 => load_asked(ds),
            5 => {
                module_station::counted(0, ds)?;
                Ok(Order::Start)
            }
            6 => parameters_asked(ds),
            7 => stop_asked(ds),
            _ => Err(Fault::Unknown),
        }
    }

    fn is_shown(items: u8) -> bool {
        is_shown(items)
    }
}

// What a frame asks; alone says that it was for this module individually.
#[tactic(auto, unfolding(module_rules::specs::Rules::request))]
pub fn request_of(f: Frame<'_>, alone: bool) -> Result<Request<Order>, Fault>
    ensures { asks_of result ≡ request (frame_of f.entry) alone }
{
    module_station::request_of::<StepperType>(f, alone)
}
