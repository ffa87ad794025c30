// The step-motor module by value: its power-up, what its own commands make of it and whether they can now, a tick's new speed and position, its
// replies, and what the board drives for it.

#![tactic(auto)]

ghost use Rattle.std.specs.Prelude.{◌≡◌, ◌+◌, ◌<◌, ◌≤◌, length};
ghost use Rattle.base_layout.specs.Bytes.{pasted};
ghost use Rattle.module_rules.specs.Touch.{frame_of};
ghost use Rattle.module_rules.specs.Owes.{reply_size};
ghost use Rattle.stepper_rules.specs.State.{no_load, rest, is_moving, started};
ghost use Rattle.stepper_rules.specs.Ramp.{nearer, changed, onward, moved};
ghost use Rattle.stepper_rules.specs.Perform.{load_of, storing, loaded, startable, begun, start, parameters_set, smooth, halted_by, left_by, stopped, can, perform};
ghost use Rattle.stepper_rules.specs.Answers.{status, numbers, outputs_of, reply};

use module_rules::Frame;
use stepper_rules::{Carried, Halt, Load, Motion, Order, Settings, Stepper};

fn no_load() -> Load
    ensures { result ≡ no_load }
{
    Load {
        waits: false,
        backward: false,
        speed: 0,
        time: 0,
    }
}

pub fn rest() -> Motion
    ensures { result ≡ rest }
{
    Motion {
        speed: 0,
        backward: false,
        goal: 0,
        time: 0,
        ticks: 0,
        stopping: false,
    }
}

fn is_moving(p: Motion) -> bool
    ensures { result ≡ is_moving p }
{
    p.speed != 0
}

// Hard Reset makes the same.
pub fn power_up() -> Stepper
    ensures { result ≡ started }
{
    Stepper {
        station: module_station::power_up(),
        settings: Settings {
            amplifier: false,
            minimum: 0,
            place: 0,
            timer: 0,
        },
        load: no_load(),
        motion: rest(),
        position: 0,
    }
}

// One unit nearer the goal.
fn nearer(speed: u8, goal: u8) -> u8
    ensures { result ≡ nearer speed goal }
{
    if speed < goal {
        speed + 1
    } else if goal < speed {
        speed - 1
    } else {
        speed
    }
}

// The tick that changes the speed; a smooth stop ends where it has come to its goal.
#[tactic(auto, unfolding(stepper_rules::specs::Ramp::changed))]
fn changed(p: Motion) -> Motion
    ensures { result ≡ changed p }
{
    if p.stopping && p.speed == p.goal {
        return rest();
    }
    Motion {
        speed: nearer(p.speed, p.goal),
        ticks: 0,
        ..p
    }
}

// What runs, after a tick.
#[tactic(auto, unfolding(stepper_rules::specs::Ramp::onward))]
pub fn onward(p: Motion) -> Motion
    requires { p.ticks < 255 }
    ensures { result ≡ onward p }
{
    if !is_moving(p) {
        return p;
    }
    let ticks = p.ticks + 1;
    if ticks == p.time {
        return changed(p);
    }
    Motion { ticks, ..p }
}

// The position after a tick that left this motion.
#[tactic(auto, unfolding(stepper_rules::specs::Ramp::moved))]
pub fn moved(p: Motion, x: u32) -> u32
    ensures { result ≡ moved p x }
{
    let speed = p.speed as u32;
    if p.backward {
        x.wrapping_sub(speed)
    } else {
        x.wrapping_add(speed)
    }
}

#[tactic(auto, unfolding(stepper_rules::specs::Perform::load_of))]
fn load_of(c: Carried) -> Load
    ensures { result ≡ load_of c }
{
    Load {
        waits: true,
        backward: base_integers::is_set(4, c.control),
        speed: c.speed,
        time: c.time,
    }
}

// A carried position or timer count is stored.
#[tactic(auto, unfolding(stepper_rules::specs::Perform::storing))]
fn storing(s: Settings, c: Carried) -> Settings
    ensures { result ≡ storing c s }
{
    let is_placed = base_integers::is_set(0, c.control);
    let is_timed = base_integers::is_set(3, c.control);
    Settings {
        place: if is_placed { c.place } else { s.place },
        timer: if is_timed { c.timer } else { s.timer },
        ..s
    }
}

#[tactic(auto, unfolding(stepper_rules::specs::Perform::loaded))]
fn loaded(m: Stepper, c: Carried) -> Stepper
    ensures { result ≡ loaded c m }
{
    Stepper {
        settings: storing(m.settings, c),
        load: load_of(c),
        ..m
    }
}

// Whether a start can be carried out now.
#[tactic(auto, unfolding(stepper_rules::specs::Perform::startable))]
fn is_startable(m: Stepper) -> bool
    ensures { result ≡ startable m }
{
    let l = m.load;
    let p = m.motion;
    0 < m.settings.minimum
        && l.waits
        && 0 < l.speed
        && 0 < l.time
        && (!is_moving(p) || l.backward == p.backward)
}

// From rest a start gives the minimum speed at once. A goal below the minimum means the minimum.
#[tactic(auto, unfolding(stepper_rules::specs::Perform::begun))]
fn begun(p: Motion, l: Load, minimum: u8) -> Motion
    ensures { result ≡ begun minimum l p }
{
    Motion {
        speed: if is_moving(p) { p.speed } else { minimum },
        backward: l.backward,
        goal: l.speed.max(minimum),
        time: l.time,
        ticks: 0,
        stopping: false,
    }
}

// A start, which uses the load up.
#[tactic(auto, unfolding(stepper_rules::specs::Perform::start))]
fn start(m: Stepper) -> Stepper
    ensures { result ≡ start m }
{
    Stepper {
        load: no_load(),
        motion: begun(m.motion, m.load, m.settings.minimum),
        ..m
    }
}

// Whether a load can be carried out: one that starts now must be startable.
fn can_load(m: Stepper, c: Carried) -> bool
    ensures { result ≡ can (Order.LoadTrajectory c) m }
{
    !base_integers::is_set(7, c.control) || is_startable(loaded(m, c))
}

fn with_load(m: Stepper, c: Carried) -> Stepper
    ensures { result ≡ perform (Order.LoadTrajectory c) m }
{
    let after = loaded(m, c);
    if base_integers::is_set(7, c.control) {
        return start(after);
    }
    after
}

// Set Parameters: the minimum stays while moving.
#[tactic(auto, unfolding(stepper_rules::specs::Perform::parameters_set))]
fn parameters_set(m: Stepper, minimum: u8) -> Stepper
    ensures { result ≡ parameters_set minimum m }
{
    if is_moving(m.motion) {
        return m;
    }
    Stepper {
        settings: Settings {
            minimum,
            ..m.settings
        },
        ..m
    }
}

// A smooth stop of what moves.
#[tactic(auto, unfolding(stepper_rules::specs::Perform::smooth))]
fn smooth(p: Motion, minimum: u8) -> Motion
    ensures { result ≡ smooth minimum p }
{
    if !is_moving(p) {
        return p;
    }
    Motion {
        goal: minimum,
        ticks: 0,
        stopping: true,
        ..p
    }
}

fn halted_by(p: Motion, h: Halt, minimum: u8) -> Motion
    ensures { result ≡ halted_by h minimum p }
{
    match h {
        Halt::Keep => p,
        Halt::Abrupt => rest(),
        Halt::Smooth => smooth(p, minimum),
    }
}

fn left_by(l: Load, h: Halt) -> Load
    ensures { result ≡ left_by h l }
{
    match h {
        Halt::Keep => l,
        Halt::Abrupt | Halt::Smooth => no_load(),
    }
}

#[tactic(auto, unfolding(stepper_rules::specs::Perform::stopped))]
fn stopped(m: Stepper, amplifier: bool, h: Halt) -> Stepper
    ensures { result ≡ stopped amplifier h m }
{
    Stepper {
        settings: Settings {
            amplifier,
            ..m.settings
        },
        load: left_by(m.load, h),
        motion: halted_by(m.motion, h, m.settings.minimum),
        ..m
    }
}

// Whether an own command can be carried out now.
pub fn can(m: Stepper, c: Order) -> bool
    ensures { result ≡ can c m }
{
    match c {
        Order::LoadTrajectory(x) => can_load(m, x),
        Order::Start => is_startable(m),
        Order::SetParameters(_) | Order::Stop(_, _) => true,
    }
}

// What an own command makes of the module.
pub fn perform(m: Stepper, c: Order) -> Stepper
    ensures { result ≡ perform c m }
{
    match c {
        Order::LoadTrajectory(x) => with_load(m, x),
        Order::Start => start(m),
        Order::SetParameters(minimum) => parameters_set(m, minimum),
        Order::Stop(amplifier, halt) => stopped(m, amplifier, halt),
    }
}

fn status(m: Stepper) -> u8
    ensures { result ≡ status m }
{
    is_moving(m.motion) as u8 + module_station::cause_bit(m.station.cause)
}

fn numbers(m: Stepper) -> [u32; 8]
    ensures { result ≡ numbers m }
{
    [
        m.position,
        0,
        0,
        0,
        0,
        stepper_rules::TYPE_AND_VERSION,
        0,
        0,
    ]
}

// Puts the reply to a frame into the room from place from on; how many bytes it has.
#[tactic(auto, unfolding(module_rules::specs::Rules::reply))]
pub fn put_reply(m: Stepper, f: Frame<'_>, room: &mut [u8], from: usize) -> usize
    requires { from + reply_size ≤ length room.old }
    ensures value { result ≡ length (reply (frame_of f.entry) m) }
    ensures room_after { room.new ≡ pasted from (reply (frame_of f.entry) m) room.old }
{
    module_reply::put_reply(
        room,
        from,
        f,
        m.station,
        status(m),
        stepper_rules::SIZES,
        numbers(m),
    )
}

// What the board drives, in eight bytes.
pub fn outputs(m: Stepper) -> [u8; 8]
    ensures { result ≡ outputs_of m }
{
    [
        m.motion.speed,
        m.motion.backward as u8,
        m.settings.amplifier as u8,
        0,
        0,
        0,
        0,
        0,
    ]
}
