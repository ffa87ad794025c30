// The step-motor module's bytes in a slot: told from them, put into them, and whether they are valid.

#![tactic(auto)]

ghost use Rattle.std.specs.Prelude.{◌≡◌, ◌+◌, ◌≤◌, ◌++◌, length};
ghost use Rattle.base_layout.specs.Bytes.{pasted};
ghost use Rattle.base_layout.specs.Every.{every};
ghost use Rattle.base_layout.proofs.Shape.{number};
ghost use Rattle.module_rules.specs.Slots.{sample_size, measured_at};
ghost use Rattle.stepper_slot_rules.specs.Slot.{sample, settings, load, motion, settings_at, load_at, motion_at, position_at, stepper_size, encode_of, decode_of, ok_of};
ghost use Rattle.stepper_slot_rules.specs.Parts.{front_tests, rest_tests, move_tests, stop_test, run_test};

use stepper_rules::{Load, Motion, Sample, Settings, Stepper};

// The sample that stands from a place on in a tick's list. A slot is a slice, and each contract says how long: slots are lent out of the record, and an
// array or a struct over one would be a conversion more in each public call.
pub fn sample_in(s: &[u8], at: usize) -> Sample
    requires { at + sample.codec.size ≤ length s.now }
    ensures { result ≡ sample.codec.dec at s.now }
{
    Sample { stop: s[at] == 1 }
}

fn settings_in(s: &[u8]) -> Settings
    requires { load_at ≤ length s.now }
    ensures { result ≡ settings.codec.dec settings_at s.now }
{
    Settings {
        amplifier: s[stepper_slot_rules::AMPLIFIER_AT] == 1,
        minimum: s[stepper_slot_rules::MINIMUM_AT],
        place: base_layout::get4(s, stepper_slot_rules::PLACE_AT),
        timer: base_layout::get4(s, stepper_slot_rules::TIMER_AT),
    }
}

// A flag beside values and no `Option`: where no load waits the other bytes come back as they were read, whatever they are (`there` of `Lawful`,
// proofs/Codec.antt of base_layout).
fn load_in(s: &[u8]) -> Load
    requires { motion_at ≤ length s.now }
    ensures { result ≡ load.codec.dec load_at s.now }
{
    Load {
        waits: s[stepper_slot_rules::WAITS_AT] == 1,
        backward: s[stepper_slot_rules::LOAD_BACKWARD_AT] == 1,
        speed: s[stepper_slot_rules::LOAD_SPEED_AT],
        time: s[stepper_slot_rules::LOAD_TIME_AT],
    }
}

// What runs.
#[tactic(auto, unfolding(stepper_slot_rules::specs::Slot::decode_of))]
pub fn motion_in(s: &[u8]) -> Motion
    requires { position_at ≤ length s.now }
    ensures { result ≡ (decode_of s.now).motion }
{
    Motion {
        speed: s[stepper_slot_rules::SPEED_AT],
        backward: s[stepper_slot_rules::BACKWARD_AT] == 1,
        goal: s[stepper_slot_rules::GOAL_AT],
        time: s[stepper_slot_rules::TIME_AT],
        ticks: s[stepper_slot_rules::TICKS_AT],
        stopping: s[stepper_slot_rules::STOPPING_AT] == 1,
    }
}

#[tactic(auto, unfolding(stepper_slot_rules::specs::Slot::decode_of))]
pub fn position_in(s: &[u8]) -> u32
    requires { stepper_size ≤ length s.now }
    ensures { result ≡ (decode_of s.now).position }
{
    base_layout::get4(s, stepper_slot_rules::POSITION_AT)
}

// The module in a slot.
#[tactic(auto, unfolding(stepper_slot_rules::specs::Slot::decode_of))]
pub fn decode(s: &[u8]) -> Stepper
    requires { stepper_size ≤ length s.now }
    ensures { result ≡ decode_of s.now }
{
    Stepper {
        station: module_station::station_in(s),
        settings: settings_in(s),
        load: load_in(s),
        motion: motion_in(s),
        position: position_in(s),
    }
}

fn stored_bytes(x: Settings, l: Load) -> [u8; stepper_slot_rules::STORED_LEN]
    ensures { result ≡ settings.codec.enc x ++ load.codec.enc l }
{
    let [a, b, c, d] = x.place.to_le_bytes();
    let [e, f, g, h] = x.timer.to_le_bytes();
    [
        x.amplifier as u8,
        x.minimum,
        a,
        b,
        c,
        d,
        e,
        f,
        g,
        h,
        l.waits as u8,
        l.backward as u8,
        l.speed,
        l.time,
    ]
}

fn run_bytes(p: Motion, x: u32) -> [u8; stepper_slot_rules::RUN_LEN]
    ensures { result ≡ motion.codec.enc p ++ (number 4).codec.enc x }
{
    let [a, b, c, d] = x.to_le_bytes();
    [
        p.speed,
        p.backward as u8,
        p.goal,
        p.time,
        p.ticks,
        p.stopping as u8,
        a,
        b,
        c,
        d,
    ]
}

// Puts what runs and the position alone.
pub fn put_run(s: &mut [u8], p: Motion, x: u32)
    requires { stepper_size ≤ length s.old }
    ensures { s.new ≡ pasted motion_at (motion.codec.enc p ++ (number 4).codec.enc x) s.old }
{
    let bytes = run_bytes(p, x);
    base_layout::put_all(s, stepper_slot_rules::MOTION_AT, &bytes);
}

// Puts a module into a slot, from the slot's start on.
#[tactic(auto, using(stepper_slot_rules::proofs::Putting::put_is))]
pub fn put(s: &mut [u8], m: Stepper)
    requires { stepper_size ≤ length s.old }
    ensures { s.new ≡ pasted 0 (encode_of m) s.old }
{
    let head = module_station::head_bytes(stepper_rules::TYPE, m.station);
    let stored = stored_bytes(m.settings, m.load);
    base_layout::put_all(s, 0, &head);
    base_layout::put_all(s, stepper_slot_rules::SETTINGS_AT, &stored);
    put_run(s, m.motion, m.position);
}

// Whether what is asked at rest and moving holds: type, station, items that there are, flags and the load's speed. Flags stand together, so that the
// compiled code tests them as one.
fn is_front_ok(s: &[u8]) -> bool
    requires { stepper_size ≤ length s.now }
    ensures { result ≡ every (front_tests s.now) }
{
    (s[0] == stepper_rules::TYPE)
        & (s[module_rules::LEADER_AT] <= 1)
        & (s[module_rules::LOW_AT] <= 1)
        & (s[stepper_slot_rules::AMPLIFIER_AT] <= 1)
        & (s[stepper_slot_rules::WAITS_AT] <= 1)
        & (s[stepper_slot_rules::LOAD_BACKWARD_AT] <= 1)
        & (s[stepper_slot_rules::BACKWARD_AT] <= 1)
        & (s[module_rules::CAUSE_AT] <= module_rules::CAUSE_MOST)
        & (s[stepper_slot_rules::LOAD_SPEED_AT] <= stepper_rules::FASTEST)
        & stepper_parse::is_shown(s[module_rules::ITEMS_AT])
}

// At rest all else of what runs is 0, too.
fn is_resting(s: &[u8]) -> bool
    requires { stepper_size ≤ length s.now }
    ensures { result ≡ every (rest_tests s.now) }
{
    (s[stepper_slot_rules::MINIMUM_AT] <= stepper_rules::FASTEST)
        & (s[stepper_slot_rules::BACKWARD_AT] == 0)
        & (s[stepper_slot_rules::GOAL_AT] == 0)
        & (s[stepper_slot_rules::TIME_AT] == 0)
        & (s[stepper_slot_rules::TICKS_AT] == 0)
        & (s[stepper_slot_rules::STOPPING_AT] == 0)
}

fn is_running(s: &[u8]) -> bool
    requires { stepper_size ≤ length s.now }
    ensures { result ≡ every (move_tests s.now) }
{
    let minimum = s[stepper_slot_rules::MINIMUM_AT];
    let speed = s[stepper_slot_rules::SPEED_AT];
    let goal = s[stepper_slot_rules::GOAL_AT];
    (1 <= minimum)
        & (minimum <= speed)
        & (speed <= stepper_rules::FASTEST)
        & (minimum <= goal)
        & (goal <= stepper_rules::FASTEST)
        & (s[stepper_slot_rules::TICKS_AT] < s[stepper_slot_rules::TIME_AT])
}

// A smooth stop goes to the minimum. Where none is under way, the first test alone is made: with `&&` for `&` both sides compile to a number for each module,
// and the list of 32 moving took 1,633 instructions in place of 1,473.
fn is_stop_ok(stopping: u8, goal: u8, minimum: u8) -> bool
    ensures { result ≡ stop_test stopping goal minimum }
{
    stopping == 0 || ((stopping == 1) & (goal == minimum))
}

fn is_run_ok(s: &[u8]) -> bool
    requires { stepper_size ≤ length s.now }
    ensures { result ≡ run_test s.now }
{
    if s[stepper_slot_rules::SPEED_AT] == 0 {
        return is_resting(s);
    }
    let stopping = s[stepper_slot_rules::STOPPING_AT];
    let goal = s[stepper_slot_rules::GOAL_AT];
    let minimum = s[stepper_slot_rules::MINIMUM_AT];
    is_running(s) && is_stop_ok(stopping, goal, minimum)
}

// Whether a slot holds a valid step-motor module.
pub fn is_ok(s: &[u8]) -> bool
    requires { stepper_size ≤ length s.now }
    ensures { result ≡ ok_of s.now }
{
    is_front_ok(s) && is_run_ok(s)
}

// Whether the sample in ten bytes of a tick's list has all its fields in range: the stop input is 0 or 1.
pub fn is_sample_ok(s: &[u8]) -> bool
    requires { length s.now ≡ sample_size }
    ensures { result ≡ every (sample.codec.tests measured_at s.now) }
{
    s[module_rules::MEASURED_AT] <= 1
}
