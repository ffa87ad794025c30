// The I/O module's bytes in a slot: told from them, put into them, and whether they are valid.

#![tactic(auto)]

ghost use Rattle.std.specs.Prelude.{◌≡◌, ◌+◌, ◌≤◌, ◌∷◌, ◌++◌, length};
ghost use Rattle.base_layout.specs.Bytes.{pasted};
ghost use Rattle.base_layout.specs.Every.{every};
ghost use Rattle.module_rules.specs.Slots.{sample_size, measured_at};
ghost use Rattle.inout_slot_rules.specs.Slot.{sample, pins, synch, capture, latched_at, pins_at, synch_at, timer_at, captured_at, io_size, encode_of, decode_of, ok_of};

use inout_rules::{Capture, Io, Pins, Sample, Synch};

// The sample that stands from a place on, in a slot or in a tick's list. A slot is a slice, and each contract says how long: slots are lent out of the
// record, and an array or a struct over one would be a conversion more in each public call.
pub fn sample_in(s: &[u8], at: usize) -> Sample
    requires { at + sample.codec.size ≤ length s.now }
    ensures { result ≡ sample.codec.dec at s.now }
{
    Sample {
        inputs: base_layout::get2(s, at),
        ad1: s[at + 2],
        ad2: s[at + 3],
        ad3: s[at + 4],
        counter: base_layout::get4(s, at + 5),
    }
}

// The sample that the last tick latched.
#[tactic(auto, unfolding(inout_slot_rules::specs::Slot::decode_of))]
pub fn latched_in(s: &[u8]) -> Sample
    requires { pins_at ≤ length s.now }
    ensures { result ≡ (decode_of s.now).latched }
{
    sample_in(s, inout_slot_rules::LATCHED_AT)
}

fn pins_in(s: &[u8]) -> Pins
    requires { synch_at ≤ length s.now }
    ensures { result ≡ pins.codec.dec pins_at s.now }
{
    Pins {
        direction: base_layout::get2(s, inout_slot_rules::DIRECTION_AT),
        register: base_layout::get2(s, inout_slot_rules::REGISTER_AT),
        pwm1: s[inout_slot_rules::PWM1_AT],
        pwm2: s[inout_slot_rules::PWM2_AT],
    }
}

fn synch_in(s: &[u8]) -> Synch
    requires { timer_at ≤ length s.now }
    ensures { result ≡ synch.codec.dec synch_at s.now }
{
    Synch {
        bits: base_layout::get2(s, inout_slot_rules::BITS_AT),
        pwm1: s[inout_slot_rules::STORED1_AT],
        pwm2: s[inout_slot_rules::STORED2_AT],
    }
}

fn capture_in(s: &[u8]) -> Capture
    requires { io_size ≤ length s.now }
    ensures { result ≡ capture.codec.dec captured_at s.now }
{
    Capture {
        inputs: base_layout::get2(s, inout_slot_rules::INPUTS_AT),
        counter: base_layout::get4(s, inout_slot_rules::COUNTER_AT),
    }
}

// The module in a slot.
#[tactic(auto, unfolding(inout_slot_rules::specs::Slot::decode_of))]
pub fn decode(s: &[u8]) -> Io
    requires { io_size ≤ length s.now }
    ensures { result ≡ decode_of s.now }
{
    Io {
        station: module_station::station_in(s),
        latched: latched_in(s),
        pins: pins_in(s),
        synch: synch_in(s),
        timer: s[inout_slot_rules::TIMER_AT],
        captured: capture_in(s),
    }
}

fn sample_bytes(x: Sample) -> [u8; inout_slot_rules::SAMPLE_LEN]
    ensures { result ≡ sample.codec.enc x }
{
    let [low, high] = x.inputs.to_le_bytes();
    let [a, b, c, d] = x.counter.to_le_bytes();
    [low, high, x.ad1, x.ad2, x.ad3, a, b, c, d]
}

fn outputs_bytes(p: Pins, y: Synch) -> [u8; inout_slot_rules::OUTPUTS_LEN]
    ensures { result ≡ pins.codec.enc p ++ synch.codec.enc y }
{
    let [a, b] = p.direction.to_le_bytes();
    let [c, d] = p.register.to_le_bytes();
    let [e, f] = y.bits.to_le_bytes();
    [a, b, c, d, p.pwm1, p.pwm2, e, f, y.pwm1, y.pwm2]
}

fn tail_bytes(timer: u8, k: Capture) -> [u8; inout_slot_rules::TAIL_LEN]
    ensures { result ≡ timer ∷ capture.codec.enc k }
{
    let [low, high] = k.inputs.to_le_bytes();
    let [a, b, c, d] = k.counter.to_le_bytes();
    [timer, low, high, a, b, c, d]
}

// Puts the latched sample alone.
pub fn put_latched(s: &mut [u8], x: Sample)
    requires { io_size ≤ length s.old }
    ensures { s.new ≡ pasted latched_at (sample.codec.enc x) s.old }
{
    let bytes = sample_bytes(x);
    base_layout::put_all(s, inout_slot_rules::LATCHED_AT, &bytes);
}

// Puts a module into a slot, from the slot's start on.
#[tactic(auto, using(inout_slot_rules::proofs::Putting::put_is))]
pub fn put(s: &mut [u8], m: Io)
    requires { io_size ≤ length s.old }
    ensures { s.new ≡ pasted 0 (encode_of m) s.old }
{
    let head = module_station::head_bytes(inout_rules::TYPE, m.station);
    let outputs = outputs_bytes(m.pins, m.synch);
    let tail = tail_bytes(m.timer, m.captured);
    base_layout::put_all(s, 0, &head);
    put_latched(s, m.latched);
    base_layout::put_all(s, inout_slot_rules::PINS_AT, &outputs);
    base_layout::put_all(s, inout_slot_rules::TIMER_AT, &tail);
}

// Whether a slot holds a valid I/O module: its type byte, its station, and twelve-bit numbers below 4,096.
#[tactic(auto, unfolding(inout_slot_rules::specs::Slot::ok_of))]
pub fn is_ok(s: &[u8]) -> bool
    requires { io_size ≤ length s.now }
    ensures { result ≡ ok_of s.now }
{
    (s[0] == inout_rules::TYPE)
        & (s[module_rules::LEADER_AT] <= 1)
        & (s[module_rules::LOW_AT] <= 1)
        & (s[module_rules::CAUSE_AT] <= module_rules::CAUSE_MOST)
        & (s[inout_slot_rules::LATCHED_AT + 1] <= 15)
        & (s[inout_slot_rules::DIRECTION_AT + 1] <= 15)
        & (s[inout_slot_rules::REGISTER_AT + 1] <= 15)
        & (s[inout_slot_rules::BITS_AT + 1] <= 15)
        & (s[inout_slot_rules::INPUTS_AT + 1] <= 15)
}

// Whether the sample in ten bytes of a tick's list has all its fields in range: twelve input bits.
pub fn is_sample_ok(s: &[u8]) -> bool
    requires { length s.now ≡ sample_size }
    ensures { result ≡ every (sample.codec.tests measured_at s.now) }
{
    s[module_rules::MEASURED_AT + 1] <= 15
}
