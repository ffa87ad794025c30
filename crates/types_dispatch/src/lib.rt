// The calls on a slot of any type: each goes to the crate of its type, by the first byte. A further type is an arm in each. The byte itself is matched,
// and no enum made from it: when that was tried, a tick of 32 I/O modules took 3,653 instructions in place of 2,691.

#![tactic(auto)]

ghost use Rattle.std.specs.Prelude.{◌≡◌, true, ◌+◌, ◌≤◌, length};
ghost use Rattle.base_layout.specs.Bytes.{pasted};
ghost use Rattle.module_rules.specs.Touch.{frame_of};
ghost use Rattle.module_rules.specs.Kind.{executed, replied};
ghost use Rattle.module_rules.specs.Slots.{slot_size, sample_size};
ghost use Rattle.module_rules.specs.Owes.{reply_size};
ghost use Rattle.types_rules.specs.Table.{measured};
ghost use Rattle.types_rules.specs.Types.{kind, slots, powered, outputs, sample_in, in_range};

use module_rules::Frame;
use types_rules::Measured;

// Whether a slot holds a valid module. The last type is named, too, so that its own test of the byte compiles to nothing: moving, the list of 32 step-motor
// modules took 1,633 instructions in place of 1,760.
pub fn is_ok(s: &[u8]) -> bool
    requires { length s.now ≡ slot_size }
    ensures { result ≡ slots.ok s.now }
{
    match s[0] {
        servo_rules::TYPE => servo_slot_list::is_ok(s),
        inout_rules::TYPE => inout_slot::is_ok(s),
        stepper_rules::TYPE => stepper_slot::is_ok(s),
        _ => false,
    }
}

// A module of a type at power-up, put into a slot.
pub fn power_up(s: &mut [u8], t: u8)
    requires { length s.old ≡ slot_size }
    ensures { s.new ≡ pasted 0 (slots.enc (powered t)) s.old }
{
    match t {
        servo_rules::TYPE => servo_slot_put::put(s, servo_perform::power_up()),
        inout_rules::TYPE => inout_slot::put(s, inout_perform::power_up()),
        _ => stepper_slot::put(s, stepper_perform::power_up()),
    }
}

// A frame that touches the module in a slot: the module after it, and its reply in the room from place from on; how many bytes that has.
pub fn touch(s: &mut [u8], f: Frame<'_>, room: &mut [u8], from: usize) -> usize
    requires { (length s.old ≡ slot_size) × (slots.ok s.old ≡ true) × (from + reply_size ≤ length room.old) }
    ensures value { result ≡ length (replied kind (frame_of f.entry) (slots.dec s.old)) }
    ensures s_after { s.new ≡ pasted 0 (slots.enc (executed kind (frame_of f.entry) (slots.dec s.old))) s.old }
    ensures room_after { room.new ≡ pasted from (replied kind (frame_of f.entry) (slots.dec s.old)) room.old }
{
    match s[0] {
        servo_rules::TYPE => servo_calls::touch(s, f, room, from),
        inout_rules::TYPE => inout_calls::touch(s, f, room, from),
        _ => stepper_calls::touch(s, f, room, from),
    }
}

// The sample in ten bytes of a tick's list. Each is bound before its case is made: made in one, the case is packed into a word in each tick and taken
// apart again, and a tick of 32 I/O modules took 2,691 instructions in place of 1,988.
pub fn sample_in(s: &[u8]) -> Measured
    requires { length s.now ≡ sample_size }
    ensures { measured result ≡ sample_in s.now }
{
    let at = module_rules::MEASURED_AT;
    match s[0] {
        servo_rules::TYPE => {
            let x = servo_slot_read::sample_in(s, at);
            Measured::Servo(x)
        }
        inout_rules::TYPE => {
            let x = inout_slot::sample_in(s, at);
            Measured::Io(x)
        }
        _ => {
            let x = stepper_slot::sample_in(s, at);
            Measured::Stepper(x)
        }
    }
}

// Whether its fields are in range.
pub fn is_sample_ok(s: &[u8]) -> bool
    requires { length s.now ≡ sample_size }
    ensures { result ≡ in_range s.now }
{
    match s[0] {
        servo_rules::TYPE => servo_slot_list::is_sample_ok(s),
        inout_rules::TYPE => inout_slot::is_sample_ok(s),
        _ => stepper_slot::is_sample_ok(s),
    }
}

// The module in a slot, after a tick that hands it this sample; one of another type changes nothing.
pub fn tick(s: &mut [u8], x: Measured)
    requires { (length s.old ≡ slot_size) × (slots.ok s.old ≡ true) }
    ensures { s.new ≡ pasted 0 (slots.enc (kind.tick (measured x) (slots.dec s.old))) s.old }
{
    // By the number: of the last arm of a match on the sample and the type at once, the proof learns nothing.
    match x {
        Measured::Servo(y) if s[0] == servo_rules::TYPE => servo_calls::tick(s, y),
        Measured::Io(y) if s[0] == inout_rules::TYPE => inout_calls::tick(s, y),
        Measured::Stepper(y) if s[0] == stepper_rules::TYPE => stepper_calls::tick(s, y),
        _ => {}
    }
}

// What the board drives for the module in a slot.
pub fn outputs(s: &[u8]) -> [u8; 8]
    requires { (length s.now ≡ slot_size) × (slots.ok s.now ≡ true) }
    ensures { result ≡ outputs (slots.dec s.now) }
{
    match s[0] {
        servo_rules::TYPE => servo_calls::outputs(s),
        inout_rules::TYPE => inout_calls::outputs(s),
        _ => stepper_calls::outputs(s),
    }
}
