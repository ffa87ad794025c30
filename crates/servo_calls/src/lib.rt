// The calls that work on a servo in its slot of the record. Each reads and puts only the parts that it is about.

#![tactic(auto)]

ghost use Rattle.std.specs.Prelude.{◌≡◌, true, ◌+◌, ◌≤◌, length};
ghost use Rattle.base_layout.specs.Bytes.{pasted};
ghost use Rattle.module_rules.specs.Touch.{frame_of};
ghost use Rattle.module_rules.specs.Kind.{executed, replied};
ghost use Rattle.module_rules.specs.Rules.{kind_of};
ghost use Rattle.module_rules.specs.Slots.{slot_size};
ghost use Rattle.module_rules.specs.Owes.{reply_size};
ghost use Rattle.servo_rules.specs.Tick.{ticked};
ghost use Rattle.servo_rules.specs.Answers.{outputs_of, servo};
ghost use Rattle.servo_slot_rules.specs.Slot.{sample, encode_of, decode_of, ok_of, slots};
ghost use Rattle.servo_slot_rules.proofs.Owed.{owes};

use module_calls::Calls;
use module_rules::{Cause, Fault, Frame, Request};
use servo_rules::{Order, Sample, Servo};

// The servo as a module type; its reply is put of the parts that it tells of.
struct ServoType;

impl Calls for ServoType {
    type Module = Servo;

    type Sample = Sample;

    type Command = Order;

    ghost rules = { servo };

    ghost slots = { slots };

    ghost good = { sample.codec.fits };

    fn request_of(f: Frame<'_>, alone: bool) -> Result<Request<Order>, Fault> {
        servo_parse::request_of(f, alone)
    }

    fn decode(s: &[u8]) -> Servo {
        servo_slot_read::decode(s)
    }

    fn put(s: &mut [u8], m: Servo) {
        servo_slot_put::put(s, m);
    }

    #[tactic(auto, unfolding(servo_slot_rules::specs::Slot::decode_of))]
    fn renewed(s: &[u8]) -> Servo {
        servo_perform::fresh(servo_slot_read::latched_in(s))
    }

    fn can(m: Servo, order: Order) -> bool {
        servo_perform::can(m, order)
    }

    fn perform(m: Servo, order: Order) -> Servo {
        let mut after = servo_perform::perform(m, order);
        after.station.cause = Cause::Executed as u8;
        after
    }

    fn put_reply(s: &[u8], f: Frame<'_>, room: &mut [u8], from: usize) -> usize {
        let station = module_station::station_in(s);
        let latched = servo_slot_read::latched_in(s);
        let counts = servo_slot_read::counts_in(s);
        let run = servo_slot_read::run_in(s);
        let homing = servo_slot_read::homing_in(s);
        servo_reply::put_reply(station, latched, counts, run, homing, f, room, from)
    }

    ghost owes = { owes };
}

// A frame that touches the servo in a slot: the servo after it, and its reply in the room from place from on; how many bytes that has.
pub fn touch(s: &mut [u8], f: Frame<'_>, room: &mut [u8], from: usize) -> usize
    requires { (length s.old ≡ slot_size) × (ok_of s.old ≡ true) × (from + reply_size ≤ length room.old) }
    ensures value { result ≡ length (replied (kind_of servo) (frame_of f.entry) (decode_of s.old)) }
    ensures s_after { s.new ≡ pasted 0 (encode_of (executed (kind_of servo) (frame_of f.entry) (decode_of s.old))) s.old }
    ensures room_after { room.new ≡ pasted from (replied (kind_of servo) (frame_of f.entry) (decode_of s.old)) room.old }
{
    module_calls::touch::<ServoType>(s, f, room, from)
}

// A tick in which homing finds its switch: the whole servo is put.
fn tick_found(s: &mut [u8], x: Sample)
    requires { (length s.old ≡ slot_size) × (ok_of s.old ≡ true) }
    ensures { s.new ≡ pasted 0 (encode_of (ticked x (decode_of s.old))) s.old }
{
    let before = servo_slot_read::decode(s);
    servo_slot_put::put(s, servo_tick::ticked(before, x));
}

// The servo in a slot, after a tick with this sample; what a tick in which homing finds nothing leaves is neither read nor put.
pub fn tick(s: &mut [u8], x: Sample)
    requires { (length s.old ≡ slot_size) × (ok_of s.old ≡ true) }
    ensures { s.new ≡ pasted 0 (encode_of (ticked x (decode_of s.old))) s.old }
{
    let latched = servo_slot_read::latched_in(s);
    if servo_homing::is_changed(s[servo_slot_rules::HOMING_AT], latched.inputs, x.inputs) {
        tick_found(s, x);
        return;
    }
    let counts = servo_slot_read::counts_in(s);
    let last = servo_run::position(latched, counts);
    let here = servo_run::position(x, counts);
    let gains = servo_slot_read::gains_in(s);
    let run = servo_slot_read::run_in(s);
    servo_slot_put::put_ticked(s, x, last, servo_tick::ran(x.power, here, gains, run));
}

// What the board drives for the servo in a slot.
pub fn outputs(s: &[u8]) -> [u8; 8]
    requires { (length s.now ≡ slot_size) × (ok_of s.now ≡ true) }
    ensures { result ≡ outputs_of (decode_of s.now) }
{
    let latched = servo_slot_read::latched_in(s);
    servo_reply::outputs(latched.power, servo_slot_read::drive_in(s))
}
