// The calls on a step-motor module in a slot: a frame, a tick, and what the board drives.

#![tactic(auto)]

ghost use Rattle.std.specs.Prelude.{◌≡◌, ◌+◌, ◌≤◌, ◌<◌, true, cond, length};
ghost use Rattle.base_layout.specs.Bytes.{pasted};
ghost use Rattle.module_rules.specs.Touch.{frame_of};
ghost use Rattle.module_rules.specs.Kind.{executed, replied};
ghost use Rattle.module_rules.specs.Rules.{kind_of};
ghost use Rattle.module_rules.specs.Slots.{slot_size};
ghost use Rattle.module_rules.specs.Owes.{reply_size};
ghost use Rattle.stepper_rules.specs.State.{rest};
ghost use Rattle.stepper_rules.specs.Ramp.{onward, ticked};
ghost use Rattle.stepper_rules.specs.Answers.{outputs_of, stepper};
ghost use Rattle.stepper_slot_rules.specs.Slot.{sample, encode_of, decode_of, ok_of, slots};
ghost use Rattle.stepper_slot_rules.proofs.Owed.{owes};

use module_calls::Calls;
use module_rules::{Cause, Fault, Frame, Request};
use stepper_rules::{Motion, Order, Sample, Stepper};

// The step-motor module as a module type.
struct StepperType;

impl Calls for StepperType {
    type Module = Stepper;

    type Sample = Sample;

    type Command = Order;

    ghost rules = { stepper };

    ghost slots = { slots };

    ghost good = { sample.codec.fits };

    fn request_of(f: Frame<'_>, alone: bool) -> Result<Request<Order>, Fault> {
        stepper_parse::request_of(f, alone)
    }

    fn decode(s: &[u8]) -> Stepper {
        stepper_slot::decode(s)
    }

    fn put(s: &mut [u8], m: Stepper) {
        stepper_slot::put(s, m);
    }

    fn renewed(_s: &[u8]) -> Stepper {
        stepper_perform::power_up()
    }

    fn can(m: Stepper, order: Order) -> bool {
        stepper_perform::can(m, order)
    }

    fn perform(m: Stepper, order: Order) -> Stepper {
        let mut after = stepper_perform::perform(m, order);
        after.station.cause = Cause::Executed as u8;
        after
    }

    fn put_reply(s: &[u8], f: Frame<'_>, room: &mut [u8], from: usize) -> usize {
        stepper_perform::put_reply(stepper_slot::decode(s), f, room, from)
    }

    ghost owes = { owes };
}

// A frame that touches the module in a slot: the module after it, and its reply in the room from place from on; how many bytes that has.
pub fn touch(s: &mut [u8], f: Frame<'_>, room: &mut [u8], from: usize) -> usize
    requires { (length s.old ≡ slot_size) × (ok_of s.old ≡ true) × (from + reply_size ≤ length room.old) }
    ensures value { result ≡ length (replied (kind_of stepper) (frame_of f.entry) (decode_of s.old)) }
    ensures s_after { s.new ≡ pasted 0 (encode_of (executed (kind_of stepper) (frame_of f.entry) (decode_of s.old))) s.old }
    ensures room_after { room.new ≡ pasted from (replied (kind_of stepper) (frame_of f.entry) (decode_of s.old)) room.old }
{
    module_calls::touch::<StepperType>(s, f, room, from)
}

// What runs, after a tick; the stop input first ends the motion.
fn ran(x: Sample, p: Motion) -> Motion
    requires { p.ticks < 255 }
    ensures { result ≡ cond x.stop rest (onward p) }
{
    if x.stop {
        return stepper_perform::rest();
    }
    stepper_perform::onward(p)
}

// The module in a slot, after a tick with this sample: what runs and the position alone are read and put, and at rest nothing is.
pub fn tick(s: &mut [u8], x: Sample)
    requires { (length s.old ≡ slot_size) × (ok_of s.old ≡ true) }
    ensures { s.new ≡ pasted 0 (encode_of (ticked x (decode_of s.old))) s.old }
{
    let before = stepper_slot::motion_in(s);
    if before.speed == 0 {
        return;
    }
    let after = ran(x, before);
    let position = stepper_slot::position_in(s);
    stepper_slot::put_run(s, after, stepper_perform::moved(after, position));
}

// What the board drives for the module in a slot, in eight bytes.
pub fn outputs(s: &[u8]) -> [u8; 8]
    requires { length s.now ≡ slot_size }
    ensures { result ≡ outputs_of (decode_of s.now) }
{
    let m = stepper_slot::decode(s);
    stepper_perform::outputs(m)
}
