// The calls on an I/O module in a slot: a frame, a tick, and what the board drives.

#![tactic(auto)]

ghost use Rattle.std.specs.Prelude.{◌≡◌, ◌+◌, ◌≤◌, true, length};
ghost use Rattle.base_layout.specs.Bytes.{pasted};
ghost use Rattle.module_rules.specs.Touch.{frame_of};
ghost use Rattle.module_rules.specs.Kind.{executed, replied};
ghost use Rattle.module_rules.specs.Rules.{kind_of};
ghost use Rattle.module_rules.specs.Slots.{slot_size};
ghost use Rattle.module_rules.specs.Owes.{reply_size};
ghost use Rattle.inout_rules.specs.State.{ticked};
ghost use Rattle.inout_rules.specs.Answers.{outputs_of, inout};
ghost use Rattle.inout_slot_rules.specs.Slot.{sample, encode_of, decode_of, ok_of, slots};
ghost use Rattle.inout_slot_rules.proofs.Owed.{owes};

use inout_rules::{Command, Io, Sample};
use module_calls::Calls;
use module_rules::{Cause, Fault, Frame, Request};

// The I/O module as a module type; its own commands can always be carried out.
struct InoutType;

impl Calls for InoutType {
    type Module = Io;

    type Sample = Sample;

    type Command = Command;

    ghost rules = { inout };

    ghost slots = { slots };

    ghost good = { sample.codec.fits };

    fn request_of(f: Frame<'_>, alone: bool) -> Result<Request<Command>, Fault> {
        inout_parse::request_of(f, alone)
    }

    fn decode(s: &[u8]) -> Io {
        inout_slot::decode(s)
    }

    fn put(s: &mut [u8], m: Io) {
        inout_slot::put(s, m);
    }

    fn renewed(s: &[u8]) -> Io {
        inout_perform::fresh(inout_slot::latched_in(s))
    }

    fn can(_m: Io, _c: Command) -> bool {
        true
    }

    fn perform(m: Io, c: Command) -> Io {
        let mut after = inout_perform::perform(m, c);
        after.station.cause = Cause::Executed as u8;
        after
    }

    fn put_reply(s: &[u8], f: Frame<'_>, room: &mut [u8], from: usize) -> usize {
        inout_perform::put_reply(inout_slot::decode(s), f, room, from)
    }

    ghost owes = { owes };
}

// A frame that touches the module in a slot: the module after it, and its reply in the room from place from on; how many bytes that has.
pub fn touch(s: &mut [u8], f: Frame<'_>, room: &mut [u8], from: usize) -> usize
    requires { (length s.old ≡ slot_size) × (ok_of s.old ≡ true) × (from + reply_size ≤ length room.old) }
    ensures value { result ≡ length (replied (kind_of inout) (frame_of f.entry) (decode_of s.old)) }
    ensures s_after { s.new ≡ pasted 0 (encode_of (executed (kind_of inout) (frame_of f.entry) (decode_of s.old))) s.old }
    ensures room_after { room.new ≡ pasted from (replied (kind_of inout) (frame_of f.entry) (decode_of s.old)) room.old }
{
    module_calls::touch::<InoutType>(s, f, room, from)
}

// The module in a slot, after a tick, which latches this sample.
pub fn tick(s: &mut [u8], x: Sample)
    requires { (length s.old ≡ slot_size) × (ok_of s.old ≡ true) }
    ensures { s.new ≡ pasted 0 (encode_of (ticked x (decode_of s.old))) s.old }
{
    inout_slot::put_latched(s, x);
}

// What the board drives for the module in a slot, in eight bytes.
pub fn outputs(s: &[u8]) -> [u8; 8]
    requires { length s.now ≡ slot_size }
    ensures { result ≡ outputs_of (decode_of s.now) }
{
    let m = inout_slot::decode(s);
    inout_perform::outputs(m)
}
