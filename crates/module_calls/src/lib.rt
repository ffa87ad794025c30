// The calls on a module of any type in a slot that a frame makes.

#![tactic(auto)]

ghost use Rattle.std.specs.Prelude.{◌≡◌, ◌+◌, ◌≤◌, true, length};
ghost use Rattle.base_layout.specs.Bytes.{pasted};
ghost use Rattle.module_rules.specs.Touch.{frame_of};
ghost use Rattle.module_rules.specs.Kind.{executed, replied};
ghost use Rattle.module_rules.specs.Rules.{Rules, wants, with_cause, request, settled, execute, reply, kind_of};
ghost use Rattle.module_rules.specs.Asks.{asks_of};
ghost use Rattle.module_rules.specs.Slots.{Slots, slot_size};
ghost use Rattle.module_rules.specs.Owes.{Owes, reply_size};

use module_rules::{Cause, Fault, Frame, Request};

// A module type: its modules by value and in a slot, and the own commands that they carry out.
pub trait Calls {
    type Module: Copy;

    type Sample;

    type Command: Copy;

    ghost rules: { Rules Self.Module Self.Sample Self.Command };

    ghost slots: { Slots Self.Module };

    // Which samples a tick may hand it.
    ghost good: { Self.Sample → Type 0 };

    // What a frame asks; alone says that it was for this module individually.
    fn request_of(f: Frame<'_>, alone: bool) -> Result<Request<Self::Command>, Fault>
        ensures { asks_of result ≡ request rules (frame_of f.entry) alone };

    // The module in a slot.
    fn decode(s: &[u8]) -> Self::Module
        requires { length s.now ≡ slot_size }
        ensures { result ≡ slots.dec s.now };

    // Puts a module into a slot, from the slot's start on.
    fn put(s: &mut [u8], m: Self::Module)
        requires { length s.old ≡ slot_size }
        ensures { s.new ≡ pasted 0 (slots.enc m) s.old };

    // What Hard Reset makes of the module in a slot.
    fn renewed(s: &[u8]) -> Self::Module
        requires { length s.now ≡ slot_size }
        ensures { result ≡ with_cause rules 0 (rules.renewed (slots.dec s.now)) };

    // Whether an own command can be carried out now.
    fn can(m: Self::Module, c: Self::Command) -> bool
        requires { slots.fits m }
        ensures { result ≡ rules.can c m };

    // What an own command makes of a module, with the cause 0.
    fn perform(m: Self::Module, c: Self::Command) -> Self::Module
        requires { slots.fits m }
        ensures { result ≡ with_cause rules 0 (rules.perform c m) };

    // Puts the reply of the module in a slot into the room from place from on; how many bytes it has.
    fn put_reply(s: &[u8], f: Frame<'_>, room: &mut [u8], from: usize) -> usize
        requires { (length s.now ≡ slot_size) × (slots.ok s.now ≡ true) × (from + reply_size ≤ length room.old) }
        ensures value { result ≡ length (reply rules (frame_of f.entry) (slots.dec s.now)) }
        ensures room_after { room.new ≡ pasted from (reply rules (frame_of f.entry) (slots.dec s.now)) room.old };

    ghost owes: { Owes rules slots good };
}

// An own command: carried out and put with the cause 0, or not now.
fn perform<T: Calls>(s: &mut [u8], c: T::Command)
    requires { (length s.old ≡ slot_size) × (T.slots.ok s.old ≡ true) }
    ensures { s.new ≡ pasted 0 (T.slots.enc (settled T.rules (wants c) (T.slots.dec s.old))) s.old }
{
    let before = T::decode(s);
    if T::can(before, c) {
        T::put(s, T::perform(before, c));
    } else {
        let station = module_station::station_in(s);
        module_station::put_station(s, module_station::with_cause(station, Cause::NotNow as u8));
    }
}

// A frame that touches the module: of a damaged or malformed one, and of a command of every type, the station alone is put.
fn settle<T: Calls>(s: &mut [u8], f: Frame<'_>, alone: bool)
    requires { (length s.old ≡ slot_size) × (T.slots.ok s.old ≡ true) }
    ensures { s.new ≡ pasted 0 (T.slots.enc (execute T.rules (frame_of f.entry) alone (T.slots.dec s.old))) s.old }
{
    let station = module_station::station_in(s);
    if f.damaged {
        module_station::put_station(s, module_station::with_cause(station, Cause::Damaged as u8));
        return;
    }
    match T::request_of(f, alone) {
        Err(fault) => {
            let cause = module_station::fault_cause(fault);
            module_station::put_station(s, module_station::with_cause(station, cause));
        }
        Ok(Request::Set(setting)) => {
            let x = module_station::with_setting(station, setting);
            module_station::put_station(s, module_station::with_cause(x, Cause::Executed as u8));
        }
        Ok(Request::Reset) => {
            let renewed = T::renewed(s);
            T::put(s, renewed);
        }
        Ok(Request::Wants(c)) => {
            perform::<T>(s, c);
        }
    }
}

// A frame that touches the module in a slot: the module after it, and its reply in the room from place from on; how many bytes that has.
pub fn touch<T: Calls>(s: &mut [u8], f: Frame<'_>, room: &mut [u8], from: usize) -> usize
    requires { (length s.old ≡ slot_size) × (T.slots.ok s.old ≡ true) × (from + reply_size ≤ length room.old) }
    ensures value { result ≡ length (replied (kind_of T.rules) (frame_of f.entry) (T.slots.dec s.old)) }
    ensures s_after { s.new ≡ pasted 0 (T.slots.enc (executed (kind_of T.rules) (frame_of f.entry) (T.slots.dec s.old))) s.old }
    ensures room_after { room.new ≡ pasted from (replied (kind_of T.rules) (frame_of f.entry) (T.slots.dec s.old)) room.old }
{
    let address = module_station::address_in(s);
    settle::<T>(s, f, module_station::is_individually(address, f.address));
    if module_station::is_speaking(address, f.address) {
        return T::put_reply(s, f, room, from);
    }
    0
}
