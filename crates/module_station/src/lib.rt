// A module's station, by value and in its slot: who a frame is for, and the commands of every type.

#![tactic(auto)]

ghost use Rattle.std.specs.Prelude.{◌≡◌, ◌∷◌, ◌≤◌, ℕ, List, Bool, cond, eqb, length, Ok, Err};
ghost use Rattle.base_layout.specs.Bytes.{pasted};
ghost use Rattle.module_rules.specs.Touch.{power_up, individually, named, speaks, frame_of};
ghost use Rattle.module_rules.specs.Slot.{address, station};
ghost use Rattle.module_rules.specs.Slots.{station_at, own_at};
ghost use Rattle.module_rules.specs.Commands.{asked, assigned, applied, caused};
ghost use Rattle.module_rules.specs.Rules.{Meaning, fault_cause, judged, joined};
ghost use Rattle.module_rules.specs.Asks.{asks_of, read};
ghost use Rattle.module_rules.specs.Report.{cause_bit};

use module_rules::{Address, Asked, Cause, Fault, Frame, Request, Setting, Station};

// The own commands of a module's type, as its own codes tell them.
pub trait Codes {
    type Command;

    // What an own code means with its data bytes, and which item bytes there are.
    ghost own: { ℕ → List ℕ → Meaning Self.Command };

    ghost shows: { ℕ → Bool };

    // What one of the own codes asks.
    fn own_command(code: u8, ds: &[u8]) -> Result<Self::Command, Fault>
        ensures { result ≡ read ds.now (own code ds.now) };

    // Whether there are all the items that an item byte asks for.
    fn is_shown(items: u8) -> bool
        ensures { result ≡ shows items };
}

// Who the module in a slot is.
pub fn address_in(s: &[u8]) -> Address
    requires { own_at ≤ length s.now }
    ensures { result ≡ address.codec.dec station_at s.now }
{
    Address {
        individual: s[module_rules::INDIVIDUAL_AT],
        group: s[module_rules::GROUP_AT],
        leader: s[module_rules::LEADER_AT] == 1,
        low: s[module_rules::LOW_AT] == 1,
    }
}

pub fn station_in(s: &[u8]) -> Station
    requires { own_at ≤ length s.now }
    ensures { result ≡ station.codec.dec station_at s.now }
{
    Station {
        address: address_in(s),
        cause: s[module_rules::CAUSE_AT],
        items: s[module_rules::ITEMS_AT],
        baud: s[module_rules::BAUD_AT],
    }
}

pub fn is_individually(w: Address, a: u8) -> bool
    ensures { result ≡ individually a w }
{
    w.individual == a
}

pub fn is_named(w: Address, a: u8) -> bool
    ensures { result ≡ named a w }
{
    (w.individual == a) | (w.group == a)
}

pub fn is_speaking(w: Address, a: u8) -> bool
    ensures { result ≡ speaks a w }
{
    (w.individual == a) | w.leader
}

pub fn power_up() -> Station
    ensures { result ≡ power_up }
{
    Station {
        address: Address {
            individual: 0,
            group: 255,
            leader: false,
            low: false,
        },
        cause: 0,
        items: 0,
        baud: 0,
    }
}

pub fn with_cause(mut s: Station, cause: u8) -> Station
    ensures { result ≡ caused cause s }
{
    s.cause = cause;
    s
}

// Set Address: the group byte without its upper bit is the group, and that bit clear makes a leader.
fn assigned(individual: u8, b: u8) -> Address
    ensures { result ≡ assigned individual b }
{
    Address {
        individual,
        group: 128 + b % 128,
        leader: b < 128,
        low: true,
    }
}

pub fn with_setting(mut s: Station, setting: Setting) -> Station
    ensures { result ≡ applied setting s }
{
    match setting {
        Setting::Assign(individual, group) => {
            s.address = assigned(individual, group);
            s
        }
        Setting::Define(items) => {
            s.items = items;
            s
        }
        Setting::Rate(baud) => {
            s.baud = baud;
            s
        }
        Setting::Nothing => s,
    }
}

// A slot begins with the type and the station.
pub fn head_bytes(t: u8, s: Station) -> [u8; module_rules::OWN_AT]
    ensures { result ≡ t ∷ station.codec.enc s }
{
    [
        t,
        s.address.individual,
        s.address.group,
        s.address.leader as u8,
        s.address.low as u8,
        s.cause,
        s.items,
        s.baud,
    ]
}

fn station_bytes(x: Station) -> [u8; module_rules::STATION_LEN]
    ensures { result ≡ station.codec.enc x }
{
    [
        x.address.individual,
        x.address.group,
        x.address.leader as u8,
        x.address.low as u8,
        x.cause,
        x.items,
        x.baud,
    ]
}

// Puts a station into a slot whose type byte stands.
pub fn put_station(s: &mut [u8], x: Station)
    requires { own_at ≤ length s.old }
    ensures { s.new ≡ pasted station_at (station.codec.enc x) s.old }
{
    let bytes = station_bytes(x);
    base_layout::put_all(s, module_rules::STATION_AT, &bytes);
}

// What a frame's code and data ask, with the number of data bytes that it takes; alone says that the frame was for this module individually. A code is read
// straight into what it asks, here and in the own codes of a type: an enum of the codes between would say the same numbers once more.
#[tactic(auto, unfolding(module_rules::specs::Commands::asked))]
pub fn asked_by(code: u8, alone: bool, ds: &[u8]) -> Asked
    ensures { result ≡ asked code alone ds.now }
{
    match code {
        1 => Asked::Wants(
            2,
            Setting::Assign(base_layout::byte_at(ds, 0), base_layout::byte_at(ds, 1)),
        ),
        2 => Asked::Chooses(
            base_layout::byte_at(ds, 0),
            Setting::Define(base_layout::byte_at(ds, 0)),
        ),
        3 => Asked::Chooses(base_layout::byte_at(ds, 0), Setting::Nothing),
        10 => {
            if alone {
                return Asked::Unknown;
            }
            Asked::Wants(1, Setting::Rate(base_layout::byte_at(ds, 0)))
        }
        14 => Asked::Wants(0, Setting::Nothing),
        15 => Asked::Reset(0),
        _ => Asked::Other,
    }
}

// Whether the number of data bytes is right.
pub fn counted(n: usize, ds: &[u8]) -> Result<(), Fault>
    ensures { result ≡ cond (eqb (length ds.now) n) (Ok tt) (Err Fault.Count) }
{
    if ds.len() == n {
        return Ok(());
    }
    Err(Fault::Count)
}

// Whether the values of the data bytes are good.
pub fn ranged(good: bool) -> Result<(), Fault>
    ensures { result ≡ cond good (Ok tt) (Err Fault.Value) }
{
    if good {
        return Ok(());
    }
    Err(Fault::Value)
}

// What a frame asks of a module whose type's own commands are T's; alone says that it was for this module individually.
pub fn request_of<T: Codes>(f: Frame<'_>, alone: bool) -> Result<Request<T::Command>, Fault>
    ensures { let x = frame_of f.entry in asks_of result ≡ judged x.content (joined T.shows (asked x.code alone x.content) (T.own x.code x.content)) }
{
    match asked_by(f.code, alone, f.content) {
        Asked::Other => Ok(Request::Wants(T::own_command(f.code, f.content)?)),
        Asked::Unknown => Err(Fault::Unknown),
        Asked::Wants(n, s) => {
            counted(n, f.content)?;
            Ok(Request::Set(s))
        }
        Asked::Chooses(items, s) => {
            counted(1, f.content)?;
            ranged(T::is_shown(items))?;
            Ok(Request::Set(s))
        }
        Asked::Reset(n) => {
            counted(n, f.content)?;
            Ok(Request::Reset)
        }
    }
}

// The cause of a frame that can't be read. A From stands with its type, and the crate of Fault has no function.
pub fn fault_cause(fault: Fault) -> u8
    ensures { result ≡ fault_cause fault }
{
    match fault {
        Fault::Unknown => Cause::Unknown as u8,
        Fault::Count => Cause::Count as u8,
        Fault::Value => Cause::Value as u8,
    }
}

// Bit 1 of a status byte.
pub fn cause_bit(cause: u8) -> u8
    ensures { result ≡ cause_bit cause }
{
    if cause == 0 { 0 } else { 2 }
}
