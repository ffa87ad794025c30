// What every module type has: its addresses, its last cause, the items that it reports and its baud byte, and the slot that it stands in.
// Types, definitions and promises; no function.

#![tactic(auto)]

ghost use Rattle.base_layout.specs.Bytes.{Bytes};

// The bytes of a slot of the record: the type byte, the station, and what the type has besides.
pub const SLOT_LEN: usize = 128;

// The bytes of a sample in the list that a tick takes: the type byte, and what the type measures from the next byte on.
pub const SAMPLE_LEN: usize = 10;

pub const MEASURED_AT: usize = 1;

// The places of the station's bytes in a slot; what the type has besides comes next.
pub const STATION_AT: usize = 1;

pub const INDIVIDUAL_AT: usize = STATION_AT;

pub const GROUP_AT: usize = INDIVIDUAL_AT + 1;

pub const LEADER_AT: usize = GROUP_AT + 1;

pub const LOW_AT: usize = LEADER_AT + 1;

pub const CAUSE_AT: usize = LOW_AT + 1;

pub const ITEMS_AT: usize = CAUSE_AT + 1;

pub const BAUD_AT: usize = ITEMS_AT + 1;

pub const OWN_AT: usize = BAUD_AT + 1;

pub const STATION_LEN: usize = OWN_AT - STATION_AT;

// The greatest cause.
pub const CAUSE_MOST: u8 = Cause::Value as u8;

// A reply has at most this many bytes: the status byte, the items of any type, the sum.
pub const REPLY_LEN: usize = 19;

// Who a module is on the line; low is its ADDR_OUT.
#[derive(Clone, Copy)]
pub struct Address {
    pub individual: u8,
    pub group: u8,
    pub leader: bool,
    pub low: bool,
}

#[derive(Clone, Copy)]
pub struct Station {
    pub address: Address,
    pub cause: u8,
    pub items: u8,
    pub baud: u8,
}

// A frame that has ended: its data bytes stay where they are.
#[derive(Clone, Copy)]
pub struct Frame<'a> {
    pub address: u8,
    pub code: u8,
    pub content: &'a [u8],
    pub damaged: bool,
    ghost bytes: { Bytes content.now },
}

// What a command of every type sets: the two addresses, the items, the baud byte, or nothing.
#[derive(Clone, Copy)]
pub enum Setting {
    Assign(u8, u8),
    Define(u8),
    Rate(u8),
    Nothing,
}

// What a code asks, as far as every type knows it: what is another's, what is unknown here, or a command with the number of its data bytes. One that
// chooses items has one data byte, the item byte, which the type must know. An unknown code is a case and no error: `joined` of the specs goes by these cases.
#[derive(Clone, Copy)]
pub enum Asked {
    Other,
    Unknown,
    Wants(usize, Setting),
    Chooses(u8, Setting),
    Reset(usize),
}

// Why a frame can't be read: its code is unknown, the number of its data bytes is wrong, or a value is out of range.
#[derive(Clone, Copy)]
pub enum Fault {
    Unknown,
    Count,
    Value,
}

// What a frame asks that can be read, where the own commands of the module's type are C: a command of every type, or one of its own.
#[derive(Clone, Copy)]
pub enum Request<C> {
    Set(Setting),
    Reset,
    Wants(C),
}

// The last cause that a station keeps: why a frame was not executed, or that it was.
#[derive(Clone, Copy)]
pub enum Cause {
    Executed = 0,
    Damaged = 1,
    Count = 2,
    NotNow = 3,
    Unknown = 4,
    Value = 5,
}
