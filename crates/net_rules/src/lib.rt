// The network: the lent record and what the calls make of it. Types, definitions and promises; no function.

#![tactic(auto)]

// Where the receiver's parts stand in the record, behind its fifteen data places.
pub const ADDRESS_AT: usize = 15;

pub const COMMAND_AT: usize = ADDRESS_AT + 1;

pub const FILL_AT: usize = COMMAND_AT + 1;

pub const MARKED_AT: usize = FILL_AT + 1;

pub const RECEIVER_LEN: usize = MARKED_AT + 1;

// The most modules of a chain; their number stands behind the receiver, and then come the slots.
pub const CHAIN_MOST: usize = 32;

pub const COUNT_AT: usize = RECEIVER_LEN;

pub const SLOTS_AT: usize = COUNT_AT + 1;

pub const NET_LEN: usize = SLOTS_AT + CHAIN_MOST * module_rules::SLOT_LEN;

// The room that a byte call needs: for a reply of every module.
pub const ROOM_LEN: usize = CHAIN_MOST * module_rules::REPLY_LEN;

// The most line bytes of a buffer, the most frames that can end among them, and the room for the replies to so many.
pub const BUFFER_MOST: usize = 64;

pub const BUFFER_ENDS: usize = 16;

pub const BUFFER_ROOM_LEN: usize = BUFFER_ENDS * ROOM_LEN;

// What a byte call hands back: whether the frame that ended is damaged, where one did, the length of all replies, and of the reply of each place.
#[derive(Clone, Copy)]
pub struct Called {
    pub ended: Option<bool>,
    pub written: usize,
    pub lengths: [u8; CHAIN_MOST],
}

// A module's turn in the walk: whether its ADDR_OUT was low before the frame, and how many bytes it said.
#[derive(Clone, Copy)]
pub struct Turn {
    pub low: bool,
    pub said: usize,
}

#[derive(Clone, Copy)]
pub struct Walked {
    pub written: usize,
    pub lengths: [u8; CHAIN_MOST],
}
