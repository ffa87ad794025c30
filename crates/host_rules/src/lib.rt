// What the host writes and reads: frames and replies. Types, definitions and promises. And why a call is refused, the host's or any other.

#![tactic(auto)]

ghost use Rattle.std.specs.Prelude.{◌≡◌};
ghost use Rattle.host_rules.specs.Refusals.{number_of};

// What a reply says: its status byte and the number of each item, 0 where the item was not chosen.
#[derive(Clone, Copy)]
pub struct Reading {
    pub status: u8,
    pub numbers: [u32; 8],
}

// Why a call is refused: what of the things that were lent or asked for does not do, in the order of the numbers that C is given.
#[derive(Clone, Copy)]
pub enum Refusal {
    BadChain = 11,
    BadType = 12,
    BadPlace = 13,
    BadField = 14,
    ShortRoom = 15,
    BadRecord = 16,
    BadFrame = 17,
    BadLength = 18,
    BadSum = 19,
    BadList = 20,
    BadText = 21,
    BadRecords = 22,
}

impl From<Refusal> for u32 {
    ghost from_gives = { λ refusal number. number ≡ number_of refusal };

    fn from(refusal: Refusal) -> u32 {
        refusal as u32
    }
}
