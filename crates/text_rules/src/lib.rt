// The line monitor's text: where it stands after some of its characters, and what one more brings.

#![tactic(auto)]

// The kind of a line byte's record in a replay file, and how many bytes fill a line of an exported text.
pub const LINE_KIND: u8 = 1;

pub const PER_LINE: u8 = 16;

// Where a reader of a text stands: at the start of a line, where a text may also end; behind a space; behind a byte's first digit; behind its second; and
// behind its mark.
#[derive(Clone, Copy)]
pub enum At {
    LineStart,
    AfterSpace,
    FirstDigit,
    WholeByte,
    AfterMark,
}

// A reader of a text. Behind a byte's first digit its value is the digit's, and from the second on the byte's. Plain numbers side by side stay in
// registers; an enum with the value in it would go through memory at each character.
#[derive(Clone, Copy)]
pub struct Reader {
    pub at: At,
    pub value: u8,
}

// What a character brings: nothing yet; a byte has ended, marked or not; or no text has it there.
#[derive(Clone, Copy)]
pub enum Brings {
    Nothing,
    Ends(bool),
    Fault,
}

// The reader after a character, with the value of the byte that has ended, and what the character brought.
#[derive(Clone, Copy)]
pub struct Taken {
    pub next: Reader,
    pub brings: Brings,
}

// What characters came to: the reader then, how many of them were taken, and how many bytes have ended.
#[derive(Clone, Copy)]
pub struct Read {
    pub reader: Reader,
    pub count: usize,
    pub bytes: usize,
}
