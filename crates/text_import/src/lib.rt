// The reader of the line monitor's text: one step for one character, by value, and the loop over it.

#![tactic(auto)]

ghost use Rattle.std.specs.Prelude.{◌≡◌, [], ◌∷◌, cond, ◌+◌, ◌*◌, ◌-◌, ◌/◌, ◌≤◌, ◌<◌, ltb, length, take};
ghost use Rattle.base_layout.specs.Bytes.{pasted};
ghost use Rattle.text_rules.specs.Records.{record_of, records};
ghost use Rattle.text_rules.specs.Fold.{more, cannot};
ghost use Rattle.text_rules.specs.Import.{Line, Digit, Whole, value_of, behind_byte, behind_mark, step, may_end, whole_by, Fit, read_from, stage_of, brought_of, CameTo};

use text_rules::{At, Brings, LINE_KIND, Read, Reader, Taken};

// The value of each character as a hex digit, 16 where it is none: in a table, since real bytes have figures and letters in no order that a processor
// could foresee.
const VALUES: [u8; 256] = [
    16, 16, 16, 16, 16, 16, 16, 16, 16, 16, 16, 16, 16, 16, 16, 16, 16, 16, 16, 16, 16, 16, 16, 16,
    16, 16, 16, 16, 16, 16, 16, 16, 16, 16, 16, 16, 16, 16, 16, 16, 16, 16, 16, 16, 16, 16, 16, 16,
    0, 1, 2, 3, 4, 5, 6, 7, 8, 9, 16, 16, 16, 16, 16, 16, 16, 10, 11, 12, 13, 14, 15, 16, 16, 16,
    16, 16, 16, 16, 16, 16, 16, 16, 16, 16, 16, 16, 16, 16, 16, 16, 16, 16, 16, 16, 16, 16, 16, 10,
    11, 12, 13, 14, 15, 16, 16, 16, 16, 16, 16, 16, 16, 16, 16, 16, 16, 16, 16, 16, 16, 16, 16, 16,
    16, 16, 16, 16, 16, 16, 16, 16, 16, 16, 16, 16, 16, 16, 16, 16, 16, 16, 16, 16, 16, 16, 16, 16,
    16, 16, 16, 16, 16, 16, 16, 16, 16, 16, 16, 16, 16, 16, 16, 16, 16, 16, 16, 16, 16, 16, 16, 16,
    16, 16, 16, 16, 16, 16, 16, 16, 16, 16, 16, 16, 16, 16, 16, 16, 16, 16, 16, 16, 16, 16, 16, 16,
    16, 16, 16, 16, 16, 16, 16, 16, 16, 16, 16, 16, 16, 16, 16, 16, 16, 16, 16, 16, 16, 16, 16, 16,
    16, 16, 16, 16, 16, 16, 16, 16, 16, 16, 16, 16, 16, 16, 16, 16, 16, 16, 16, 16, 16, 16, 16, 16,
    16, 16, 16, 16, 16, 16, 16, 16, 16, 16, 16, 16, 16, 16,
];

// At a text's first character.
pub fn begin() -> Reader
    ensures { stage_of result ≡ Line }
{
    Reader {
        at: At::LineStart,
        value: 0,
    }
}

// A byte's first digit, of this value if it is one. Here and below each answer is written out: made by functions, they took the reader a third longer over a
// text of 6 MB.
fn first_digit(reader: Reader, digit: u8) -> Taken
    ensures { brought_of result ≡ cond (ltb digit 16) (more (Digit digit)) cannot }
{
    if digit < 16 {
        return Taken {
            next: Reader {
                at: At::FirstDigit,
                value: digit,
            },
            brings: Brings::Nothing,
        };
    }
    Taken {
        next: reader,
        brings: Brings::Fault,
    }
}

// Its second.
fn second_digit(reader: Reader, digit: u8) -> Taken
    requires { reader.value < 16 }
    ensures { brought_of result ≡ cond (ltb digit 16) (more (Whole (16 * reader.value + digit))) cannot }
{
    if digit < 16 {
        return Taken {
            next: Reader {
                at: At::WholeByte,
                value: 16 * reader.value + digit,
            },
            brings: Brings::Nothing,
        };
    }
    Taken {
        next: reader,
        brings: Brings::Fault,
    }
}

// What ends a byte; its value goes along.
fn behind_byte(reader: Reader, c: u8) -> Taken
    ensures { brought_of result ≡ behind_byte reader.value c }
{
    let value = reader.value;
    match c {
        b'!' => Taken {
            next: Reader {
                at: At::AfterMark,
                value,
            },
            brings: Brings::Ends(true),
        },
        b' ' => Taken {
            next: Reader {
                at: At::AfterSpace,
                value,
            },
            brings: Brings::Ends(false),
        },
        b'\n' => Taken {
            next: Reader {
                at: At::LineStart,
                value,
            },
            brings: Brings::Ends(false),
        },
        _ => Taken {
            next: reader,
            brings: Brings::Fault,
        },
    }
}

fn behind_mark(reader: Reader, c: u8) -> Taken
    ensures { brought_of result ≡ behind_mark c }
{
    let value = reader.value;
    match c {
        b' ' => Taken {
            next: Reader {
                at: At::AfterSpace,
                value,
            },
            brings: Brings::Nothing,
        },
        b'\n' => Taken {
            next: Reader {
                at: At::LineStart,
                value,
            },
            brings: Brings::Nothing,
        },
        _ => Taken {
            next: reader,
            brings: Brings::Fault,
        },
    }
}

// A character, with its value as a digit, where the text stands.
#[tactic(auto, unfolding(text_rules::specs::Import::step))]
pub fn step(reader: Reader, c: u8, digit: u8) -> Taken
    requires { Fit (stage_of reader) × (digit ≡ value_of c) }
    ensures { brought_of result ≡ step (stage_of reader) c }
{
    match reader.at {
        At::LineStart | At::AfterSpace => first_digit(reader, digit),
        At::FirstDigit => second_digit(reader, digit),
        At::WholeByte => behind_byte(reader, c),
        At::AfterMark => behind_mark(reader, c),
    }
}

// Whether a text may end there.
pub fn may_end(reader: Reader) -> bool
    ensures { result ≡ may_end (stage_of reader) }
{
    matches!(reader.at, At::LineStart)
}

// Whether so many characters, which came to this, are a text.
pub fn is_whole(read: Read, len: usize) -> bool
    ensures { result ≡ whole_by (stage_of read.reader) read.count len }
{
    read.count == len && may_end(read.reader)
}

// The record of a byte of the line.
fn put_record(room: &mut [u8], at: usize, value: u8, mark: bool)
    requires { at + 3 ≤ length room.old }
    ensures { room.new ≡ pasted at (record_of (record { value = value; mark = mark })) room.old }
{
    room[at] = LINE_KIND;
    room[at + 1] = u8::from(mark);
    room[at + 2] = value;
}

// The record behind so many others, if there is room for more than these.
fn put_within(room: &mut [u8], most: usize, bytes: usize, value: u8, mark: bool)
    requires { 3 * most ≤ length room.old }
    ensures { room.new ≡ pasted (3 * bytes) (records (take (most - bytes) (record { value = value; mark = mark } ∷ []))) room.old }
{
    if bytes < most {
        put_record(room, 3 * bytes, value, mark);
    }
}

// Reads characters up to the first that can't stand there, and puts a record for each byte that has ended at the room's start, as many as it has room for.
// What comes back does not hang on the room, so a room for none only measures.
pub fn put_records(from: Reader, text: &[u8], room: &mut [u8]) -> Read
    requires { Fit (stage_of from) }
    ensures came_to { CameTo result (read_from (stage_of from) text.now) }
    ensures room_after { room.new ≡ pasted 0 (records (take (length room.old / 3) (read_from (stage_of from) text.now).bytes)) room.old }
{
    let values = VALUES;
    let most = room.len() / 3;
    let mut reader = from;
    let mut bytes: usize = 0;
    for (i, &c) in text.iter().enumerate() {
        let Taken { next, brings } = step(reader, c, values[c as usize]);
        match brings {
            Brings::Nothing => {}
            Brings::Ends(mark) => {
                put_within(room, most, bytes, next.value, mark);
                bytes += 1;
            }
            Brings::Fault => {
                return Read {
                    reader,
                    count: i,
                    bytes,
                };
            }
        }
        reader = next;
    }
    Read {
        reader,
        count: text.len(),
        bytes,
    }
}
