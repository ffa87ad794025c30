// A replay file's line bytes: its records taken a byte at a time, those of other kinds passed over by their length. And where in a text its characters
// stand, by line and column.

#![tactic(auto)]

ghost use Rattle.std.specs.Prelude.{◌≡◌, ◌==◌, ◌+◌, ◌*◌, ◌^◌, ◌<◌, ◌≤◌, length, count_by};
ghost use Rattle.base_layout.specs.Bytes.{pasted};
ghost use Rattle.base_text.specs.Digits.{newline};
ghost use Rattle.text_rules.specs.Export.{text_from};
ghost use Rattle.monitor_file.specs.Looking.{begun, marked, passed, step, Fit, gone, look_from, look_of};
ghost use Rattle.monitor_file.specs.Spots.{spot_after, Near};

use replay_file::Kind;
use text_rules::{LINE_KIND, PER_LINE};

// What comes next in the file: a record's kind; a line byte's mark; its value, with the mark that it had; or so many bytes more of a body of another kind.
#[derive(Clone, Copy)]
pub enum Part {
    Kind,
    Mark,
    Value(bool),
    Rest(u8, u8),
}

// What a byte of the file brings: more of a record; a byte of the line, marked or not, with which its record ends; or no file has it there. An Option of the
// first two would be told apart by the same three arms at its one use.
#[derive(Clone, Copy)]
pub enum Took {
    More(Part),
    Ended(u8, bool),
    Cannot,
}

// What bytes of a file came to: what comes next, how many of them were taken, the column where the next byte of the line goes, and how long the text is.
#[derive(Clone, Copy)]
pub struct Looked {
    pub part: Part,
    pub count: usize,
    pub column: u8,
    pub wrote: usize,
}

// Where a character stands: its offset from 0, its line and its column from 1.
#[derive(Clone, Copy)]
pub struct Spot {
    pub offset: u64,
    pub line: u64,
    pub column: u64,
}

// A record begins with its kind.
fn begun(kind: u8) -> Took
    ensures { result ≡ begun kind }
{
    if kind == LINE_KIND {
        return Took::More(Part::Mark);
    }
    let Ok(known) = Kind::try_from(kind) else {
        return Took::Cannot;
    };
    let left = known.body_len() as u8;
    if left == 0 {
        return Took::More(Part::Kind);
    }
    Took::More(Part::Rest(kind, left))
}

// A byte of a body that is passed over.
fn passed(kind: u8, left: u8) -> Took
    requires { 0 < left }
    ensures { result ≡ passed kind left }
{
    if left == 1 {
        return Took::More(Part::Kind);
    }
    Took::More(Part::Rest(kind, left - 1))
}

fn marked(mark: u8) -> Took
    ensures { result ≡ marked mark }
{
    if mark < 2 {
        return Took::More(Part::Value(mark == 1));
    }
    Took::Cannot
}

// A byte of the file where it stands.
pub fn step(part: Part, byte: u8) -> Took
    requires { Fit part }
    ensures { result ≡ step part byte }
{
    match part {
        Part::Kind => begun(byte),
        Part::Mark => marked(byte),
        Part::Value(mark) => Took::Ended(byte, mark),
        Part::Rest(kind, left) => passed(kind, left),
    }
}

// How many bytes of its record were taken.
pub fn gone(part: Part) -> u64
    requires { Fit part }
    ensures { result ≡ gone part }
{
    match part {
        Part::Kind => 0,
        Part::Mark => 1,
        Part::Value(_) => 2,
        Part::Rest(kind, left) => 1 + (replay_file::body_len(kind) as u64 - left as u64),
    }
}

// Takes bytes of a file up to the first that no file has there, and puts the text of its line bytes at the room's start, from a column on.
pub fn put_looked(from: Part, first: u8, file: &[u8], room: &mut [u8]) -> Looked
    requires { Fit from × (first < 16) × (5 * length file.now ≤ length room.old) }
    ensures value { result ≡ look_of first (look_from from file.now) }
    ensures room_after { room.new ≡ pasted 0 (text_from first (look_from from file.now).bytes) room.old }
{
    let mut part = from;
    let mut column = first;
    let mut wrote: usize = 0;
    for (i, &byte) in file.iter().enumerate() {
        match step(part, byte) {
            Took::More(next) => part = next,
            Took::Ended(value, mark) => {
                wrote = text_export::put_byte(room, wrote, column, value, mark);
                column = (column + 1) % PER_LINE;
                part = Part::Kind;
            }
            Took::Cannot => {
                return Looked {
                    part,
                    count: i,
                    column,
                    wrote,
                };
            }
        }
    }
    Looked {
        part,
        count: file.len(),
        column,
        wrote,
    }
}

// How many newlines stand in a text.
fn newlines(text: &[u8]) -> usize
    ensures { result ≡ count_by (λ c. c == newline) text.now }
{
    text.iter().filter(|&&c| c == b'\n').count()
}

// The column behind a text's characters, by the newline that is found first from their end. `rposition` finds it too, but what the library says of it leaves
// the column's proof open.
fn column_behind(from: Spot, text: &[u8]) -> u64
    requires { from.column + length text.now < 2 ^ 64 }
    ensures { result ≡ (spot_after from text.now).column }
{
    let mut i: usize = text.len();
    while 0 < i {
        if text[i - 1] == b'\n' {
            return 1 + (text.len() - i) as u64;
        }
        i -= 1;
    }
    from.column + text.len() as u64
}

// Where the character behind these stands.
pub fn spot_after(from: Spot, text: &[u8]) -> Spot
    requires { Near from × (from.offset + length text.now + 2 < 2 ^ 64) }
    ensures { result ≡ spot_after from text.now }
{
    Spot {
        offset: from.offset + text.len() as u64,
        line: from.line + newlines(text) as u64,
        column: column_behind(from, text),
    }
}
