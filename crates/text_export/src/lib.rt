// Bytes of the line as text: byte by byte, in the column of its line that each has.

#![tactic(auto)]

ghost use Rattle.std.specs.Prelude.{◌≡◌, true, ◌+◌, ◌<◌, ◌≤◌, ltb, length};
ghost use Rattle.base_layout.specs.Bytes.{pasted};
ghost use Rattle.base_text.specs.Digits.{hex_pair};
ghost use Rattle.text_rules.specs.Records.{all_line, bytes_in, measured_of};
ghost use Rattle.text_rules.specs.Export.{exported, only_if, in_column, closing};

use text_rules::{LINE_KIND, PER_LINE};

// How many bytes the record of a line byte has.
const RECORD: usize = 3;

// Puts a character if it is to stand there; the place behind it.
fn put_if(room: &mut [u8], at: usize, stands: bool, c: u8) -> usize
    requires { at + length (only_if stands c) ≤ length room.old }
    ensures value { result ≡ at + length (only_if stands c) }
    ensures room_after { room.new ≡ pasted at (only_if stands c) room.old }
{
    if !stands {
        return at;
    }
    room[at] = c;
    at + 1
}

fn put_digits(room: &mut [u8], at: usize, value: u8) -> usize
    requires { at + 2 ≤ length room.old }
    ensures value { result ≡ at + 2 }
    ensures room_after { room.new ≡ pasted at (hex_pair value) room.old }
{
    room[at] = base_text::hex_digit(value / 16);
    room[at + 1] = base_text::hex_digit(value % 16);
    at + 2
}

// A byte in a column of its line; the place behind it.
pub fn put_byte(room: &mut [u8], at: usize, column: u8, value: u8, mark: bool) -> usize
    requires { at + length (in_column column (record { value = value; mark = mark })) ≤ length room.old }
    ensures value { result ≡ at + length (in_column column (record { value = value; mark = mark })) }
    ensures room_after { room.new ≡ pasted at (in_column column (record { value = value; mark = mark })) room.old }
{
    let digits = put_if(room, at, column != 0, b' ');
    let bang = put_digits(room, digits, value);
    let end = put_if(room, bang, mark, b'!');
    put_if(room, end, column == PER_LINE - 1, b'\n')
}

// The end of a line that is not full; the place behind it.
pub fn put_closing(room: &mut [u8], at: usize, column: u8) -> usize
    requires { at + length (closing column) ≤ length room.old }
    ensures value { result ≡ at + length (closing column) }
    ensures room_after { room.new ≡ pasted at (closing column) room.old }
{
    put_if(room, at, column != 0, b'\n')
}

// Of records of line bytes alone, how many are marked.
pub fn measure(records: &[u8]) -> Option<usize>
    ensures { result ≡ measured_of records.now }
{
    let mut marks: usize = 0;
    for record in records.chunks_exact(RECORD) {
        if record[0] != LINE_KIND {
            return None;
        }
        let mark = record[1];
        if 1 < mark {
            return None;
        }
        marks += mark as usize;
    }
    if records.len() % RECORD != 0 {
        return None;
    }
    Some(marks)
}

// The text of such records, at the room's start.
pub fn put_text(records: &[u8], room: &mut [u8])
    requires { (all_line records.now ≡ true) × (length (exported (bytes_in records.now)) ≤ length room.old) }
    ensures { room.new ≡ pasted 0 (exported (bytes_in records.now)) room.old }
{
    let mut column: u8 = 0;
    let mut at: usize = 0;
    for record in records.chunks_exact(RECORD) {
        at = put_byte(room, at, column, record[2], record[1] == 1);
        column = (column + 1) % PER_LINE;
    }
    put_closing(room, at, column);
}

// Whether a room of so many bytes is shorter than the text of so many bytes of records, so many of them marked.
pub fn is_short(room: usize, records: usize, marks: usize) -> bool
    ensures { result ≡ ltb room (records + marks) }
{
    room < records || room - records < marks
}
