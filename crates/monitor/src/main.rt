// The line monitor's text on files and pipes of any length. `monitor import` reads a text and writes the records of its bytes; `monitor export` reads a
// replay file and writes its line bytes as text, and passes over its other records. Both read the file that their argument names, or standard input where there
// is none. Where the input is at fault, what stood before is written, and the fault is told on standard error.

#![tactic(auto)]

ghost use Rattle.std.specs.Prelude.{◌≡◌, ◌↔◌, ℕ, ◌+◌, ◌*◌, ◌^◌, ◌<◌, ◌≤◌, length, IsTrue, IfSome};
ghost use Rattle.text_rules.specs.Import.{Fit, stage_of};
ghost use Rattle.monitor_file.specs.Looking.{Fit as PartFit, gone};
ghost use Rattle.monitor_file.specs.Spots.{Near};

use monitor_file::{Part, Spot};
use std::io::{Input, Read};
use std::rt::{Env, Files};
use text_rules::Reader;

// The room for the first argument. A longer one is no word that is asked for.
const WORD_ROOM: usize = 16;

// How many bytes are read at once.
const BLOCK: usize = 65536;

// How many blocks an input may have. A proved loop has to end, and nothing says that a file does: no run uses this number up.
const BLOCKS: u64 = 140_737_488_355_328;

// What is made of an input, block by block: the state between two blocks, with its place in the input and the room that each byte of a block needs.
trait Conversion: Copy {
    ghost ready: { Self → Type 0 };

    ghost offset: { Self → ℕ };

    ghost room: { ℕ };

    // A piece of the input; nothing where the conversion stops there.
    fn piece<R: Print + Eprint>(self, rt: &R, bytes: &[u8], out: &mut [u8]) -> Option<Self>
        requires { ready self × (offset self + length bytes.now + 2 < 2 ^ 64) × (room * length bytes.now ≤ length out.old) }
        ensures { IfSome result (λ r. ready r × (offset r ≤ offset self + length bytes.now)) };

    // The input's end.
    fn end<R: Print + Eprint>(self, rt: &R)
        requires { ready self };
}

// Where an import is: its reader, and where the next character stands.
#[derive(Clone, Copy)]
struct Importing {
    reader: Reader,
    spot: Spot,
}

// Where an export is: what comes next in the file, the column where the next byte goes, and the offset of the file's next byte.
#[derive(Clone, Copy)]
struct Exporting {
    part: Part,
    column: u8,
    offset: u64,
}

fn tell(rt: &impl Eprint, what: &str, offset: u64) {
    let _ = eprint!(rt; "{what}: offset {offset}");
}

fn tell_spot(rt: &impl Eprint, what: &str, spot: Spot) {
    tell(rt, what, spot.offset);
    let _ = eprintln!(rt; ", line {}, column {}", spot.line, spot.column);
}

fn tell_record(rt: &impl Eprint, offset: u64) {
    tell(rt, "bad record", offset);
    let _ = eprintln!(rt);
}

impl Conversion for Importing {
    ghost ready = { λ s. Fit (stage_of s.reader) × Near s.spot };

    ghost offset = { λ s. s.spot.offset };

    ghost room = { 3 };

    // Its records are written up to a character that can't stand there, which is told.
    fn piece<R: Print + Eprint>(self, rt: &R, text: &[u8], out: &mut [u8]) -> Option<Importing> {
        let read = text_import::put_records(self.reader, text, out);
        let wrote = 3 * read.bytes;
        let is_written = base_files::put(rt, &out[..wrote]);
        let count = read.count;
        let spot = monitor_file::spot_after(self.spot, &text[..count]);
        let is_bad = count < text.len();
        if is_bad {
            tell_spot(rt, "bad text", spot);
        }
        if is_bad | !is_written {
            return None;
        }
        Some(Importing {
            reader: read.reader,
            spot,
        })
    }

    // It is told where the text may not end there.
    fn end<R: Print + Eprint>(self, rt: &R) {
        if !text_import::may_end(self.reader) {
            tell_spot(rt, "text breaks off", self.spot);
        }
    }
}

// Where the file ends or is at fault: the last line is ended, and a record that is bad or cut is told by where it begins.
fn export_end<R: Print + Eprint>(rt: &R, s: Exporting, is_bad: bool)
    requires { PartFit s.part × (gone s.part ≤ s.offset) }
{
    let mut end = [0u8; 1];
    let n = text_export::put_closing(&mut end, 0, s.column);
    base_files::put(rt, &end[..n]);
    let taken = monitor_file::gone(s.part);
    if is_bad | (0 < taken) {
        tell_record(rt, s.offset - taken);
    }
}

impl Conversion for Exporting {
    ghost ready = { λ s. PartFit s.part × (s.column < 16) × (gone s.part ≤ s.offset) };

    ghost offset = { λ s. s.offset };

    ghost room = { 5 };

    // Its line bytes are shown up to a byte that can't stand there.
    fn piece<R: Print + Eprint>(self, rt: &R, file: &[u8], out: &mut [u8]) -> Option<Exporting> {
        let looked = monitor_file::put_looked(self.part, self.column, file, out);
        let wrote = looked.wrote;
        if !base_files::put(rt, &out[..wrote]) {
            return None;
        }
        let count = looked.count;
        let next = Exporting {
            part: looked.part,
            column: looked.column,
            offset: self.offset + count as u64,
        };
        if count < file.len() {
            export_end(rt, next, true);
            return None;
        }
        Some(next)
    }

    fn end<R: Print + Eprint>(self, rt: &R) {
        export_end(rt, self, false);
    }
}

// Reads the next block; nothing where the input ends or can't be read, or where the conversion stops.
fn block<C: Conversion, R: Print + Eprint, F: Read>(
    rt: &R,
    input: &mut F,
    state: C,
    buf: &mut [u8],
    out: &mut [u8],
) -> Option<C>
    requires { C.ready state × (C.offset state + length buf.old + 2 < 2 ^ 64) × (C.room * length buf.old ≤ length out.old) }
    ensures { IfSome result (λ r. C.ready r × (C.offset r ≤ C.offset state + length buf.old)) }
{
    match input.read(buf) {
        Ok(0) => {
            state.end(rt);
            None
        }
        Ok(n) => state.piece(rt, &buf[..n], out),
        Err(error) => {
            base_files::fail(rt, "read", error);
            None
        }
    }
}

// The blocks, until the input ends or is at fault.
fn blocks<C: Conversion, R: Print + Eprint, F: Read>(
    rt: &R,
    input: &mut F,
    start: C,
    buf: &mut [u8],
    out: &mut [u8],
)
    requires { C.ready start × (C.offset start ≡ 0) × (length buf.old ≤ 65536) × (C.room * length buf.old ≤ length out.old) }
{
    let mut state = start;
    for _ in 0..BLOCKS {
        let Some(next) = block(rt, input, state, buf, out) else {
            return;
        };
        state = next;
    }
}

fn import<R: Print + Eprint, F: Read>(rt: &R, input: &mut F) {
    let mut buf = [0u8; BLOCK];
    let mut out = [0u8; 3 * BLOCK];
    let spot = Spot {
        offset: 0,
        line: 1,
        column: 1,
    };
    let start = Importing {
        reader: text_import::begin(),
        spot,
    };
    blocks(rt, input, start, &mut buf, &mut out);
}

fn export<R: Print + Eprint, F: Read>(rt: &R, input: &mut F) {
    let mut buf = [0u8; BLOCK];
    let mut out = [0u8; 5 * BLOCK];
    let start = Exporting {
        part: Part::Kind,
        column: 0,
        offset: 0,
    };
    blocks(rt, input, start, &mut buf, &mut out);
}

fn usage(rt: &impl Eprint) {
    let _ = eprintln!(rt; "usage: monitor import [TEXT]");
    let _ = eprintln!(rt; "       monitor export [RECORDS]");
}

fn is_word(given: &[u8], word: &[u8]) -> bool
    ensures { IsTrue result ↔ (given.now ≡ word.now) }
{
    given == word
}

// What the first argument asks for, on an open file.
fn work<R: Print + Eprint, F: Read>(rt: &R, word: &[u8], input: &mut F) {
    if is_word(word, b"import") {
        import(rt, input);
        return;
    }
    export(rt, input);
}

// On the file that the second argument names, or on standard input.
fn work_on<R: Env + Files + Input + Print + Eprint>(rt: &R, word: &[u8]) {
    if !base_files::is_given(rt, 2) {
        work(rt, word, &mut rt.reader());
        return;
    }
    if let Some(mut file) = base_files::open_named(rt, 2) {
        work(rt, word, &mut file);
    }
}

fn main(rt: HostRuntime) {
    let mut room = [0u8; WORD_ROOM];
    let n = rt.arg(1, &mut room).unwrap_or(0);
    let word = &room[..n];
    let is_asked = is_word(word, b"import") | is_word(word, b"export");
    if !is_asked | base_files::is_given(&rt, 3) {
        usage(&rt);
        return;
    }
    work_on(&rt, word);
}
