// What each program does with files: it opens the one that an argument names, writes to standard output, and tells on standard error what failed.

#![tactic(auto)]

use arrayvec::ArrayString;
use std::env::FillError;
use std::fmt::Write;
use std::rt::{Env, Files};
use std::{fs, io, str};

// The longest name that the system takes, with the 0 behind it. Rooms have fixed sizes, here and below, since there is no heap.
const NAME_ROOM: usize = 4096;

// Room for an error's text: std's words have at most 256 bytes, and the number stands behind them.
const TEXT_ROOM: usize = 300;

// Linux's numbers for an argument that is not there, and for one that is too long.
const EINVAL: i32 = 22;

const ENAMETOOLONG: i32 = 36;

// Whether the program was given an argument at this place. The program's own name is at 0.
pub fn is_given(rt: &impl Env, place: usize) -> bool {
    !matches!(rt.arg(place, &mut []), Err(FillError::NotPresent))
}

// The argument at this place as text, in the room that is lent.
fn argument<'a>(rt: &impl Env, place: usize, room: &'a mut [u8]) -> io::Result<&'a str> {
    match rt.arg(place, room) {
        Ok(length) => str::from_utf8(&room[..length]).map_err(|_| not_text()),
        Err(FillError::NotPresent) => Err(io::Error::from_raw_os_error(EINVAL)),
        Err(FillError::TooLong) => Err(io::Error::from_raw_os_error(ENAMETOOLONG)),
    }
}

fn not_text() -> io::Error {
    io::Error::new(io::ErrorKind::InvalidInput, "not UTF-8")
}

// What an attempt gave. Where it failed, it says so and answers nothing.
fn told<T>(rt: &impl Eprint, what: &str, attempt: io::Result<T>) -> Option<T> {
    match attempt {
        Ok(given) => Some(given),
        Err(error) => {
            fail(rt, what, error);
            None
        }
    }
}

// Opens the file that an argument names, for reading. Where that fails, it says so and answers nothing.
pub fn open_named<R: Env + Files + Eprint>(rt: &R, place: usize) -> Option<R::File> {
    let mut room = [0u8; NAME_ROOM];
    let path = told(rt, "path", argument(rt, place, &mut room))?;
    told(rt, path, fs::open(rt, path))
}

// Writes out bytes. Where that fails, as on a full disk, it says so and answers false: the error is told here, so none goes up.
pub fn put(rt: &(impl Print + Eprint), bytes: &[u8]) -> bool {
    told(rt, "write", rt.write_all(bytes)).is_some()
}

// The system's words in an error's text, without the number that std puts behind them.
fn words(text: &str) -> &str {
    text.split_once(" (os error ")
        .map_or(text, |(words, _)| words)
}

// Writes a line to standard error: what failed, a colon and why.
pub fn fail(rt: &impl Eprint, what: &str, error: io::Error) {
    let mut text = ArrayString::<TEXT_ROOM>::new();
    let _ = write!(text, "{error}");
    let _ = eprintln!(rt; "{what}: {}", words(text.as_str()));
}
