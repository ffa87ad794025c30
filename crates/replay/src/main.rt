// Replays a capture: the file that the argument names, or standard input where there is none. What the replay prints goes to standard output
// as it comes; what fails is told on standard error.

#![tactic(auto)]

ghost use Rattle.std.specs.Prelude.{◌≡◌, ◌+◌, ◌-◌, ◌^◌, ◌<◌, ◌≤◌, length, drop, IfSome};
ghost use Rattle.std.proofs.Math.Seq.{paste};
ghost use Rattle.replay_file.specs.Turns.{Held};
ghost use Rattle.net_rules.specs.Record.{chain_most, record_size};
ghost use Rattle.net_rules.specs.Calls.{list_size};
ghost use Rattle.replay_print.specs.Text.{text_size};

use replay_file::{Course, Place};
use std::io::Read;
use std::rt::{Env, Files};

// How many bytes of the file are held at once.
const BLOCK: usize = 65536;

// How many turns a replay may have. A proved loop has to end, and nothing says that a file does: no run uses this number up.
const TURNS: u64 = 1_152_921_504_606_846_976;

// Where the program is: the replay's place, the bytes of the buffer that are not taken yet, and whether the file has no more. The buffer has a fixed
// size, since there is no heap, so these bytes are told by where they begin and end.
#[derive(Clone, Copy)]
struct State {
    at: Place,
    start: usize,
    end: usize,
    last: bool,
}

// Moves the bytes from start to end to the front.
fn keep(buf: &mut [u8], start: usize, end: usize)
    requires { (start ≤ end) × (end ≤ length buf.old) }
    ensures { buf.new ≡ paste buf.old 0 (drop start buf.old) (end - start) }
{
    buf.copy_within(start..end, 0);
}

// Reads more behind the bytes that are not taken yet; nothing where that fails.
fn refill<F: Read>(
    rt: &impl Eprint,
    input: &mut F,
    at: Place,
    start: usize,
    end: usize,
    buf: &mut [u8],
) -> Option<State>
    requires { (start ≤ end) × (end ≤ length buf.old) }
    ensures { IfSome result (λ s. (s.at ≡ at) × (s.start ≤ s.end) × (s.end ≤ length buf.old)) }
{
    keep(buf, start, end);
    let n = end - start;
    match input.read(&mut buf[n..]) {
        Ok(more) => Some(State {
            at,
            start: 0,
            end: n + more,
            last: more == 0,
        }),
        Err(error) => {
            base_files::fail(rt, "read", error);
            None
        }
    }
}

// A turn of the replay, with what it prints written out; nothing where the replay is over.
fn step<R: Print + Eprint, F: Read>(
    rt: &R,
    input: &mut F,
    s: State,
    buf: &mut [u8],
    types: &mut [u8],
    samples: &mut [u8],
    net: &mut [u8],
    out: &mut [u8],
) -> Option<State>
    requires held { Held s.at types.old samples.old net.old }
    requires offset_bound { (s.at.offset + 11 < 2 ^ 64) × (s.start ≤ s.end) × (s.end ≤ length buf.old) × (text_size ≤ length out.old) }
    ensures held_2 { IfSome result (λ r. Held r.at types.new samples.new net.new) }
    ensures offset_bound_2 { IfSome result (λ r. (r.at.offset ≤ s.at.offset + 11) × (r.start ≤ r.end) × (r.end ≤ length buf.old)) }
{
    let State {
        at,
        start,
        end,
        last,
    } = s;
    let t = replay_play::turn(at, types, samples, net, &buf[start..end], last, out);
    let wrote = t.wrote;
    if !base_files::put(rt, &out[..wrote]) {
        return None;
    }
    match t.course {
        Course::Over => None,
        Course::Wants => refill(rt, input, t.next, start, end, buf),
        Course::GoesOn => Some(State {
            at: t.next,
            start: start + t.took,
            end,
            last,
        }),
    }
}

// The turns, until the replay is over. The three lent slices stay three, since each clause of `replay_play::turn` names one of them, and a struct of them
// would say no more.
fn run<R: Print + Eprint, F: Read>(
    rt: &R,
    input: &mut F,
    buf: &mut [u8],
    types: &mut [u8],
    samples: &mut [u8],
    net: &mut [u8],
    out: &mut [u8],
)
    requires { (length types.old ≡ chain_most) × (length samples.old ≡ list_size chain_most) × (length net.old ≡ record_size) × (text_size ≤ length out.old) }
{
    let mut s = State {
        at: Place::start(),
        start: 0,
        end: 0,
        last: false,
    };
    for _ in 0..TURNS {
        let Some(next) = step(rt, input, s, buf, types, samples, net, out) else {
            return;
        };
        s = next;
    }
}

fn replay<R: Print + Eprint, F: Read>(rt: &R, input: &mut F) {
    let mut buf = [0u8; BLOCK];
    let mut types = [0u8; net_rules::CHAIN_MOST];
    let mut samples = [0u8; net_rules::CHAIN_MOST * module_rules::SAMPLE_LEN];
    let mut net = [0u8; net_rules::NET_LEN];
    let mut out = [0u8; replay_print::TEXT_LEN];
    run(
        rt,
        input,
        &mut buf,
        &mut types,
        &mut samples,
        &mut net,
        &mut out,
    );
}

// Replays the file that the argument names.
fn replay_named<R: Env + Files + Print + Eprint>(rt: &R) {
    if let Some(mut file) = base_files::open_named(rt, 1) {
        replay(rt, &mut file);
    }
}

fn main(rt: HostRuntime) {
    if !base_files::is_given(&rt, 1) {
        replay(&rt, &mut rt.stdin());
    } else if !base_files::is_given(&rt, 2) {
        replay_named(&rt);
    } else {
        let _ = eprintln!(rt; "usage: replay [CAPTURE]");
    }
}
