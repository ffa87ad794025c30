// What bytes and ticks do to a valid record: a frame that has ended is handed along the chain.
// The record is memory that C lends to each call, so that it is valid stands in each contract, and no type can hold it.

#![tactic(auto)]

ghost use Rattle.std.specs.Prelude.{◌≡◌, true, ◌≤◌, length, get_or, take};
ghost use Rattle.base_layout.specs.Bytes.{pasted};
ghost use Rattle.line_receiver.specs.Frames.{frame_in};
ghost use Rattle.line_receiver.specs.Receive.{count};
ghost use Rattle.module_rules.specs.Touch.{frame_of};
ghost use Rattle.chain_rules.specs.Chain.{join, flat, byte_step, taking};
ghost use Rattle.types_rules.specs.Types.{kind, slots};
ghost use Rattle.net_rules.specs.Record.{slots_at, count_at, net_in, stored, valid, room_size, room_for};
ghost use Rattle.net_rules.specs.Walk.{walked, speech, ended_of, speech_by, walked_by, answered_of};
ghost use Rattle.net_rules.specs.Calls.{list_size, samples_for, tick_step, called_by, byte_of, bytes_of};

use line_receiver::Receiver;
use module_rules::Frame;
use net_rules::{Called, Walked};

// The frame that a receiver held. Its data bytes come as a slice, of whose items a proof knows that they are bytes; of a list in a struct it doesn't.
fn framed<'a>(r: Receiver, content: &'a [u8], damaged: bool) -> Frame<'a>
    requires { content.now ≡ take (count r) r.bytes }
    ensures { frame_of result ≡ frame_in r damaged }
{
    Frame {
        address: r.address,
        code: r.command % 16,
        content,
        damaged,
    }
}

// The frame that a receiver held when its last byte came, handed to the chain.
fn hand_on(net: &mut [u8], r: Receiver, damaged: bool, room: &mut [u8]) -> Called
    requires { (valid slots net.old ≡ true) × (room_size ≤ length room.old) }
    ensures value { result ≡ ended_of (frame_in r damaged) (get_or net.old count_at 0) net.old }
    ensures net_after { net.new ≡ walked kind slots (frame_in r damaged) true (get_or net.old count_at 0) slots_at net.old }
    ensures room_after { room.new ≡ pasted 0 (join (speech kind slots (frame_in r damaged) true (get_or net.old count_at 0) slots_at net.old)) room.old }
{
    let n = net_receiver::chain_len(net) as usize;
    let f = framed(r, &r.bytes[..r.count()], damaged);
    let Walked { written, lengths } = net_frame::walk(net, n, f, room);
    Called {
        ended: Some(damaged),
        written,
        lengths,
    }
}

// What the receiver's answer to a byte brings: a frame that has ended is handed along the chain, and nothing more stops here.
fn answered(net: &mut [u8], r: Receiver, answer: Option<bool>, room: &mut [u8]) -> Called
    requires { (valid slots net.old ≡ true) × (room_size ≤ length room.old) }
    ensures value { result ≡ answered_of r answer net.old }
    ensures net_after { net.new ≡ walked_by r answer net.old }
    ensures room_after { room.new ≡ pasted 0 (join (speech_by r answer net.old)) room.old }
{
    let Some(damaged) = answer else {
        return Called {
            ended: None,
            written: 0,
            lengths: [0u8; net_rules::CHAIN_MOST],
        };
    };
    hand_on(net, r, damaged, room)
}

// A byte of the line.
pub fn byte(net: &mut [u8], value: u8, mark: bool, room: &mut [u8]) -> Called
    requires { (valid slots net.old ≡ true) × (room_size ≤ length room.old) }
    ensures value { result ≡ called_by (net_in slots net.old) (byte_of value mark) }
    ensures net_after { net.new ≡ stored slots (byte_step kind (net_in slots net.old) (byte_of value mark)).net net.old }
    ensures room_after { room.new ≡ pasted 0 (flat (byte_step kind (net_in slots net.old) (byte_of value mark)).replies) room.old }
{
    let r = net_receiver::receiver_in(net);
    let got = r.take(value, mark);
    let called = answered(net, r, got.answer, room);
    net_receiver::put_receiver(net, got.next);
    called
}

// Bytes of the line, each with its mark, and the length of all replies to them. The receiver goes from byte to byte by value and is put into
// the record once. A byte that ends no frame goes on at once, since `answered` for every byte made a buffer of noise half as long again.
pub fn bytes(net: &mut [u8], values: &[u8], marks: &[u8], room: &mut [u8]) -> usize
    requires { (valid slots net.old ≡ true) × (length values.now ≡ length marks.now) × (room_for (length values.now) ≤ length room.old) }
    ensures value { result ≡ length (flat (taking kind (bytes_of values.now marks.now) (net_in slots net.old)).replies) }
    ensures net_after { net.new ≡ stored slots (taking kind (bytes_of values.now marks.now) (net_in slots net.old)).net net.old }
    ensures room_after { room.new ≡ pasted 0 (flat (taking kind (bytes_of values.now marks.now) (net_in slots net.old)).replies) room.old }
{
    let mut r = net_receiver::receiver_in(net);
    let mut written: usize = 0;
    for (value, mark) in values.iter().zip(marks) {
        let held = r;
        let got = held.take(*value, *mark == 1);
        r = got.next;
        let Some(damaged) = got.answer else {
            continue;
        };
        let called = hand_on(net, held, damaged, &mut room[written..]);
        written += called.written;
    }
    net_receiver::put_receiver(net, r);
    written
}

// A tick with its list of samples. It goes by places: once a loop over the slots' own borrows (`chunks_exact_mut`) is over, a proof knows the
// record's length and not its bytes.
pub fn tick(net: &mut [u8], samples: &[u8])
    requires { (valid slots net.old ≡ true) × (length samples.now ≡ list_size (length (net_in slots net.old).modules)) }
    ensures { net.new ≡ stored slots (tick_step (samples_for (net_in slots net.old) samples.now) (net_in slots net.old)) net.old }
{
    let n = net_receiver::chain_len(net) as usize;
    for place in 0..n {
        let at = net_rules::SLOTS_AT + place * module_rules::SLOT_LEN;
        let from = place * module_rules::SAMPLE_LEN;
        let x = types_dispatch::sample_in(&samples[from..from + module_rules::SAMPLE_LEN]);
        types_dispatch::tick(&mut net[at..at + module_rules::SLOT_LEN], x);
    }
}
