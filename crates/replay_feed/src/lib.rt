// What the records of a running replay do to the network and to its list of samples: bytes, samples and ticks.

#![tactic(auto)]

ghost use Rattle.std.specs.Prelude.{◌≡◌, true, [], ◌+◌, ◌^◌, ◌≤◌, ◌<◌, length, get_or, take};
ghost use Rattle.base_layout.specs.Bytes.{pasted};
ghost use Rattle.types_rules.specs.Types.{slots};
ghost use Rattle.net_rules.specs.Record.{net_in, stored, valid, chain_most};
ghost use Rattle.net_rules.specs.Calls.{list_size, samples_for, tick_step};
ghost use Rattle.replay_file.specs.Records.{bad, goes, running, body_length, line_byte, measured, sample_record, net_record};
ghost use Rattle.replay_file.specs.Turns.{turned, samples_after, net_after, text_after};
ghost use Rattle.replay_print.specs.Text.{text_size};

use replay_file::{Kind, Place, Turned};

// A line byte, and the lines of the replies that it draws; it leaves the list of samples alone.
fn take_byte(at: Place, body: &[u8], net: &mut [u8], out: &mut [u8]) -> Turned
    requires net_value { (valid slots net.old ≡ true) × (length body.now ≡ 2) }
    requires offset_bound { (at.offset + 11 < 2 ^ 64) × (text_size ≤ length out.old) }
    ensures value { result ≡ turned 3 (line_byte (net_in slots net.old) [] (get_or body.now 0 0) (get_or body.now 1 0)) at }
    ensures net_after { net.new ≡ net_after (line_byte (net_in slots net.old) [] (get_or body.now 0 0) (get_or body.now 1 0)) net.old }
    ensures out_after { out.new ≡ pasted 0 (text_after (line_byte (net_in slots net.old) [] (get_or body.now 0 0) (get_or body.now 1 0)) at.offset) out.old }
{
    let mark = body[0];
    let value = body[1];
    if 1 < mark {
        return at.bad(out);
    }
    let mut room = [0u8; net_rules::ROOM_LEN];
    let called = net_traffic::byte(net, value, mark == 1, &mut room);
    let lengths = called.lengths;
    let wrote = replay_print::put_replies(lengths, &room, out);
    at.went(3, wrote)
}

// The ten bytes of a sample record for a module of type t: the type, the body without its place, zeros.
fn measured(t: u8, body: &[u8]) -> [u8; module_rules::SAMPLE_LEN]
    requires { (1 ≤ length body.now) × (length body.now ≤ 10) }
    ensures { result ≡ measured t body.now }
{
    let mut ten = [0u8; module_rules::SAMPLE_LEN];
    ten[0] = t;
    base_layout::put_all(&mut ten, module_rules::MEASURED_AT, &body[1..]);
    ten
}

// A sample for a module of type t, which waits in the list for ticks.
fn take_sample(
    at: Place,
    t: u8,
    body: &[u8],
    samples: &mut [u8],
    net: &[u8],
    out: &mut [u8],
) -> Turned
    requires net_value { (valid slots net.now ≡ true) × (length (net_in slots net.now).modules ≡ at.count) × (length samples.old ≡ list_size chain_most) × (at.count ≤ chain_most) }
    requires in_bounds { (1 ≤ length body.now) × (length body.now ≤ 10) × (at.offset + 11 < 2 ^ 64) × (text_size ≤ length out.old) }
    ensures value { result ≡ turned (1 + length body.now) (sample_record t (net_in slots net.now) (take (list_size at.count) samples.old) body.now) at }
    ensures samples_after { samples.new ≡ samples_after (sample_record t (net_in slots net.now) (take (list_size at.count) samples.old) body.now) samples.old }
    ensures out_after { out.new ≡ pasted 0 (text_after (sample_record t (net_in slots net.now) (take (list_size at.count) samples.old) body.now) at.offset) out.old }
{
    let place = body[0] as usize;
    let ten = measured(t, body);
    if net_record::is_of_type(net, place, t) & types_dispatch::is_sample_ok(&ten) {
        base_layout::put_all(samples, module_rules::SAMPLE_LEN * place, &ten);
        return at.went(1 + body.len() as u8, 0);
    }
    at.bad(out)
}

// A tick with the samples that there are.
fn take_tick(at: Place, samples: &[u8], net: &mut [u8]) -> Turned
    requires net_value { (valid slots net.old ≡ true) × (length (net_in slots net.old).modules ≡ at.count) × (length samples.now ≡ list_size chain_most) × (at.count ≤ chain_most) }
    requires offset_bound { at.offset + 11 < 2 ^ 64 }
    ensures value { result ≡ turned 1 (goes (running (tick_step (samples_for (net_in slots net.old) (take (list_size at.count) samples.now)) (net_in slots net.old)) (take (list_size at.count) samples.now)) []) at }
    ensures net_after { net.new ≡ stored slots (tick_step (samples_for (net_in slots net.old) (take (list_size at.count) samples.now)) (net_in slots net.old)) net.old }
{
    let end = module_rules::SAMPLE_LEN * at.count;
    net_traffic::tick(net, &samples[..end]);
    at.went(1, 0)
}

// A record of any kind but a module, at a network that is set up. Its kind is any byte, as the file has it.
pub fn take_other(
    at: Place,
    kind: u8,
    body: &[u8],
    samples: &mut [u8],
    net: &mut [u8],
    out: &mut [u8],
) -> Turned
    requires net_value { (valid slots net.old ≡ true) × (length (net_in slots net.old).modules ≡ at.count) × (length samples.old ≡ list_size chain_most) × (at.count ≤ chain_most) }
    requires body_len { (length body.now ≡ body_length kind) × (at.offset + 11 < 2 ^ 64) × (text_size ≤ length out.old) }
    ensures value { result ≡ turned (1 + body_length kind) (net_record kind (net_in slots net.old) (take (list_size at.count) samples.old) body.now) at }
    ensures samples_after { samples.new ≡ samples_after (net_record kind (net_in slots net.old) (take (list_size at.count) samples.old) body.now) samples.old }
    ensures net_after { net.new ≡ net_after (net_record kind (net_in slots net.old) (take (list_size at.count) samples.old) body.now) net.old }
    ensures out_after { out.new ≡ pasted 0 (text_after (net_record kind (net_in slots net.old) (take (list_size at.count) samples.old) body.now) at.offset) out.old }
{
    let Ok(kind) = Kind::try_from(kind) else {
        return at.bad(out);
    };
    match kind {
        Kind::Module => at.bad(out),
        Kind::LineByte => take_byte(at, body, net, out),
        Kind::ServoSample => take_sample(at, servo_rules::TYPE, body, samples, net, out),
        Kind::IoSample => take_sample(at, inout_rules::TYPE, body, samples, net, out),
        Kind::Tick => take_tick(at, samples, net),
        Kind::StepperSample => take_sample(at, stepper_rules::TYPE, body, samples, net, out),
    }
}
