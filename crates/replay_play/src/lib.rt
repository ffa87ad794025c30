// A replay file's records, taken one after another as the bytes come; types, samples and network stand in lent slices.

#![tactic(auto)]

ghost use Rattle.std.specs.Prelude.{◌≡◌, false, ◌+◌, ◌^◌, ◌≤◌, ◌<◌, ◌∷◌, length, replicate, eqb};
ghost use Rattle.base_layout.specs.Bytes.{pasted};
ghost use Rattle.net_rules.specs.Record.{chain_most};
ghost use Rattle.net_rules.specs.Calls.{list_size};
ghost use Rattle.replay_file.specs.Records.{bad, running, body_length, module_record, record_step};
ghost use Rattle.replay_file.specs.Turns.{stage_in, Held, Within, over, wants, turn_step, turned, types_after, samples_after, net_after, text_after, turned_by, types_by, samples_by, net_by, text_by};
ghost use Rattle.replay_print.specs.Text.{text_size};

use replay_file::{Kind, Place, Turned};

// The ten bytes of a module before any sample: its type, and zeros.
fn put_unmeasured(samples: &mut [u8], place: usize, t: u8)
    requires { (length samples.old ≡ list_size chain_most) × (place < chain_most) }
    ensures { samples.new ≡ pasted (list_size place) (t ∷ replicate 9 0) samples.old }
{
    let mut ten = [0u8; module_rules::SAMPLE_LEN];
    ten[0] = t;
    base_layout::put_all(samples, module_rules::SAMPLE_LEN * place, &ten);
}

// A module. The network is set up anew for each, so that it stands ready when another kind comes.
fn take_module(
    at: Place,
    t: u8,
    types: &mut [u8],
    samples: &mut [u8],
    net: &mut [u8],
    out: &mut [u8],
) -> Turned
    requires held { Held at types.old samples.old net.old }
    requires offset_bound { (at.offset + 11 < 2 ^ 64) × (text_size ≤ length out.old) }
    ensures value { result ≡ turned 2 (module_record (stage_in at types.old samples.old net.old) t) at }
    ensures types_after { types.new ≡ types_after (module_record (stage_in at types.old samples.old net.old) t) types.old }
    ensures samples_after { samples.new ≡ samples_after (module_record (stage_in at types.old samples.old net.old) t) samples.old }
    ensures net_after { net.new ≡ net_after (module_record (stage_in at types.old samples.old net.old) t) net.old }
    ensures out_after { out.new ≡ pasted 0 (text_after (module_record (stage_in at types.old samples.old net.old) t) at.offset) out.old }
{
    let n = at.count;
    if at.running | (net_rules::CHAIN_MOST <= n) | !types_table::is_known(t as u32) {
        return at.bad(out);
    }
    types[n] = t;
    put_unmeasured(samples, n, t);
    net_record::set_up(net, &types[..n + 1]);
    at.joined()
}

// Whether a kind is a module's.
fn is_module(kind: u8) -> bool
    ensures { result ≡ eqb kind 0 }
{
    matches!(Kind::try_from(kind), Ok(Kind::Module))
}

// A whole record.
fn take_record(
    at: Place,
    kind: u8,
    body: &[u8],
    types: &mut [u8],
    samples: &mut [u8],
    net: &mut [u8],
    out: &mut [u8],
) -> Turned
    requires held { Held at types.old samples.old net.old }
    requires body_len { (length body.now ≡ body_length kind) × (at.offset + 11 < 2 ^ 64) × (text_size ≤ length out.old) }
    ensures value { result ≡ turned (1 + body_length kind) (record_step (stage_in at types.old samples.old net.old) kind body.now) at }
    ensures types_after { types.new ≡ types_after (record_step (stage_in at types.old samples.old net.old) kind body.now) types.old }
    ensures samples_after { samples.new ≡ samples_after (record_step (stage_in at types.old samples.old net.old) kind body.now) samples.old }
    ensures net_after { net.new ≡ net_after (record_step (stage_in at types.old samples.old net.old) kind body.now) net.old }
    ensures out_after { out.new ≡ pasted 0 (text_after (record_step (stage_in at types.old samples.old net.old) kind body.now) at.offset) out.old }
{
    if is_module(kind) {
        return take_module(at, body[0], types, samples, net, out);
    }
    if at.count == 0 {
        return at.bad(out);
    }
    replay_feed::take_other(at, kind, body, samples, net, out)
}

// A turn: at most one record, from the head of the bytes that are there; last says that the file has no more.
pub fn turn(
    at: Place,
    types: &mut [u8],
    samples: &mut [u8],
    net: &mut [u8],
    input: &[u8],
    last: bool,
    out: &mut [u8],
) -> Turned
    requires held { Held at types.old samples.old net.old }
    requires offset_bound { (at.offset + 11 < 2 ^ 64) × (text_size ≤ length out.old) }
    ensures value { result ≡ turned_by (turn_step (stage_in at types.old samples.old net.old) input.now last) at }
    ensures types_after { types.new ≡ types_by (turn_step (stage_in at types.old samples.old net.old) input.now last) types.old }
    ensures samples_after { samples.new ≡ samples_by (turn_step (stage_in at types.old samples.old net.old) input.now last) samples.old }
    ensures net_after { net.new ≡ net_by (turn_step (stage_in at types.old samples.old net.old) input.now last) net.old }
    ensures out_after { out.new ≡ pasted 0 (text_by (turn_step (stage_in at types.old samples.old net.old) input.now last) at.offset) out.old }
    ensures held_2 { Held result.next types.new samples.new net.new }
    ensures within { Within result at.offset (length input.now) }
{
    if input.len() == 0 {
        return at.waits(last);
    }
    let kind = input[0];
    let size = 1 + replay_file::body_len(kind);
    if input.len() < size {
        return at.cut(last, out);
    }
    take_record(at, kind, &input[1..size], types, samples, net, out)
}
