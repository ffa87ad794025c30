// The text that a replay prints: the lines of the replies.

#![tactic(auto)]

ghost use Rattle.std.specs.Prelude.{◌≡◌, ◌∷◌, ℕ, ◌+◌, ◌*◌, ◌≤◌, ◌<◌, length, get_or};
ghost use Rattle.base_layout.specs.Bytes.{pasted};
ghost use Rattle.base_text.specs.Digits.{space, hex_pair};
ghost use Rattle.replay_print.specs.Text.{hexes, line, reply_text, printed, text_size, line_size};
ghost use Rattle.net_rules.specs.Record.{chain_most, room_size};
ghost use Rattle.module_rules.specs.Owes.{reply_size};

// The longest line: a place of two digits, a reply's bytes, a newline; and the room that the lines of all replies to a byte need.
const LINE_LEN: usize = 3 + 3 * module_rules::REPLY_LEN;

pub const TEXT_LEN: usize = net_rules::CHAIN_MOST * LINE_LEN;

// A space and a byte's two digits.
fn put_pair(out: &mut [u8], at: usize, b: u8)
    requires { at + 3 ≤ length out.old }
    ensures { out.new ≡ pasted at (space ∷ hex_pair b) out.old }
{
    let text = [
        b' ',
        base_text::hex_digit(b / 16),
        base_text::hex_digit(b % 16),
    ];
    base_layout::put_all(out, at, &text);
}

// The bytes of a reply, as the line shows them.
fn put_pairs(out: &mut [u8], at: usize, bytes: &[u8])
    requires { at + 3 * length bytes.now ≤ length out.old }
    ensures { out.new ≡ pasted at (hexes bytes.now) out.old }
{
    for (i, &b) in bytes.iter().enumerate() {
        put_pair(out, at + 3 * i, b);
    }
}

// The line of a reply.
fn put_line(out: &mut [u8], at: usize, place: usize, bytes: &[u8]) -> usize
    requires { (place < chain_most) × (length bytes.now ≤ reply_size) × (at + line_size ≤ length out.old) }
    ensures value { result ≡ length (line place bytes.now) }
    ensures out_after { out.new ≡ pasted at (line place bytes.now) out.old }
{
    let n = base_text::put_decimal(out, at, place as u64);
    put_pairs(out, at + n, bytes);
    let end = n + 3 * bytes.len();
    out[at + end] = b'\n';
    end + 1
}

// A place that says nothing has no line.
fn put_reply(out: &mut [u8], at: usize, place: usize, bytes: &[u8]) -> usize
    requires { (place < chain_most) × (length bytes.now ≤ reply_size) × (at + line_size ≤ length out.old) }
    ensures value { result ≡ length (reply_text place bytes.now) }
    ensures out_after { out.new ≡ pasted at (reply_text place bytes.now) out.old }
{
    if bytes.is_empty() {
        return 0;
    }
    put_line(out, at, place, bytes)
}

// The lines of the replies that stand in a room one after another; how many bytes they have.
pub fn put_replies(lengths: [u8; net_rules::CHAIN_MOST], room: &[u8], out: &mut [u8]) -> usize
    requires by_index { (i : ℕ) → get_or lengths i 0 ≤ reply_size }
    requires room_size_in_bounds { (room_size ≤ length room.now) × (text_size ≤ length out.old) }
    ensures value { result ≡ length (printed chain_most 0 0 lengths room.now) }
    ensures out_after { out.new ≡ pasted 0 (printed chain_most 0 0 lengths room.now) out.old }
{
    let mut wrote: usize = 0;
    let mut at: usize = 0;
    for (place, &length) in lengths.iter().enumerate() {
        let end = at + length as usize;
        wrote += put_reply(out, wrote, place, &room[at..end]);
        at = end;
    }
    wrote
}
