// The receiver in the lent record: its bytes read, put together and tested; and the number of modules behind them.

#![tactic(auto)]

ghost use Rattle.std.specs.Prelude.{◌≡◌, true, ◌+◌, ◌≤◌, ◌<◌, length};
ghost use Rattle.base_layout.specs.Bytes.{pasted, read_at};
ghost use Rattle.types_rules.specs.Types.{slots};
ghost use Rattle.net_rules.specs.Record.{receiver_in, receiver_bytes, ok_receiver, blank, net_in, valid, receiver_size};

use line_receiver::Receiver;

// The fifteen stand as a list, here and below: by copies, to read, change and put a receiver compiled to 53 instructions in place of 31.
pub fn receiver_in(s: &[u8]) -> Receiver
    requires { receiver_size ≤ length s.now }
    ensures { result ≡ receiver_in s.now }
{
    Receiver {
        bytes: [
            s[0], s[1], s[2], s[3], s[4], s[5], s[6], s[7], s[8], s[9], s[10], s[11], s[12], s[13],
            s[14],
        ],
        address: s[net_rules::ADDRESS_AT],
        command: s[net_rules::COMMAND_AT],
        fill: s[net_rules::FILL_AT],
        marked: s[net_rules::MARKED_AT] == 1,
    }
}

fn receiver_bytes(r: Receiver) -> [u8; net_rules::RECEIVER_LEN]
    ensures { result ≡ receiver_bytes r }
{
    let b = r.bytes;
    [
        b[0],
        b[1],
        b[2],
        b[3],
        b[4],
        b[5],
        b[6],
        b[7],
        b[8],
        b[9],
        b[10],
        b[11],
        b[12],
        b[13],
        b[14],
        r.address,
        r.command,
        r.fill,
        r.marked as u8,
    ]
}

// The receiver put into the record.
pub fn put_receiver(net: &mut [u8], r: Receiver)
    requires { receiver_size ≤ length net.old }
    ensures { net.new ≡ pasted 0 (receiver_bytes r) net.old }
{
    let bytes = receiver_bytes(r);
    base_layout::put_all(net, 0, &bytes);
}

// Whether the receiver's bytes are all 0. With no early exit they compile to one test.
fn is_blank(s: &[u8]) -> bool
    requires { receiver_size ≤ length s.now }
    ensures { result ≡ blank (read_at receiver_size 0 s.now) }
{
    let mut is_blank = true;
    for byte in &s[..net_rules::RECEIVER_LEN] {
        is_blank &= *byte == 0;
    }
    is_blank
}

pub fn is_receiver_ok(s: &[u8]) -> bool
    requires { receiver_size ≤ length s.now }
    ensures { result ≡ ok_receiver s.now }
{
    if s[net_rules::FILL_AT] == 0 {
        return is_blank(s);
    }
    (s[net_rules::FILL_AT] <= 3 + s[net_rules::COMMAND_AT] / 16) & (s[net_rules::MARKED_AT] <= 1)
}

// How many modules the chain has.
pub fn chain_len(net: &[u8]) -> u8
    requires { valid slots net.now ≡ true }
    ensures { result ≡ length (net_in slots net.now).modules }
{
    net[net_rules::COUNT_AT]
}
