// How a reply is put together: status, chosen items, sum.

#![tactic(auto)]

ghost use Rattle.std.specs.Prelude.{◌≡◌, ◌+◌, ◌≤◌, ◌<◌, length};
ghost use Rattle.base_layout.specs.Bytes.{pasted};
ghost use Rattle.line_receiver.specs.Receive.{total};
ghost use Rattle.module_rules.specs.Touch.{frame_of};
ghost use Rattle.module_rules.specs.Report.{item, chosen, report, items_for, reply_of};

use module_rules::{Frame, Station};

// Puts an item of k bytes into the room from place at on, if it is chosen; how many bytes that took.
fn put_item(room: &mut [u8], at: usize, t: bool, k: usize, x: u32) -> usize
    requires { at + k ≤ length room.old }
    ensures value { result ≡ length (item t k x) }
    ensures room_after { room.new ≡ pasted at (item t k x) room.old }
{
    if t {
        base_layout::put_number(room, at, k, x);
        return k;
    }
    0
}

// Puts the chosen items into the room from place from on; where the next byte goes.
fn put_items(room: &mut [u8], from: usize, items: u8, sizes: [u8; 8], numbers: [u32; 8]) -> usize
    requires { (length sizes ≡ 8) × (length numbers ≡ 8) × (from + total sizes ≤ length room.old) }
    ensures value { result ≡ from + length (chosen items sizes numbers) }
    ensures room_after { room.new ≡ pasted from (chosen items sizes numbers) room.old }
{
    let mut at = from;
    let mut left = items;
    for (size, number) in sizes.iter().zip(&numbers) {
        at += put_item(room, at, left % 2 == 1, *size as usize, *number);
        left /= 2;
    }
    at
}

// Puts a reply into the room from place from on: status byte, chosen items, sum; how many bytes it has.
fn put_report(
    room: &mut [u8],
    from: usize,
    status: u8,
    items: u8,
    sizes: [u8; 8],
    numbers: [u32; 8],
) -> usize
    requires { (length sizes ≡ 8) × (length numbers ≡ 8) × (from + 2 + total sizes ≤ length room.old) }
    ensures value { result ≡ length (report status items sizes numbers) }
    ensures room_after { room.new ≡ pasted from (report status items sizes numbers) room.old }
{
    room[from] = status;
    let end = put_items(room, from + 1, items, sizes, numbers);
    let sum = line_receiver::sum_on(0, &room[from..end]);
    room[end] = sum;
    end + 1 - from
}

// The items that a reply to this frame has.
fn items_for(f: Frame<'_>, s: Station) -> u8
    ensures { result ≡ items_for (frame_of f.entry) s }
{
    if (f.code == 3) & (s.cause == 0) {
        return base_layout::byte_at(f.content, 0);
    }
    s.items
}

// Puts the reply to a frame into the room from place from on; how many bytes it has. Sizes and numbers come as two lists, since
// reply_of speaks of two. A room goes along with its place: a slice lent anew at each hand-over would be one more test of its bounds.
pub fn put_reply(
    room: &mut [u8],
    from: usize,
    f: Frame<'_>,
    s: Station,
    status: u8,
    sizes: [u8; 8],
    numbers: [u32; 8],
) -> usize
    requires { (length sizes ≡ 8) × (length numbers ≡ 8) × (from + 2 + total sizes ≤ length room.old) }
    ensures value { result ≡ length (reply_of (frame_of f.entry) s status sizes numbers) }
    ensures room_after { room.new ≡ pasted from (reply_of (frame_of f.entry) s status sizes numbers) room.old }
{
    if (f.code == 15) & (s.cause == 0) {
        return 0;
    }
    put_report(room, from, status, items_for(f, s), sizes, numbers)
}
