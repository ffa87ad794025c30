// The host's status reader.

#![tactic(auto)]

ghost use Rattle.std.specs.Prelude.{◌≡◌, ℕ, ◌+◌, ◌≤◌, ◌<◌, length, get_or};
ghost use Rattle.host_rules.specs.Reading.{one_size, needed_for, summed, reading_of, answered, status_of};

use host_rules::{Reading, Refusal};

// How many bytes an item has in a reply: its size if its bit, the lowest, is set.
fn one_size(bits: u8, size: u8) -> usize
    ensures { (result ≡ one_size bits size) × (result ≤ 255) }
{
    if bits % 2 == 1 { size as usize } else { 0 }
}

// How many bytes a reply with these items has, given the items' sizes, which are a list of their own as in the specs.
fn needed(items: u8, sizes: [u8; 8]) -> usize
    ensures { result ≡ needed_for items sizes }
{
    let mut n: usize = 2;
    let mut left = items;
    for size in sizes {
        n += one_size(left, size);
        left /= 2;
    }
    n
}

// Whether the last byte is the sum of those before it.
fn is_summed(reply: &[u8]) -> bool
    requires { 1 ≤ length reply.now }
    ensures { result ≡ summed reply.now }
{
    let last = reply.len() - 1;
    reply[last] == line_receiver::sum_on(0, &reply[..last])
}

// Takes a reply of the right length apart; an item that was not chosen has no bytes there and reads as 0.
fn read(items: u8, sizes: [u8; 8], reply: &[u8]) -> Reading
    requires reply_len { length reply.now ≡ needed_for items sizes }
    requires by_index { (i : ℕ) → get_or sizes i 0 ≤ 4 }
    ensures { result ≡ reading_of items sizes reply.now }
{
    let mut numbers = [0u32; 8];
    let mut left = items;
    let mut at: usize = 1;
    for (i, number) in numbers.iter_mut().enumerate() {
        let k = one_size(left, sizes[i]);
        *number = base_layout::get_number(reply, at, k);
        at += k;
        left /= 2;
    }
    Reading {
        status: reply[0],
        numbers,
    }
}

// Takes a module's reply apart, or says why not.
pub fn take_status(kind: u32, items: u8, reply: &[u8]) -> Result<Reading, Refusal>
    ensures { answered result ≡ status_of kind items reply.now }
{
    if !types_table::is_known(kind) {
        return Err(Refusal::BadType);
    }
    let sizes = types_table::sizes_of(kind);
    let long = reply.len() == needed(items, sizes);
    if !(types_table::is_shown(kind, items) & long) {
        return Err(Refusal::BadLength);
    }
    if !is_summed(reply) {
        return Err(Refusal::BadSum);
    }
    Ok(read(items, sizes, reply))
}
