// A frame that has ended, handed along the chain.

#![tactic(auto)]

ghost use Rattle.std.specs.Prelude.{◌≡◌, true, ◌+◌, ◌*◌, ◌≤◌, length, take, drop};
ghost use Rattle.base_layout.specs.Bytes.{pasted};
ghost use Rattle.module_rules.specs.Touch.{frame_of};
ghost use Rattle.chain_rules.specs.Chain.{join};
ghost use Rattle.module_rules.specs.Slots.{slot_size};
ghost use Rattle.types_rules.specs.Types.{kind, slots};
ghost use Rattle.net_rules.specs.Record.{slots_at, ok_slots, chain_most};
ghost use Rattle.net_rules.specs.Walk.{turned, words_at, walked, speech, turn_of, walk_of};
ghost use Rattle.module_rules.specs.Owes.{reply_size};

use module_rules::Frame;
use net_rules::{Turn, Walked};

// The frame at the module in the slot at place at; a module that is not touched is neither decoded nor written.
fn take_turn(
    net: &mut [u8],
    at: usize,
    enabled: bool,
    f: Frame<'_>,
    room: &mut [u8],
    from: usize,
) -> Turn
    requires { (at + slot_size ≤ length net.old) × (from + reply_size ≤ length room.old) × (slots.ok (take slot_size (drop at net.old)) ≡ true) }
    ensures value { result ≡ turn_of (frame_of f.entry) enabled at net.old }
    ensures net_after { net.new ≡ turned kind slots (frame_of f.entry) enabled at net.old }
    ensures room_after { room.new ≡ pasted from (words_at kind slots (frame_of f.entry) enabled at net.old) room.old }
    ensures short { result.said ≤ reply_size }
{
    let slot = &mut net[at..at + module_rules::SLOT_LEN];
    let address = module_station::address_in(slot);
    if enabled & module_station::is_named(address, f.address) {
        let said = types_dispatch::touch(slot, f, room, from);
        return Turn {
            low: address.low,
            said,
        };
    }
    Turn {
        low: address.low,
        said: 0,
    }
}

// The frame at the first n modules, their replies one after another in the room.
pub fn walk(net: &mut [u8], n: usize, f: Frame<'_>, room: &mut [u8]) -> Walked
    requires { (slots_at + slot_size * n ≤ length net.old) × (reply_size * n ≤ length room.old) × (n ≤ chain_most) × (ok_slots slots n (drop slots_at net.old) ≡ true) }
    ensures value { result ≡ walk_of (frame_of f.entry) n net.old }
    ensures net_after { net.new ≡ walked kind slots (frame_of f.entry) true n slots_at net.old }
    ensures room_after { room.new ≡ pasted 0 (join (speech kind slots (frame_of f.entry) true n slots_at net.old)) room.old }
{
    let mut lengths = [0u8; net_rules::CHAIN_MOST];
    let mut enabled = true;
    let mut written: usize = 0;
    // By places: once a loop over the slots' own borrows (`chunks_exact_mut`) is over, a proof knows the record's length and not its bytes.
    for place in 0..n {
        let at = net_rules::SLOTS_AT + module_rules::SLOT_LEN * place;
        let t = take_turn(net, at, enabled, f, room, written);
        enabled = t.low;
        lengths[place] = t.said as u8;
        written += t.said;
    }
    Walked { written, lengths }
}
