// Which refusal a call meets, if any, by its table. The record is C's memory, lent anew to each call, so each asks whether it is valid: no type can hold that.

#![tactic(auto)]

ghost use Rattle.std.specs.Prelude.{◌≡◌};
ghost use Rattle.base_layout.specs.First.{first};
ghost use Rattle.host_rules.specs.Refusals.{number_given};
ghost use Rattle.api_rules.specs.Table.{setup_table, byte_table, buffer_table, tick_table, place_table};

use host_rules::Refusal;

pub fn setup_refusal(net: &[u8], types: &[u8]) -> Result<(), Refusal>
    ensures { number_given result ≡ first (setup_table net.now types.now) }
{
    if net.len() != net_rules::NET_LEN {
        return Err(Refusal::BadRecord);
    }
    if (types.len() == 0) | (net_rules::CHAIN_MOST < types.len()) {
        return Err(Refusal::BadChain);
    }
    if !net_record::is_all_known(types) {
        return Err(Refusal::BadType);
    }
    Ok(())
}

pub fn byte_refusal(net: &[u8], mark: u32, room: &[u8]) -> Result<(), Refusal>
    ensures { number_given result ≡ first (byte_table net.now mark room.now) }
{
    if !net_record::is_valid(net) {
        return Err(Refusal::BadRecord);
    }
    if 1 < mark {
        return Err(Refusal::BadField);
    }
    if room.len() < net_rules::ROOM_LEN {
        return Err(Refusal::ShortRoom);
    }
    Ok(())
}

// A buffer of bytes with their marks, which C lends as two lists.
pub fn buffer_refusal(net: &[u8], bytes: &[u8], marks: &[u8], room: &[u8]) -> Result<(), Refusal>
    ensures { number_given result ≡ first (buffer_table net.now bytes.now marks.now room.now) }
{
    if !net_record::is_valid(net) {
        return Err(Refusal::BadRecord);
    }
    if (bytes.len() != marks.len()) | (net_rules::BUFFER_MOST < bytes.len()) {
        return Err(Refusal::BadList);
    }
    if !net_record::is_all_marks(marks) {
        return Err(Refusal::BadField);
    }
    if room.len() < net_rules::BUFFER_ROOM_LEN {
        return Err(Refusal::ShortRoom);
    }
    Ok(())
}

// A tick with its list of samples.
pub fn tick_refusal(net: &[u8], samples: &[u8]) -> Result<(), Refusal>
    ensures { number_given result ≡ first (tick_table net.now samples.now) }
{
    if !net_record::is_valid(net) {
        return Err(Refusal::BadRecord);
    }
    let n = net_receiver::chain_len(net) as usize;
    if samples.len() != module_rules::SAMPLE_LEN * n {
        return Err(Refusal::BadList);
    }
    if !net_record::is_typed(net, samples) {
        return Err(Refusal::BadPlace);
    }
    if !net_record::is_in_range(samples, n) {
        return Err(Refusal::BadField);
    }
    Ok(())
}

// A call that reads the module at a place.
pub fn place_refusal(net: &[u8], place: u32) -> Result<(), Refusal>
    ensures { number_given result ≡ first (place_table net.now place) }
{
    if !net_record::is_valid(net) {
        return Err(Refusal::BadRecord);
    }
    if !(place < net_receiver::chain_len(net) as u32) {
        return Err(Refusal::BadPlace);
    }
    Ok(())
}
