// The calls for the board's C code. Each refuses what its table says, in the table's order, and changes nothing then. What a call does is a function that
// gives a Refusal; the call itself turns that into C's number, and puts how much was written where C wants it.

#![tactic(auto)]

ghost use Rattle.std.specs.Prelude.{◌≡◌, length};
ghost use Rattle.base_layout.specs.Bytes.{pasted};
ghost use Rattle.line_receiver.specs.Receive.{number_of};
ghost use Rattle.host_rules.specs.Refusals.{number_given};
ghost use Rattle.host_rules.specs.Writing.{reported, written_of, room_after};
ghost use Rattle.host_rules.specs.Reading.{status_of};
ghost use Rattle.base_layout.specs.First.{first};
ghost use Rattle.api_rules.specs.Table.{setup_table, buffer_table, tick_table, place_table, import_table, export_table};
ghost use Rattle.api_rules.specs.Calls.{setup_record, byte_number, byte_record, byte_room, byte_written, buffer_record, buffer_room, buffer_written, tick_record, outputs_bytes, cause_byte, numbers_bytes, reading_bytes, import_room, import_written, import_offset, export_room, export_written};

use host_rules::{Reading, Refusal};

// What C is given of a call: 0 where it is done, else its refusal's number.
fn number<T: Copy>(outcome: Result<T, Refusal>) -> u32
    ensures { result ≡ number_given outcome }
{
    match outcome {
        Ok(_) => 0,
        Err(refusal) => u32::from(refusal),
    }
}

// What C is given of a call that writes into a room: how many bytes it wrote, besides, and none where it is refused.
fn report(outcome: Result<usize, Refusal>, written: &mut usize) -> u32
    ensures value { result ≡ (reported outcome).number }
    ensures written_after { written.new ≡ (reported outcome).len }
{
    *written = outcome.unwrap_or(0);
    number(outcome)
}

fn set_up(net: &mut [u8], types: &[u8]) -> Result<(), Refusal>
    ensures value { number_given result ≡ first (setup_table net.old types.now) }
    ensures net_after { net.new ≡ setup_record net.old types.now }
{
    api_refusals::setup_refusal(net, types)?;
    net_record::set_up(net, types);
    Ok(())
}

// A network of the given types at power-up: 0, or 16, 11, 12.
#[unsafe(no_mangle)]
pub extern "C" fn nmc_setup(net: &mut [u8], types: &[u8]) -> u32
    ensures value { result ≡ first (setup_table net.old types.now) }
    ensures net_after { net.new ≡ setup_record net.old types.now }
{
    number(set_up(net, types))
}

// The byte call's number for what the byte brought.
fn ended_number(ended: Option<bool>) -> u32
    ensures { result ≡ number_of ended }
{
    match ended {
        None => 0,
        Some(false) => 1,
        Some(true) => 2,
    }
}

// A byte of the line with its mark: 0 taken, 1 an undamaged frame ended, 2 a damaged one, or 16, 14, 15.
#[unsafe(no_mangle)]
pub extern "C" fn nmc_byte(
    net: &mut [u8],
    mark: u32,
    byte: u8,
    room: &mut [u8],
    written: &mut usize,
) -> u32
    ensures value { result ≡ byte_number net.old mark byte room.old }
    ensures net_after { net.new ≡ byte_record net.old mark byte room.old }
    ensures room_after { room.new ≡ byte_room net.old mark byte room.old }
    ensures written_after { written.new ≡ byte_written net.old mark byte room.old }
{
    if let Err(refusal) = api_refusals::byte_refusal(net, mark, room) {
        *written = 0;
        return u32::from(refusal);
    }
    let called = net_traffic::byte(net, byte, mark == 1, room);
    *written = called.written;
    ended_number(called.ended)
}

fn take_bytes(net: &mut [u8], bytes: &[u8], marks: &[u8], room: &mut [u8]) -> Result<usize, Refusal>
    ensures value { (reported result).number ≡ first (buffer_table net.old bytes.now marks.now room.old) }
    ensures net_after { net.new ≡ buffer_record net.old bytes.now marks.now room.old }
    ensures room_after { room.new ≡ buffer_room net.old bytes.now marks.now room.old }
    ensures written { (reported result).len ≡ buffer_written net.old bytes.now marks.now room.old }
{
    api_refusals::buffer_refusal(net, bytes, marks, room)?;
    Ok(net_traffic::bytes(net, bytes, marks, room))
}

// A buffer of bytes of the line, each with its mark, as the byte calls for them one by one: 0, or 16, 20, 14, 15.
#[unsafe(no_mangle)]
pub extern "C" fn nmc_bytes(
    net: &mut [u8],
    bytes: &[u8],
    marks: &[u8],
    room: &mut [u8],
    written: &mut usize,
) -> u32
    ensures value { result ≡ first (buffer_table net.old bytes.now marks.now room.old) }
    ensures net_after { net.new ≡ buffer_record net.old bytes.now marks.now room.old }
    ensures room_after { room.new ≡ buffer_room net.old bytes.now marks.now room.old }
    ensures written_after { written.new ≡ buffer_written net.old bytes.now marks.now room.old }
{
    report(take_bytes(net, bytes, marks, room), written)
}

fn tick(net: &mut [u8], samples: &[u8]) -> Result<(), Refusal>
    ensures value { number_given result ≡ first (tick_table net.old samples.now) }
    ensures net_after { net.new ≡ tick_record net.old samples.now }
{
    api_refusals::tick_refusal(net, samples)?;
    net_traffic::tick(net, samples);
    Ok(())
}

// A tick, with a sample for every module in chain order: 0, or 16, 20, 13, 14.
#[unsafe(no_mangle)]
pub extern "C" fn nmc_tick(net: &mut [u8], samples: &[u8]) -> u32
    ensures value { result ≡ first (tick_table net.old samples.now) }
    ensures net_after { net.new ≡ tick_record net.old samples.now }
{
    number(tick(net, samples))
}

fn put_outputs(net: &[u8], place: u32, outputs: &mut [u8; 8]) -> Result<(), Refusal>
    ensures value { number_given result ≡ first (place_table net.now place) }
    ensures outputs_after { outputs.new ≡ outputs_bytes net.now place outputs.old }
{
    api_refusals::place_refusal(net, place)?;
    *outputs = net_record::outputs(net, place as usize);
    Ok(())
}

// What the board drives for the module at a place: 0, or 16, 13.
#[unsafe(no_mangle)]
pub extern "C" fn nmc_outputs(net: &[u8], place: u32, outputs: &mut [u8; 8]) -> u32
    ensures value { result ≡ first (place_table net.now place) }
    ensures outputs_after { outputs.new ≡ outputs_bytes net.now place outputs.old }
{
    number(put_outputs(net, place, outputs))
}

fn put_cause(net: &[u8], place: u32, cause: &mut u8) -> Result<(), Refusal>
    ensures value { number_given result ≡ first (place_table net.now place) }
    ensures cause_after { cause.new ≡ cause_byte net.now place cause.old }
{
    api_refusals::place_refusal(net, place)?;
    *cause = net_record::cause(net, place as usize);
    Ok(())
}

// The last cause of the module at a place: 0, or 16, 13.
#[unsafe(no_mangle)]
pub extern "C" fn nmc_cause(net: &[u8], place: u32, cause: &mut u8) -> u32
    ensures value { result ≡ first (place_table net.now place) }
    ensures cause_after { cause.new ≡ cause_byte net.now place cause.old }
{
    number(put_cause(net, place, cause))
}

// Writes a frame at the room's start: 0, or 17, 15.
#[unsafe(no_mangle)]
pub extern "C" fn nmc_write_frame(
    address: u32,
    code: u32,
    ds: &[u8],
    room: &mut [u8],
    written: &mut usize,
) -> u32
    ensures value { result ≡ (written_of address code ds.now room.old).number }
    ensures room_after { room.new ≡ room_after address code ds.now room.old }
    ensures written_after { written.new ≡ (written_of address code ds.now room.old).len }
{
    report(host_frame::write_frame(address, code, ds, room), written)
}

// Puts eight numbers of four bytes into a reading, behind its status byte.
fn put_numbers(s: &mut [u8], ns: [u32; 8])
    requires { length s.old ≡ 33 }
    ensures { s.new ≡ pasted 1 (numbers_bytes 8 0 ns) s.old }
{
    for (i, n) in ns.iter().enumerate() {
        base_layout::put_number(s, 1 + 4 * i, 4, *n);
    }
}

fn reading_bytes(r: Reading) -> [u8; 33]
    ensures { result ≡ reading_bytes r }
{
    let mut s = [0u8; 33];
    s[0] = r.status;
    put_numbers(&mut s, r.numbers);
    s
}

// Takes a reply apart: 0, or 12, 18, 19 with a reading of zeros.
#[unsafe(no_mangle)]
pub extern "C" fn nmc_read_status(kind: u32, items: u8, reply: &[u8], reading: &mut [u8; 33]) -> u32
    ensures value { result ≡ (status_of kind items reply.now).number }
    ensures reading_after { reading.new ≡ reading_bytes (status_of kind items reply.now).reading }
{
    let read = host_status::take_status(kind, items, reply);
    *reading = match read {
        Ok(r) => reading_bytes(r),
        Err(_) => [0u8; 33],
    };
    number(read)
}

// The text is read twice, first with a room for none, since a refused call writes nothing.
fn import_text(text: &[u8], room: &mut [u8], offset: &mut usize) -> Result<usize, Refusal>
    ensures value { (reported result).number ≡ first (import_table text.now room.old) }
    ensures room_after { room.new ≡ import_room text.now room.old }
    ensures written { (reported result).len ≡ import_written text.now room.old }
    ensures offset_after { offset.new ≡ import_offset text.now }
{
    *offset = 0;
    let mut none = [0u8; 1];
    let read = text_import::put_records(text_import::begin(), text, &mut none);
    if !text_import::is_whole(read, text.len()) {
        *offset = read.count;
        return Err(Refusal::BadText);
    }
    let size = 3 * read.bytes;
    if room.len() < size {
        return Err(Refusal::ShortRoom);
    }
    text_import::put_records(text_import::begin(), text, room);
    Ok(size)
}

// Turns the line monitor's text into records of a replay file: 0, or 21, 15. With 21 the offset is that of the first character that no text has there, or
// the text's length where it breaks off; else it is 0.
#[unsafe(no_mangle)]
pub extern "C" fn nmc_import_text(
    text: &[u8],
    room: &mut [u8],
    written: &mut usize,
    offset: &mut usize,
) -> u32
    ensures value { result ≡ first (import_table text.now room.old) }
    ensures room_after { room.new ≡ import_room text.now room.old }
    ensures written_after { written.new ≡ import_written text.now room.old }
    ensures offset_after { offset.new ≡ import_offset text.now }
{
    report(import_text(text, room, offset), written)
}

fn export_text(records: &[u8], room: &mut [u8]) -> Result<usize, Refusal>
    ensures value { (reported result).number ≡ first (export_table records.now room.old) }
    ensures room_after { room.new ≡ export_room records.now room.old }
    ensures written { (reported result).len ≡ export_written records.now room.old }
{
    let Some(marks) = text_export::measure(records) else {
        return Err(Refusal::BadRecords);
    };
    if text_export::is_short(room.len(), records.len(), marks) {
        return Err(Refusal::ShortRoom);
    }
    text_export::put_text(records, room);
    Ok(records.len() + marks)
}

// Shows records of line bytes as the line monitor would: 0, or 22, 15.
#[unsafe(no_mangle)]
pub extern "C" fn nmc_export_text(records: &[u8], room: &mut [u8], written: &mut usize) -> u32
    ensures value { result ≡ first (export_table records.now room.old) }
    ensures room_after { room.new ≡ export_room records.now room.old }
    ensures written_after { written.new ≡ export_written records.now room.old }
{
    report(export_text(records, room), written)
}
