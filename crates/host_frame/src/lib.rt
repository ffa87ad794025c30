// The host's frame writer.

#![tactic(auto)]

ghost use Rattle.std.specs.Prelude.{◌≡◌, ◌+◌, ◌<◌, ◌≤◌, length};
ghost use Rattle.base_layout.specs.Bytes.{pasted};
ghost use Rattle.line_receiver.specs.Frames.{written};
ghost use Rattle.host_rules.specs.Writing.{reported, written_of, room_after};

use host_rules::Refusal;

// Puts a frame at the room's start.
fn put_frame(address: u8, code: u8, ds: &[u8], room: &mut [u8])
    requires { (code < 16) × (length ds.now ≤ 15) × (length ds.now + 4 ≤ length room.old) }
    ensures { room.new ≡ pasted 0 (written address code ds.now) room.old }
{
    let n = ds.len();
    let command = code + 16 * (n as u8);
    let start = address.wrapping_add(command);
    let sum = line_receiver::sum_on(start, ds);
    room[0] = 0xAA;
    room[1] = address;
    room[2] = command;
    base_layout::put_all(room, 3, ds);
    room[n + 3] = sum;
}

// Writes a frame and says how many bytes it has, or why it can't be written.
pub fn write_frame(address: u32, code: u32, ds: &[u8], room: &mut [u8]) -> Result<usize, Refusal>
    ensures value { reported result ≡ written_of address code ds.now room.old }
    ensures room_after { room.new ≡ room_after address code ds.now room.old }
{
    let n = ds.len();
    if (255 < address) | (15 < code) | (15 < n) {
        return Err(Refusal::BadFrame);
    }
    if room.len() < n + 4 {
        return Err(Refusal::ShortRoom);
    }
    put_frame(address as u8, code as u8, ds, room);
    Ok(n + 4)
}
