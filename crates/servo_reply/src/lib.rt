// What a servo tells the host and the board.

#![tactic(auto)]

ghost use Rattle.std.specs.Prelude.{◌≡◌, ◌+◌, ◌<◌, ◌≤◌, nat_abs, length};
ghost use Rattle.base_layout.specs.Bytes.{pasted};
ghost use Rattle.module_rules.specs.Touch.{frame_of};
ghost use Rattle.module_rules.specs.Report.{reply_of};
ghost use Rattle.module_rules.specs.Owes.{reply_size};
ghost use Rattle.servo_motion.specs.Profile.{Ranged};
ghost use Rattle.servo_rules.specs.Answers.{done, bit_at, status_of, numbers_of, sizes, outputs_from};

use module_rules::{Frame, Station};
use servo_filter::Memory;
use servo_rules::{Counts, Drive, Homing, Mode, Run, Sample};

// Move done.
fn is_done(r: Run) -> bool
    requires { Ranged r.profile }
    ensures { result ≡ done r }
{
    let p = r.profile;
    match r.drive.mode {
        Mode::Off | Mode::Pwm | Mode::Hold => true,
        Mode::Velocity => p.speed == p.aim,
        Mode::Trapezoid => (servo_motion::distance(p.goal, p.setpoint) == 0)
            & servo_run::is_at_rest(r),
    }
}

fn status(cause: u8, x: Sample, r: Run, h: Homing) -> u8
    requires { Ranged r.profile }
    ensures { result ≡ status_of cause x r h }
{
    u8::from(is_done(r))
        + module_station::cause_bit(cause)
        + 4 * u8::from(r.drive.cut)
        + 8 * u8::from(x.power == 1)
        + 16 * u8::from(r.drive.error)
        + servo_homing::status_bits(x.inputs, h)
}

fn numbers(x: Sample, k: Counts, y: Memory, h: Homing) -> [u32; 8]
    ensures { result ≡ numbers_of x k y h }
{
    let here = servo_run::position(x, k);
    let change = here.wrapping_sub(k.last) % 65536;
    let error = base_integers::word(y.previous) % 65536;
    [
        here,
        x.ad as u32,
        change,
        0,
        h.home,
        servo_rules::TYPE_AND_VERSION,
        error,
        0,
    ]
}

// Puts the reply to a frame into the room from place from on; how many bytes it has.
pub fn put_reply(
    s: Station,
    x: Sample,
    k: Counts,
    r: Run,
    h: Homing,
    f: Frame<'_>,
    room: &mut [u8],
    from: usize,
) -> usize
    requires ranged { Ranged r.profile }
    requires reply_size_in_bounds { from + reply_size ≤ length room.old }
    ensures value { result ≡ length (reply_of (frame_of f.entry) s (status_of s.cause x r h) sizes (numbers_of x k r.memory h)) }
    ensures room_after { room.new ≡ pasted from (reply_of (frame_of f.entry) s (status_of s.cause x r h) sizes (numbers_of x k r.memory h)) room.old }
{
    module_reply::put_reply(
        room,
        from,
        f,
        s,
        status(s.cause, x, r, h),
        servo_rules::SIZES,
        numbers(x, k, r.memory, h),
    )
}

// What the board drives.
pub fn outputs(power: u8, d: Drive) -> [u8; 8]
    requires { nat_abs d.output < 256 }
    ensures { result ≡ outputs_from power d }
{
    let size = d.output.unsigned_abs() as u8;
    let negative = u8::from(d.output < 0);
    let enable = u8::from(d.amplifier & (power == 1));
    [size, negative, enable, 0, 0, 0, 0, 0]
}
