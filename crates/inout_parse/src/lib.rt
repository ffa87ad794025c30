// What a frame asks of an I/O module.

#![tactic(auto)]

ghost use Rattle.std.specs.Prelude.{◌≡◌, true, get_or};
ghost use Rattle.module_rules.specs.Touch.{frame_of};
ghost use Rattle.module_rules.specs.Asks.{asks_of, read};
ghost use Rattle.inout_rules.specs.Pins.{bits_of};
ghost use Rattle.inout_rules.specs.Asks.{own};
ghost use Rattle.inout_rules.specs.Answers.{request};

use inout_rules::Command;
use module_rules::{Fault, Frame, Request};
use module_station::Codes;

// The twelve bits in the first two data bytes.
fn bits_in(ds: &[u8]) -> u16
    ensures { result ≡ bits_of (get_or ds.now 0 0) (get_or ds.now 1 0) }
{
    u16::from_le_bytes([
        base_layout::byte_at(ds, 0),
        base_layout::byte_at(ds, 1) % 16,
    ])
}

// The type's own codes; there are items for every item byte.
struct InoutType;

impl Codes for InoutType {
    type Command = Command;

    ghost own = { own };

    ghost shows = { λ b. true };

    #[tactic(auto, unfolding(inout_rules::specs::Asks::own))]
    fn own_command(code: u8, ds: &[u8]) -> Result<Command, Fault> {
        let (count, command) = match code {
            0 => (2, Command::Direction(bits_in(ds))),
            4 => (
                2,
                Command::Pwm(base_layout::byte_at(ds, 0), base_layout::byte_at(ds, 1)),
            ),
            5 => (0, Command::SynchOutput),
            6 => (2, Command::Output(bits_in(ds))),
            7 => (
                4,
                Command::SynchStore(
                    bits_in(ds),
                    base_layout::byte_at(ds, 2),
                    base_layout::byte_at(ds, 3),
                ),
            ),
            8 => (1, Command::Timer(base_layout::byte_at(ds, 0))),
            12 => (0, Command::SynchInput),
            _ => return Err(Fault::Unknown),
        };
        module_station::counted(count, ds)?;
        Ok(command)
    }

    fn is_shown(_items: u8) -> bool {
        true
    }
}

// What a frame asks; alone says that it was for this module individually.
#[tactic(auto, unfolding(module_rules::specs::Rules::request))]
pub fn request_of(f: Frame<'_>, alone: bool) -> Result<Request<Command>, Fault>
    ensures { asks_of result ≡ request (frame_of f.entry) alone }
{
    module_station::request_of::<InoutType>(f, alone)
}
