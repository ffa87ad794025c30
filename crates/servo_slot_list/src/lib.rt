// Whether a slot holds a valid servo: the tests of the list.

#![tactic(auto, using(std::proofs::lemmas::Int::ints), unfolding(base_integers::specs::Whole::same, servo_slot_rules::specs::List::emptied))]

ghost use Rattle.std.specs.Prelude.{◌≡◌, ◌≤◌, length};
ghost use Rattle.base_layout.specs.Every.{every, every_from};
ghost use Rattle.servo_motion.specs.Profile.{Ranged};
ghost use Rattle.servo_slot_rules.specs.List.{rates_fit, memory_fits, drive_fits, homing_fits, emptied, silent, unpulsed, still, live, mode_fits, sound_at};
ghost use Rattle.module_rules.specs.Slots.{sample_size, measured_at};
ghost use Rattle.servo_slot_rules.specs.Slot.{sample, servo_size, ok_of};
ghost use Rattle.servo_slot_rules.specs.Parts.{front_grouped, load_grouped, run_tests};

use servo_filter::Memory;
use servo_motion::Profile;
use servo_rules::{Drive, Mode, Rates, Run};

// The upper bytes of gains and limits.
const KP_TOP_AT: usize = servo_slot_rules::KP_AT + 1;

const KD_TOP_AT: usize = servo_slot_rules::KD_AT + 1;

const KI_TOP_AT: usize = servo_slot_rules::KI_AT + 1;

const IL_TOP_AT: usize = servo_slot_rules::IL_AT + 1;

const EL_TOP_AT: usize = servo_slot_rules::EL_AT + 1;

// The limit inputs in a tick's list.
const MEASURED_INPUTS_AT: usize = module_rules::MEASURED_AT + servo_slot_rules::INPUTS_AT
    - servo_slot_rules::LATCHED_AT;

#[tactic(auto, unfolding(servo_slot_rules::specs::List::rates_fit))]
fn do_rates_fit(r: Rates) -> bool
    ensures { result ≡ rates_fit r }
{
    (r.velocity <= servo_motion::FASTEST)
        & (r.acceleration <= servo_motion::FASTEST)
        & (!r.ramped | (1 <= r.acceleration))
}

// `is_within` names a limit once, where a range would name it twice.
#[tactic(auto, unfolding(servo_slot_rules::specs::List::memory_fits))]
fn does_memory_fit(y: Memory) -> bool
    ensures { result ≡ memory_fits y }
{
    base_integers::is_within(32767, y.integral) & base_integers::is_within(16383, y.previous)
}

#[tactic(auto, unfolding(servo_slot_rules::specs::List::drive_fits))]
fn does_drive_fit(d: Drive) -> bool
    ensures { result ≡ drive_fits d }
{
    base_integers::is_within(255, d.pulse) & base_integers::is_within(255, d.output)
}

// No byte of Set Homing, or a good one.
#[tactic(auto, unfolding(servo_slot_rules::specs::List::homing_fits))]
fn does_homing_fit(byte: u8) -> bool
    ensures { result ≡ homing_fits byte }
{
    byte == 0 || servo_homing::is_good(byte)
}

fn is_emptied(y: Memory) -> bool
    ensures { result ≡ emptied y }
{
    (y.integral == 0) & (y.previous == 0)
}

fn is_silent(d: Drive) -> bool
    ensures { result ≡ silent d }
{
    d.output == 0
}

fn is_unpulsed(d: Drive) -> bool
    ensures { result ≡ unpulsed d }
{
    d.pulse == 0
}

fn is_still(p: Profile) -> bool
    ensures { result ≡ still p }
{
    p.speed == 0
}

fn is_live(power: u8, d: Drive) -> bool
    ensures { result ≡ live power d }
{
    !d.error & (power != 0)
}

// What the mode asks.
fn does_mode_fit(mode: Mode, power: u8, r: Run) -> bool
    requires { Ranged r.profile }
    ensures { result ≡ mode_fits mode power r }
{
    let p = r.profile;
    let y = r.memory;
    let d = r.drive;
    match mode {
        Mode::Off => is_still(p) & is_silent(d) & is_emptied(y) & is_unpulsed(d) & !d.cut,
        Mode::Pwm => is_still(p) & is_emptied(y) & is_live(power, d) & !d.cut,
        Mode::Hold => is_still(p) & is_unpulsed(d) & is_live(power, d),
        Mode::Velocity => is_unpulsed(d) & is_live(power, d),
        Mode::Trapezoid => is_unpulsed(d) & is_live(power, d) & p.is_running(),
    }
}

#[tactic(auto, unfolding(servo_slot_rules::specs::List::sound_at))]
fn is_sound(power: u8, r: Run) -> bool
    requires { Ranged r.profile }
    ensures { result ≡ sound_at power r }
{
    ((power == 1) | is_silent(r.drive)) & does_mode_fit(r.drive.mode, power, r)
}

// The tests of the bytes before the rates: type, cause, power, inputs, gains, limits and the station's flags. A slot is a slice, as in servo_slot_read.
fn is_front_ok(s: &[u8]) -> bool
    requires { servo_size ≤ length s.now }
    ensures { result ≡ every (front_grouped s.now) }
{
    (s[0] == servo_rules::TYPE)
        & (s[module_rules::CAUSE_AT] <= module_rules::CAUSE_MOST)
        & (s[servo_slot_rules::POWER_AT] <= 2)
        & (s[servo_slot_rules::INPUTS_AT] <= 3)
        & (s[KP_TOP_AT] <= 127)
        & (s[KD_TOP_AT] <= 127)
        & (s[KI_TOP_AT] <= 127)
        & (s[IL_TOP_AT] <= 127)
        & (s[EL_TOP_AT] <= 63)
        & (s[module_rules::LOW_AT] <= 1)
        & (s[module_rules::LEADER_AT] <= 1)
}

// What was tested so far, and the tests of rates and load. The flags stand in a row with those before, so that the compiled code tests them as one.
fn is_load_ok(ok: bool, s: &[u8], r: Rates) -> bool
    requires { servo_size ≤ length s.now }
    ensures { result ≡ every_from ok (load_grouped r s.now) }
{
    ok & (s[servo_slot_rules::PACED_AT] <= 1)
        & (s[servo_slot_rules::RAMPED_AT] <= 1)
        & (s[servo_slot_rules::WAITS_AT] <= 1)
        & (s[servo_slot_rules::PLACED_AT] <= 1)
        & (s[servo_slot_rules::PULSED_AT] <= 1)
        & (s[servo_slot_rules::REVERSE_AT] <= 1)
        & (s[servo_slot_rules::WAY_AT] <= 2)
        & do_rates_fit(r)
}

// What was tested so far, and the tests of what runs.
fn is_run_ok(ok: bool, s: &[u8], r: Run) -> bool
    requires { servo_size ≤ length s.now }
    ensures { result ≡ every_from ok (run_tests r s.now) }
{
    ok & r.profile.is_in_range()
        & does_memory_fit(r.memory)
        & (s[servo_slot_rules::MODE_AT] <= 4)
        & (s[servo_slot_rules::ERROR_AT] <= 1)
        & (s[servo_slot_rules::AMPLIFIER_AT] <= 1)
        & (s[servo_slot_rules::CUT_AT] <= 1)
        & does_drive_fit(r.drive)
}

// Whether a slot holds a valid servo. Only what the tests ask for is read; homing's byte, which is mostly 0, is tested before all that is combined.
pub fn is_ok(s: &[u8]) -> bool
    requires { servo_size ≤ length s.now }
    ensures { result ≡ ok_of s.now }
{
    if !does_homing_fit(s[servo_slot_rules::HOMING_AT]) {
        return false;
    }
    let rates = servo_slot_read::rates_in(s);
    let run = servo_slot_read::run_in(s);
    let front = is_front_ok(s);
    let load = is_load_ok(front, s, rates);
    is_run_ok(load, s, run) && is_sound(s[servo_slot_rules::POWER_AT], run)
}

// Whether the sample in ten bytes of a tick's list has all its fields in range: power is 0 to 2, the inputs 0 to 3.
pub fn is_sample_ok(s: &[u8]) -> bool
    requires { length s.now ≡ sample_size }
    ensures { result ≡ every (sample.codec.tests measured_at s.now) }
{
    (s[module_rules::MEASURED_AT] <= 2) & (s[MEASURED_INPUTS_AT] <= 3)
}
