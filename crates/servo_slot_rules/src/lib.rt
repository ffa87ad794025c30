// How a servo stands in a slot of the record: where its parts and their fields are. Definitions and promises; no function.

#![tactic(auto)]

// The latched sample, in the order of a tick's list: power, A/D byte, raw count, limit inputs.
pub const SAMPLE_LEN: usize = 7;

pub const LATCHED_AT: usize = module_rules::OWN_AT;

pub const POWER_AT: usize = LATCHED_AT;

pub const AD_AT: usize = POWER_AT + 1;

pub const RAW_AT: usize = AD_AT + 1;

pub const INPUTS_AT: usize = RAW_AT + 4;

// The counts.
pub const COUNTS_AT: usize = LATCHED_AT + SAMPLE_LEN;

pub const OFFSET_AT: usize = COUNTS_AT;

pub const LAST_AT: usize = OFFSET_AT + 4;

// What Set Gain brings.
pub const TUNING_AT: usize = LAST_AT + 4;

pub const KP_AT: usize = TUNING_AT;

pub const KD_AT: usize = KP_AT + 2;

pub const KI_AT: usize = KD_AT + 2;

pub const IL_AT: usize = KI_AT + 2;

pub const OL_AT: usize = IL_AT + 2;

pub const EL_AT: usize = OL_AT + 1;

pub const CL_AT: usize = EL_AT + 2;

pub const SM_AT: usize = CL_AT + 1;

// The loaded velocity and acceleration.
pub const RATES_AT: usize = SM_AT + 1;

pub const VELOCITY_AT: usize = RATES_AT;

pub const ACCELERATION_AT: usize = VELOCITY_AT + 4;

pub const PACED_AT: usize = ACCELERATION_AT + 4;

pub const RAMPED_AT: usize = PACED_AT + 1;

// The waiting load.
pub const LOAD_AT: usize = RAMPED_AT + 1;

pub const WAITS_AT: usize = LOAD_AT;

pub const WAY_AT: usize = WAITS_AT + 1;

pub const PLACED_AT: usize = WAY_AT + 1;

pub const PLACE_AT: usize = PLACED_AT + 1;

pub const PULSED_AT: usize = PLACE_AT + 4;

pub const PULSE_AT: usize = PULSED_AT + 1;

pub const REVERSE_AT: usize = PULSE_AT + 1;

// The profile that runs: its acceleration is the force.
pub const PROFILE_AT: usize = REVERSE_AT + 1;

pub const SETPOINT_AT: usize = PROFILE_AT;

pub const SPEED_AT: usize = SETPOINT_AT + 6;

pub const GOAL_AT: usize = SPEED_AT + 4;

pub const AIM_AT: usize = GOAL_AT + 4;

pub const FORCE_AT: usize = AIM_AT + 4;

pub const TOP_AT: usize = FORCE_AT + 4;

// The filter's memory.
pub const MEMORY_AT: usize = TOP_AT + 4;

pub const INTEGRAL_AT: usize = MEMORY_AT;

pub const PREVIOUS_AT: usize = INTEGRAL_AT + 4;

// What drives the motor: its PWM value is the duty.
pub const DRIVE_AT: usize = PREVIOUS_AT + 4;

pub const MODE_AT: usize = DRIVE_AT;

pub const DUTY_AT: usize = MODE_AT + 1;

pub const OUTPUT_AT: usize = DUTY_AT + 4;

pub const ERROR_AT: usize = OUTPUT_AT + 4;

pub const AMPLIFIER_AT: usize = ERROR_AT + 1;

pub const CUT_AT: usize = AMPLIFIER_AT + 1;

// Homing: home, and the byte of Set Homing or 0.
pub const HOME_AT: usize = CUT_AT + 1;

pub const HOMING_AT: usize = HOME_AT + 4;

// How many bytes of a slot a servo has.
pub const SERVO_LEN: usize = HOMING_AT + 1;

// The bytes of each part.
pub const COUNTS_LEN: usize = TUNING_AT - COUNTS_AT;

pub const TUNING_LEN: usize = RATES_AT - TUNING_AT;

pub const RATES_LEN: usize = LOAD_AT - RATES_AT;

pub const LOAD_LEN: usize = PROFILE_AT - LOAD_AT;

pub const MEMORY_LEN: usize = DRIVE_AT - MEMORY_AT;

pub const DRIVE_LEN: usize = HOME_AT - DRIVE_AT;

pub const HOMING_LEN: usize = SERVO_LEN - HOME_AT;
