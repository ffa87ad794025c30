// How a step-motor module stands in a slot of the record: where its parts and their fields are. Definitions and promises; no function.

#![tactic(auto)]

// What frames store for later.
pub const SETTINGS_AT: usize = module_rules::OWN_AT;

pub const AMPLIFIER_AT: usize = SETTINGS_AT;

pub const MINIMUM_AT: usize = AMPLIFIER_AT + 1;

pub const PLACE_AT: usize = MINIMUM_AT + 1;

pub const TIMER_AT: usize = PLACE_AT + 4;

// The waiting load.
pub const LOAD_AT: usize = TIMER_AT + 4;

pub const WAITS_AT: usize = LOAD_AT;

pub const LOAD_BACKWARD_AT: usize = WAITS_AT + 1;

pub const LOAD_SPEED_AT: usize = LOAD_BACKWARD_AT + 1;

pub const LOAD_TIME_AT: usize = LOAD_SPEED_AT + 1;

// What runs, and the position behind it.
pub const MOTION_AT: usize = LOAD_TIME_AT + 1;

pub const SPEED_AT: usize = MOTION_AT;

pub const BACKWARD_AT: usize = SPEED_AT + 1;

pub const GOAL_AT: usize = BACKWARD_AT + 1;

pub const TIME_AT: usize = GOAL_AT + 1;

pub const TICKS_AT: usize = TIME_AT + 1;

pub const STOPPING_AT: usize = TICKS_AT + 1;

pub const POSITION_AT: usize = STOPPING_AT + 1;

// How many bytes of a slot a step-motor module has.
pub const STEPPER_LEN: usize = POSITION_AT + 4;

// The bytes of settings and load together, and of motion and position together.
pub const STORED_LEN: usize = MOTION_AT - SETTINGS_AT;

pub const RUN_LEN: usize = STEPPER_LEN - MOTION_AT;
