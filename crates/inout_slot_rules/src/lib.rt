// How an I/O module stands in a slot of the record: where its parts and their fields are. Definitions and promises; no function.

#![tactic(auto)]

// The latched sample, in the order of a tick's list: input bits, three A/D bytes, counter.
pub const SAMPLE_LEN: usize = 9;

pub const LATCHED_AT: usize = module_rules::OWN_AT;

// The pins.
pub const PINS_AT: usize = LATCHED_AT + SAMPLE_LEN;

pub const DIRECTION_AT: usize = PINS_AT;

pub const REGISTER_AT: usize = DIRECTION_AT + 2;

pub const PWM1_AT: usize = REGISTER_AT + 2;

pub const PWM2_AT: usize = PWM1_AT + 1;

// What Synch Output will put out: its PWMs are the stored ones.
pub const SYNCH_AT: usize = PWM2_AT + 1;

pub const BITS_AT: usize = SYNCH_AT;

pub const STORED1_AT: usize = BITS_AT + 2;

pub const STORED2_AT: usize = STORED1_AT + 1;

pub const TIMER_AT: usize = STORED2_AT + 1;

// What Synch Input captured.
pub const CAPTURED_AT: usize = TIMER_AT + 1;

pub const INPUTS_AT: usize = CAPTURED_AT;

pub const COUNTER_AT: usize = INPUTS_AT + 2;

// How many bytes of a slot an I/O module has.
pub const IO_LEN: usize = COUNTER_AT + 4;

// The bytes of pins and stored outputs together, and of timer and capture together.
pub const OUTPUTS_LEN: usize = TIMER_AT - PINS_AT;

pub const TAIL_LEN: usize = IO_LEN - TIMER_AT;
