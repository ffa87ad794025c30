// The table of module types. Types, definitions and promises; no function.

#![tactic(auto)]

// A sample, as it was measured for a module of any type.
#[derive(Clone, Copy)]
pub enum Measured {
    Servo(servo_rules::Sample),
    Io(inout_rules::Sample),
    Stepper(stepper_rules::Sample),
}
