// The profile of a servo: where its setpoint is, how fast it moves, and what a tick makes of both.
// Distances are in 65,536ths of a count, speeds and accelerations in 65,536ths of a count per tick.

#![tactic(auto)]

ghost use Rattle.std.specs.Prelude.{◌≡◌, ◌+◌, ◌-◌, ◌≤◌, ◌<◌, ◌^◌, min, leb, nat_abs};
ghost use Rattle.servo_motion.specs.Trapezoid.{stop, greatest, next_speed};
ghost use Rattle.servo_motion.specs.Quick.{braking_ticks};
ghost use Rattle.servo_motion.specs.Setpoint.{whole, distance, moved};
ghost use Rattle.servo_motion.specs.Velocity.{toward};
ghost use Rattle.servo_motion.specs.Profile.{fastest, Ranged, in_range, heads, running, trapezoid, stepped, by_trapezoid, by_velocity};

// The greatest velocity and acceleration that a load can carry: 1280 counts per tick.
pub const FASTEST: u32 = 83_886_080;

// The goal is a position in counts, the aim velocity mode's goal speed, top the trapezoid's greatest speed. That its numbers are in range is a clause
// of the methods and no invariant: a record's bytes are read into a profile before `is_in_range` tests it.
#[derive(Clone, Copy)]
pub struct Profile {
    pub setpoint: u64,
    pub speed: i64,
    pub goal: u32,
    pub aim: i64,
    pub acceleration: u32,
    pub top: u32,
}

// How many ticks stopping from the speed w takes, the first of them at w: w / a, rounded up.
fn braking_ticks(w: u32, a: u32) -> u64
    requires { 0 < a }
    ensures { result ≡ braking_ticks w a }
{
    w.div_ceil(a) as u64
}

// The stopping sum of w by its closed form: so many ticks at w, less what the later ones have lost.
fn stopping_sum(w: u32, a: u32) -> u64
    requires { 0 < a }
    ensures { result ≡ stop w a }
{
    let k = braking_ticks(w, a);
    k * w as u64 - a as u64 * ((k * k - k) / 2)
}

// Whether the stopping sum of w is at most d.
fn can_stop(w: u32, a: u32, d: u64) -> bool
    requires { (0 < a) × (d < 2 ^ 63) }
    ensures { result ≡ leb (stop w a) d }
{
    stopping_sum(w, a) <= d
}

// The greatest speed that can still stop, by halving the range: a speed that cannot rules out all above it.
fn by_halves(a: u32, d: u64, lo: u32, hi: u32) -> u32
    requires { (0 < a) × (lo ≤ hi) }
    ensures { result ≡ greatest (λ w. leb (stop w a) d) lo hi }
{
    let mut low = lo;
    let mut high = hi;
    while low < high {
        let middle = high - (high - low) / 2;
        if stopping_sum(middle, a) <= d {
            low = middle;
        } else {
            high = middle - 1;
        }
    }
    low
}

// The trapezoid's new speed. Until it has to brake that is the highest, which is tried first.
fn next_speed(a: u32, top: u32, d: u64, v: u32) -> u32
    requires { (0 < a) × (v + a < 2 ^ 31) × (top < 2 ^ 31) × (d < 2 ^ 63) }
    ensures { result ≡ next_speed a top d v }
{
    let lo = v.saturating_sub(a);
    let hi = (v + a).min(top);
    if hi <= lo {
        return lo;
    }
    if can_stop(hi, a, d) {
        return hi;
    }
    by_halves(a, d, lo, hi)
}

// The same in either direction: for a distance below 0 the whole is mirrored.
fn trapezoid(a: u32, top: u32, d: i64, v: i64) -> i64
    requires { (0 < a) × (nat_abs v + a < 2 ^ 31) × (top < 2 ^ 31) × (nat_abs d < 2 ^ 63) }
    ensures { result ≡ trapezoid a top d v }
{
    let w = next_speed(a, top, d.unsigned_abs(), v.unsigned_abs() as u32) as i64;
    if 0 <= d { w } else { -w }
}

// Velocity mode's new speed.
fn toward(a: u32, goal: i64, v: i64) -> i64
    requires { nat_abs v + a < 2 ^ 63 }
    ensures { result ≡ toward a goal v }
{
    let most = a as i64;
    goal.clamp(v - most, v + most)
}

// The setpoint's whole part, in counts.
pub fn whole(setpoint: u64) -> u32
    requires { setpoint < 2 ^ 48 }
    ensures { result ≡ whole setpoint }
{
    (setpoint / 65536) as u32
}

// The distance from the setpoint to the goal.
pub fn distance(goal: u32, setpoint: u64) -> i64
    requires { setpoint < 2 ^ 48 }
    ensures { result ≡ distance goal setpoint }
{
    let f = (setpoint % 65536) as i64;
    base_integers::difference(goal, whole(setpoint)) * 65536 - f
}

// The setpoint after a tick at the speed w.
fn moved(setpoint: u64, w: i64) -> u64
    requires { (setpoint < 2 ^ 48) × (nat_abs w ≤ 2 ^ 48) }
    ensures { result ≡ moved setpoint w }
{
    setpoint.wrapping_add_signed(w) % 0x1_0000_0000_0000
}

// Whether the speed v goes the way of the distance d.
fn is_heading(d: i64, v: i64) -> bool
    ensures { result ≡ heads d v }
{
    ((d <= 0) | (0 <= v)) & ((0 <= d) | (v <= 0))
}

impl Profile {
    // Whether its numbers are in range.
    pub fn is_in_range(self) -> bool
        ensures { result ≡ in_range self }
    {
        base_integers::is_within(FASTEST, self.speed)
            & base_integers::is_within(FASTEST, self.aim)
            & (self.acceleration <= FASTEST)
            & (self.top <= FASTEST)
    }

    // Whether a trapezoid runs toward a goal that is not half the range away and can still stop.
    pub fn is_running(self) -> bool
        requires { Ranged self }
        ensures { result ≡ running self }
    {
        let a = self.acceleration;
        if a == 0 {
            return false;
        }
        let v = self.speed.unsigned_abs() as u32;
        let d = distance(self.goal, self.setpoint);
        let stops = can_stop(v.saturating_sub(a), a, d.unsigned_abs());
        let away = self.goal.wrapping_sub(whole(self.setpoint));
        (v <= self.top) & is_heading(d, self.speed) & stops & !(away == 0x8000_0000)
    }

    // A tick at the speed w.
    fn stepped(self, w: i64) -> Profile
        requires ranged { Ranged self }
        requires w_bound { nat_abs w ≤ fastest }
        ensures { result ≡ stepped self w }
    {
        Profile {
            setpoint: moved(self.setpoint, w),
            speed: w,
            ..self
        }
    }

    // A tick of a trapezoid.
    pub fn by_trapezoid(self) -> Profile
        requires ranged { Ranged self }
        requires acceleration_nonzero { 0 < self.acceleration }
        ensures { result ≡ by_trapezoid self }
    {
        let d = distance(self.goal, self.setpoint);
        let w = trapezoid(self.acceleration, self.top, d, self.speed);
        self.stepped(w)
    }

    // A tick of velocity mode.
    pub fn by_velocity(self) -> Profile
        requires { Ranged self }
        ensures { result ≡ by_velocity self }
    {
        let w = toward(self.acceleration, self.aim, self.speed);
        self.stepped(w)
    }
}
