// The kinds of records, and where a replay stands and how it stops: at a bad record, at a cut one, or for more bytes.

#![tactic(auto)]

ghost use Rattle.std.specs.Prelude.{◌≡◌, true, cond, ◌+◌, ◌^◌, ◌≤◌, ◌<◌, length, MatchResult};
ghost use Rattle.base_layout.specs.Bytes.{pasted};
ghost use Rattle.replay_print.specs.Text.{bad_line};
ghost use Rattle.replay_file.specs.declared.Course.TheVariants.{GoesOn};
ghost use Rattle.replay_file.specs.Records.{number_of, kinds, body_length, bad, running};
ghost use Rattle.replay_file.specs.Turns.{start, over, wants, judged, turned, turned_by, text_by};

// The kinds of records.
#[derive(Clone, Copy)]
pub enum Kind {
    Module,
    LineByte,
    ServoSample,
    IoSample,
    Tick,
    StepperSample,
}

// The number is no kind's.
#[derive(Clone, Copy)]
pub struct UnknownKind;

impl TryFrom<u8> for Kind {
    type Error = UnknownKind;

    ghost try_from_gives = { λ number outcome. MatchResult outcome (λ k. number_of k ≡ number) (λ _. kinds ≤ number) };

    fn try_from(number: u8) -> Result<Kind, UnknownKind> {
        match number {
            0 => Ok(Kind::Module),
            1 => Ok(Kind::LineByte),
            2 => Ok(Kind::ServoSample),
            3 => Ok(Kind::IoSample),
            4 => Ok(Kind::Tick),
            5 => Ok(Kind::StepperSample),
            _ => Err(UnknownKind),
        }
    }
}

impl Kind {
    // How many bytes follow the kind byte.
    #[tactic(auto, unfolding(crate::specs::Records::body_length))]
    pub fn body_len(self) -> usize
        ensures { result ≡ body_length (number_of self) }
    {
        match self {
            Kind::Module => 1,
            Kind::LineByte => 2,
            Kind::ServoSample => 8,
            Kind::IoSample => 10,
            Kind::Tick => 0,
            Kind::StepperSample => 2,
        }
    }
}

// How many bytes follow a kind byte: none, where there is no such kind.
pub fn body_len(kind: u8) -> usize
    ensures { result ≡ body_length kind }
{
    match Kind::try_from(kind) {
        Ok(kind) => kind.body_len(),
        Err(UnknownKind) => 0,
    }
}

// Where a replay is: the offset of the next record, how many modules there are, and whether another kind has come.
#[derive(Clone, Copy)]
pub struct Place {
    pub offset: u64,
    pub count: usize,
    pub running: bool,
}

// How a turn left the replay: it goes on, it is over, or the record at the head is not whole and wants more bytes.
#[derive(Clone, Copy)]
pub enum Course {
    GoesOn,
    Over,
    Wants,
}

// What a turn hands back: where the replay is then, how many bytes it took and how many it wrote, and its course.
#[derive(Clone, Copy)]
pub struct Turned {
    pub next: Place,
    pub took: usize,
    pub wrote: usize,
    pub course: Course,
}

impl Place {
    // Before the file's first byte.
    pub fn start() -> Self
        ensures { result ≡ start }
    {
        Place {
            offset: 0,
            count: 0,
            running: false,
        }
    }

    // No record is taken.
    fn stays(self, wrote: usize, course: Course) -> Turned
        ensures { result ≡ record { next = self; took = 0; wrote = wrote; course = course } }
    {
        Turned {
            next: self,
            took: 0,
            wrote,
            course,
        }
    }

    // A record of so many bytes is taken.
    fn passes(mut self, size: u8, wrote: usize) -> Turned
        requires { self.offset + size < 2 ^ 64 }
        ensures { result ≡ record { next = record { offset = self.offset + size; count = self.count; running = self.running }; took = size; wrote = wrote; course = GoesOn } }
    {
        self.offset += size as u64;
        Turned {
            next: self,
            took: size as usize,
            wrote,
            course: Course::GoesOn,
        }
    }

    // The record at the head is bad: the last line, and the end.
    pub fn bad(self, out: &mut [u8]) -> Turned
        requires { (self.offset < 2 ^ 64) × (25 ≤ length out.old) }
        ensures value { result ≡ turned 0 bad self }
        ensures out_after { out.new ≡ pasted 0 (bad_line self.offset) out.old }
    {
        base_layout::put_all(out, 0, b"bad ");
        let n = base_text::put_decimal(out, 4, self.offset);
        out[4 + n] = b'\n';
        self.stays(n + 5, Course::Over)
    }

    // No record at all: the end of the file, or more bytes are wanted.
    #[tactic(auto, unfolding(crate::specs::Turns::turned_by))]
    pub fn waits(self, last: bool) -> Turned
        ensures { result ≡ turned_by (cond last over wants) self }
    {
        let course = if last { Course::Over } else { Course::Wants };
        self.stays(0, course)
    }

    // A record that is not whole: bad if the file ends there.
    pub fn cut(self, last: bool, out: &mut [u8]) -> Turned
        requires { (self.offset < 2 ^ 64) × (25 ≤ length out.old) }
        ensures value { result ≡ turned_by (cond last (judged 0 bad) wants) self }
        ensures out_after { out.new ≡ pasted 0 (text_by (cond last (judged 0 bad) wants) self.offset) out.old }
    {
        if last {
            return self.bad(out);
        }
        self.waits(false)
    }

    // A module's record was taken.
    pub fn joined(mut self) -> Turned
        requires { (self.offset + 2 < 2 ^ 64) × (self.count + 1 < 2 ^ 64) }
        ensures { result ≡ record { next = record { offset = self.offset + 2; count = self.count + 1; running = self.running }; took = 2; wrote = 0; course = GoesOn } }
    {
        self.count += 1;
        self.passes(2, 0)
    }

    // A record of so many bytes was taken by the network.
    pub fn went(mut self, size: u8, wrote: usize) -> Turned
        requires { self.offset + size < 2 ^ 64 }
        ensures { result ≡ record { next = record { offset = self.offset + size; count = self.count; running = true }; took = size; wrote = wrote; course = GoesOn } }
    {
        self.running = true;
        self.passes(size, wrote)
    }
}
