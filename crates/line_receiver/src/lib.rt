// The line's checksum, and its receiver, which takes one byte at a time with its mark and hands back its next state and an answer.

#![tactic(auto)]

ghost use Rattle.std.specs.Prelude.{◌≡◌, ◌+◌, ◌-◌, ◌%◌, ◌<◌, ◌≤◌};
ghost use Rattle.line_receiver.specs.Receive.{total, sum8, idle, waits, opened, addressed, commanded, stored, count, finished, inside, taken};

// The unfinished frame: its data bytes, address and command, how many of its bytes are in (0 is idle), and whether one was marked.
#[derive(Clone, Copy)]
pub struct Receiver {
    pub bytes: [u8; 15],
    pub address: u8,
    pub command: u8,
    pub fill: u8,
    pub marked: bool,
}

// The receiver after a byte, and what the byte brought: whether the frame that has ended is damaged, or nothing more.
// The frame itself stands in the receiver that took the byte, so the answer holds no data.
#[derive(Clone, Copy)]
pub struct Received {
    pub next: Receiver,
    pub answer: Option<bool>,
}

// The sum so far, with these bytes added to it, wrapping: the one loop behind every checksum, of commands and of replies.
pub fn sum_on(start: u8, bytes: &[u8]) -> u8
    ensures { result ≡ (start + total bytes.now) % 256 }
{
    let mut sum = start;
    for byte in bytes {
        sum = sum.wrapping_add(*byte);
    }
    sum
}

// The checksum of a frame with these data bytes.
fn checksum(address: u8, command: u8, content: &[u8]) -> u8
    ensures { result ≡ sum8 address command content.now }
{
    sum_on(address.wrapping_add(command), content)
}

impl Receiver {
    // Idle is one value, so that two receivers that wait for a header are the same.
    fn idle() -> Self
        ensures { result ≡ idle }
    {
        Receiver {
            bytes: [0u8; 15],
            address: 0,
            command: 0,
            fill: 0,
            marked: false,
        }
    }

    // How many data bytes the command announces.
    pub fn count(self) -> usize
        ensures { result ≡ count self }
    {
        (self.command / 16) as usize
    }

    // The byte ends no frame, and this is the receiver from now on.
    fn waits(self) -> Received
        ensures { result ≡ waits self }
    {
        Received {
            next: self,
            answer: None,
        }
    }

    // The header is in: marks are counted from here.
    fn opened(mut self) -> Received
        ensures { result ≡ opened self }
    {
        self.fill = 1;
        self.marked = false;
        self.waits()
    }

    // The address is in, also where its byte is 0xAA or marked.
    fn addressed(mut self, byte: u8, mark: bool) -> Received
        ensures { result ≡ addressed self byte mark }
    {
        self.address = byte;
        self.fill = 2;
        self.marked |= mark;
        self.waits()
    }

    // The command is in, and with it the number of data bytes to come.
    fn commanded(mut self, byte: u8, mark: bool) -> Received
        ensures { result ≡ commanded self byte mark }
    {
        self.command = byte;
        self.fill = 3;
        self.marked |= mark;
        self.waits()
    }

    // A data byte takes its place.
    fn stored(mut self, at: usize, byte: u8, mark: bool) -> Received
        requires { (at < 15) × (self.fill < 255) }
        ensures { result ≡ stored at self byte mark }
    {
        self.bytes[at] = byte;
        self.fill += 1;
        self.marked |= mark;
        self.waits()
    }

    // The last byte is only compared with the sum of those before it; the next frame begins with an idle receiver.
    fn finished(self, byte: u8, mark: bool) -> Received
        ensures { result ≡ finished self byte mark }
    {
        let sum = checksum(self.address, self.command, &self.bytes[..self.count()]);
        Received {
            next: Receiver::idle(),
            answer: Some(self.marked | mark | (byte != sum)),
        }
    }

    // After the command: a data byte as long as fewer are in than the command announces, else the checksum.
    fn inside(self, byte: u8, mark: bool) -> Received
        requires { 3 ≤ self.fill }
        ensures { result ≡ inside (self.fill - 3) self byte mark }
    {
        let at = (self.fill - 3) as usize;
        if at < self.count() {
            self.stored(at, byte, mark)
        } else {
            self.finished(byte, mark)
        }
    }

    // One byte with its mark. Only an idle receiver looks for a header: inside a frame each byte counts as itself.
    // Inlined, since every byte of a buffer goes through it: a call would cost some thirty instructions a byte.
    #[inline]
    #[tactic(auto, unfolding(crate::specs::Receive::taken))]
    pub fn take(self, byte: u8, mark: bool) -> Received
        ensures { result ≡ taken self byte mark }
    {
        match self.fill {
            0 if (byte == 0xAA) & !mark => self.opened(),
            0 => self.waits(),
            1 => self.addressed(byte, mark),
            2 => self.commanded(byte, mark),
            _ => self.inside(byte, mark),
        }
    }
}
