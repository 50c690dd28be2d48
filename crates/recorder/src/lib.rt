// The recorder: what it has to send, and what it makes of each message of the stream that it reads. It asks for the
// fixed data and reads messages as such, plain, until one is accepted; from then on as records, by its settings.
#![tactic(auto)]

ghost use Rattle.std.specs.Prelude.{◌≡◌};
ghost use Rattle.recorder.specs.Recorder.{record_ending, reading_in, opens_by, hold_of};
ghost use Rattle.recorder.specs.Clauses.{SetupFirst, RecorderStart, RecorderIsValid, RecorderSend, RecorderTake};

use cutter::Cutter;
use fixed::Fixed;
use record::Record;
use refusal::Refusal;

// The settings.
#[repr(C)]
#[derive(Clone, Copy)]
pub struct Setup {
    // Records are packed, else text.
    pub packed: bool,
    // They carry checksums.
    pub checksum: bool,
}

#[repr(C)]
#[derive(Clone, Copy)]
pub struct Recorder {
    pub cutter: Cutter,
    pub setup: Setup,
    // What it had to send was handed out.
    pub sent: bool,
    // A message of fixed data was accepted.
    pub opened: bool,
}

// What it hands out to be sent.
#[derive(Clone, Copy)]
pub struct HandedOut {
    // How many bytes; 16, then 2.
    pub wrote: Result<usize, Refusal>,
    pub recorder: Recorder,
}

// What it makes of a message: how it was read, and the reader's answer.
#[derive(Clone, Copy)]
pub enum Reading {
    Fixed(Result<Fixed, Refusal>),
    Record(Result<Record, Refusal>),
}

// What it makes of a piece.
#[derive(Clone, Copy)]
pub struct Recorded {
    // Of the message that ended, where one did; or 16.
    pub made: Result<Option<Reading>, Refusal>,
    // How many bytes of the piece were taken; a message that ended did so at the last of them.
    pub used: usize,
    pub recorder: Recorder,
}

impl Setup {
    // The settings that a recorder starts with.
    pub fn first() -> Setup
        ensures { SetupFirst result }
    {
        Setup {
            packed: false,
            checksum: false,
        }
    }
}

impl Recorder {
    pub fn start(setup: Setup) -> Recorder
        ensures { RecorderStart setup result }
    {
        Recorder {
            cutter: Cutter::fresh(),
            setup,
            sent: false,
            opened: false,
        }
    }

    pub fn is_valid(self) -> bool
        ensures { RecorderIsValid self result }
    {
        self.cutter.is_valid()
    }

    // Puts what it has to send into lent memory: N CR the first time, then nothing.
    pub fn send(self, out: &mut [u8]) -> HandedOut
        ensures { RecorderSend self out.old result out.new }
    {
        if !self.is_valid() {
            return HandedOut {
                wrote: Err(Refusal::State),
                recorder: self,
            };
        }
        if self.sent {
            return HandedOut {
                wrote: Ok(0),
                recorder: self,
            };
        }
        if out.len() < 2 {
            return HandedOut {
                wrote: Err(Refusal::Room(2)),
                recorder: self,
            };
        }
        lent::put_pair(out, 0, b'N', b'\r');
        HandedOut {
            wrote: Ok(2),
            recorder: Recorder { sent: true, ..self },
        }
    }

    // Reads the message that ends with this part as a record.
    fn read_record(self, part: &[u8]) -> Result<Record, Refusal>
        ensures { result ≡ record_ending self part.now }
    {
        let setup = self.setup;
        if setup.packed {
            cut_reader::read_packed(self.cutter, part, setup.checksum)
        } else {
            cut_reader::read_text(self.cutter, part, setup.checksum)
        }
    }

    // What it makes of the message that ends with this part.
    fn make(self, part: &[u8]) -> Reading
        ensures { result ≡ reading_in self part.now }
    {
        if self.opened {
            Reading::Record(self.read_record(part))
        } else {
            Reading::Fixed(cut_reader::read_fixed(self.cutter, part, false))
        }
    }

    // Whether it is open after a message.
    fn is_opened_by(self, reading: Reading) -> bool
        ensures { result ≡ opens_by self.opened reading }
    {
        match reading {
            Reading::Fixed(read) => read.is_ok(),
            Reading::Record(_) => self.opened,
        }
    }

    // Takes a piece in which no message ends.
    fn hold(self, piece: &[u8]) -> Recorded
        ensures { result ≡ hold_of self piece.now }
    {
        if !self.is_valid() {
            return Recorded {
                made: Err(Refusal::State),
                used: 0,
                recorder: self,
            };
        }
        let cutter = self.cutter.held(piece);
        Recorded {
            made: Ok(None),
            used: piece.len(),
            recorder: Recorder { cutter, ..self },
        }
    }

    // Takes the piece up to the first end of a message, or all of it, and reads the message that ended.
    pub fn take(self, piece: &[u8]) -> Recorded
        ensures { RecorderTake self piece.now result }
    {
        let Some(n) = self.cutter.end_in(piece) else {
            return self.hold(piece);
        };
        let reading = self.make(&piece[..n]);
        Recorded {
            made: Ok(Some(reading)),
            used: n,
            recorder: Recorder {
                cutter: Cutter::fresh(),
                opened: self.is_opened_by(reading),
                ..self
            },
        }
    }
}
