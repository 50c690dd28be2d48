// A capture followed as its text comes in, in any pieces: each line is run where it ends, on the port that it names.
#![tactic(auto)]

ghost use Rattle.std.specs.Prelude.{◌≡◌, true, ◌++◌};
ghost use Rattle.runs.specs.Runs.{event_at};
ghost use Rattle.follow.specs.Follow.{blank_text, valid_text, held_in, joined_text, followed_by};
ghost use Rattle.follow.specs.Clauses.{FollowerStart, FollowerIsValid, FollowerTake, FollowerClose};

use refusal::Refusal;
use runs::{Addressed, Runs, ToldAt};

// The bytes that are kept of a line: one more than a line of an event has at most.
pub const HELD_LENGTH: usize = 138;

// The first bytes of the line that is coming in. (With a count of its own, since one past the buffer is refused by 16: valid_text.)
#[derive(Clone, Copy)]
pub struct Text {
    pub bytes: [u8; HELD_LENGTH],
    pub len: usize,
}

#[derive(Clone, Copy)]
pub struct Follower {
    pub runs: Runs,
    pub text: Text,
    // A port number may stand before an event.
    pub ports: bool,
}

// What a start hands back.
#[derive(Clone, Copy)]
pub struct Begun {
    pub verdict: Result<(), Refusal>,
    pub follower: Follower,
}

// What a call makes of a piece.
#[derive(Clone, Copy)]
pub struct Followed {
    // How many bytes it printed; 16, then 2.
    pub wrote: Result<usize, Refusal>,
    // How many bytes of the piece were taken.
    pub used: usize,
    pub follower: Follower,
}

impl Text {
    // No line yet.
    fn blank() -> Text
        ensures { result ≡ blank_text }
    {
        Text {
            bytes: [0; HELD_LENGTH],
            len: 0,
        }
    }

    // Whether the count is within the buffer; the bytes may be anything.
    fn is_kept(self) -> bool
        ensures { result ≡ valid_text self }
    {
        self.len <= HELD_LENGTH
    }

    // The line with these bytes more, as many as are kept.
    fn joined(self, part: &[u8]) -> Text
        ensures { result ≡ joined_text self part.now }
    {
        let mut text = self;
        for b in part {
            let at = text.len;
            if HELD_LENGTH <= at {
                return text;
            }
            text.bytes[at] = *b;
            text.len = at + 1;
        }
        text
    }

    // The event that a line tells which ends with this part, and its port.
    fn event(self, ports: bool, part: &[u8]) -> Addressed
        requires { valid_text self ≡ true }
        ensures { result ≡ event_at ports (held_in self ++ part.now) }
    {
        if self.len == 0 {
            return runs::event_at(ports, part);
        }
        let text = self.joined(part);
        runs::event_at(ports, &text.bytes[..text.len])
    }
}

impl Follower {
    // The session program's lens, started with this start-up letter, and no line yet; whether lines may name a port.
    pub fn start(letter: u8, ports: bool) -> Begun
        ensures { FollowerStart letter ports result }
    {
        let begun = Runs::start(letter);
        Begun {
            verdict: begun.verdict,
            follower: Follower {
                runs: begun.runs,
                text: Text::blank(),
                ports,
            },
        }
    }

    // Whether a handed-in follower is one of ours (16).
    pub fn is_valid(self) -> bool
        ensures { FollowerIsValid self result }
    {
        self.runs.is_valid() && self.text.is_kept()
    }

    // The follower once a line was told: no line yet, or, where that was refused, the old one.
    fn followed(self, told: ToldAt, used: usize) -> Followed
        ensures { result ≡ followed_by self told used }
    {
        let wrote = told.wrote;
        match wrote {
            Ok(_) => Followed {
                wrote,
                used,
                follower: Follower {
                    runs: told.runs,
                    text: Text::blank(),
                    ..self
                },
            },
            Err(_) => Followed {
                wrote,
                used: 0,
                follower: self,
            },
        }
    }

    // Takes the piece up to the first end of a line, or all of it; the line is run and told: 16, then 2.
    pub fn take(self, piece: &[u8], out: &mut [u8]) -> Followed
        ensures { FollowerTake self piece.now out.old result out.new }
    {
        if !self.is_valid() {
            return Followed {
                wrote: Err(Refusal::State),
                used: 0,
                follower: self,
            };
        }
        let end = capture::bytes_before(piece, b'\n');
        if end == piece.len() {
            return Followed {
                wrote: Ok(0),
                used: end,
                follower: Follower {
                    text: self.text.joined(piece),
                    ..self
                },
            };
        }
        let addressed = self.text.event(self.ports, &piece[..end]);
        let told = self.runs.tell(addressed, out);
        self.followed(told, end + 1)
    }

    // The text has ended: a last line without its LF is run and told too.
    pub fn close(self, out: &mut [u8]) -> Followed
        ensures { FollowerClose self out.old result out.new }
    {
        if !self.is_valid() {
            return Followed {
                wrote: Err(Refusal::State),
                used: 0,
                follower: self,
            };
        }
        if self.text.len == 0 {
            return Followed {
                wrote: Ok(0),
                used: 0,
                follower: self,
            };
        }
        let addressed = self.text.event(self.ports, b"");
        let told = self.runs.tell(addressed, out);
        self.followed(told, 0)
    }
}
