// Cuts the camera side's stream, which comes in arbitrary pieces, into messages: each ends at its LF CR pair.
#![tactic(auto)]

ghost use Rattle.std.specs.Prelude.{◌+◌, ◌≤◌, ◌≡◌, length};
ghost use Rattle.laws.specs.Over.{over};
ghost use Rattle.cutter.specs.Cutter.{after_lf, lf_before, quiet, BehindQuiet, PutsMessage};
ghost use Rattle.cutter.specs.Clauses.{NextEnd, CutterFresh, CutterIsValid, CutterEndIn, CutterHeld, CutterHold, CutterCut};

use refusal::Refusal;

// The bytes that a cutter holds, the LF CR counted.
pub const CUTTER_LENGTH: usize = 160;

// The bytes that are looked at together.
const BLOCK: usize = 8;

// The bytes since the last end of a message. A count of one more than it holds stands for any more of them:
// then only the last byte is kept, in the last place.
#[repr(C)]
#[derive(Clone, Copy)]
pub struct Cutter {
    pub bytes: [u8; CUTTER_LENGTH],
    pub len: usize,
}

// What a call makes of a piece; the message that ended goes to lent memory.
#[derive(Clone, Copy)]
pub struct Cut {
    // The message's length, 0 where none ended; 16, 9, then 2.
    pub wrote: Result<usize, Refusal>,
    // How many bytes of the piece were taken.
    pub used: usize,
    // A message ended at the last of them. (Beside `wrote`, for of its refusals 16 ends none, and 9 and 2 end one.)
    pub ended: bool,
    // The cutter for what follows.
    pub cutter: Cutter,
}

// Whether an LF stands before the byte i of s, or before s.
fn is_lf_before(s: &[u8], i: usize, lf: bool) -> bool
    requires { i ≤ length s.now }
    ensures { result ≡ lf_before lf s.now i }
{
    s[..i].last().map_or(lf, |b| *b == 10)
}

// Whether none of these bytes is CR. Every test is made and none branched on, so that many are made at once.
fn is_quiet(s: &[u8]) -> bool
    ensures { result ≡ quiet s.now }
{
    let mut all = true;
    for b in s {
        all &= *b != 13;
    }
    all
}

// A place that no CR stands before: behind the first blocks without one.
fn skip_quiet(s: &[u8]) -> usize
    ensures { BehindQuiet s.now result }
{
    let (blocks, _) = s.as_chunks::<BLOCK>();
    blocks.iter().take_while(|block| is_quiet(*block)).count() * BLOCK
}

// Where the first message ends, if one does: so many bytes with its CR; behind an LF or not. Only a CR asks for the
// byte before it. Also the next message of a stream that is lent as a whole, which needs no cutter.
pub fn next_end(stream: &[u8], lf: bool) -> Option<usize>
    ensures { NextEnd stream.now lf result }
{
    for i in skip_quiet(stream)..stream.len() {
        if stream[i] == 13 && is_lf_before(stream, i, lf) {
            return Some(i + 1);
        }
    }
    None
}

// Writes a part of a message at its place. (`lent::put_text` has it copied, and from one lent memory to another the compiler asks
// memmove of the host for that.)
fn put_part(out: &mut [u8], at: usize, part: &[u8])
    requires { at + length part.now ≤ length out.old }
    ensures { out.new ≡ over out.old at part.now }
{
    for (i, b) in part.iter().enumerate() {
        out[at + i] = *b;
    }
}

impl Cutter {
    // The cutter that holds nothing.
    pub fn fresh() -> Cutter
        ensures { CutterFresh result }
    {
        Cutter {
            bytes: [0; CUTTER_LENGTH],
            len: 0,
        }
    }

    // Whether the count is one of ours; the bytes may be anything.
    pub fn is_valid(self) -> bool
        ensures { CutterIsValid self result }
    {
        self.len <= CUTTER_LENGTH + 1
    }

    // Whether the last byte is LF.
    fn is_after_lf(self) -> bool
        ensures { result ≡ after_lf self }
    {
        let n = self.len;
        if n == 0 {
            return false;
        }
        if n <= CUTTER_LENGTH {
            return self.bytes[n - 1] == 10;
        }
        self.bytes[CUTTER_LENGTH - 1] == 10
    }

    // How many bytes of the piece belong to the message at hand, where it ends in it; it ends in none for a count
    // that is not ours.
    pub fn end_in(self, piece: &[u8]) -> Option<usize>
        ensures { CutterEndIn self piece.now result }
    {
        if self.len == 0 {
            return next_end(piece, false);
        }
        if !self.is_valid() {
            return None;
        }
        next_end(piece, self.is_after_lf())
    }

    // The cutter with these bytes more, none of which ends a message.
    pub fn held(self, part: &[u8]) -> Cutter
        ensures { CutterHeld self part.now result }
    {
        let n = part.len();
        if n == 0 {
            return self;
        }
        let at = self.len;
        if at <= CUTTER_LENGTH && n <= CUTTER_LENGTH - at {
            let mut bytes = self.bytes;
            // `copy_from_slice` was tried: 0.5 % more instructions for a message in pieces of 16 bytes.
            for (i, b) in part.iter().enumerate() {
                bytes[at + i] = *b;
            }
            return Cutter { bytes, len: at + n };
        }
        let mut bytes = [0; CUTTER_LENGTH];
        bytes[CUTTER_LENGTH - 1] = part[n - 1];
        Cutter {
            bytes,
            len: CUTTER_LENGTH + 1,
        }
    }

    // Takes all of a piece in which no message ends.
    pub fn hold(self, piece: &[u8]) -> Cut
        ensures { CutterHold self piece.now result }
    {
        if !self.is_valid() {
            return Cut {
                wrote: Err(Refusal::State),
                used: 0,
                ended: false,
                cutter: self,
            };
        }
        Cut {
            wrote: Ok(0),
            used: piece.len(),
            ended: false,
            cutter: self.held(piece),
        }
    }

    // Puts the message that ends with this part into lent memory: what is held, then the part.
    fn put_message(self, part: &[u8], out: &mut [u8]) -> Result<usize, Refusal>
        ensures { PutsMessage self part.now out.old result out.new }
    {
        let at = self.len;
        let n = part.len();
        if CUTTER_LENGTH < at || CUTTER_LENGTH - at < n {
            return Err(Refusal::TooLong);
        }
        if out.len() < at + n {
            return Err(Refusal::Room(at + n));
        }
        put_part(out, 0, &self.bytes[..at]);
        put_part(out, at, part);
        Ok(at + n)
    }

    // Takes the piece up to the first end of a message, or all of it; the message goes to lent memory.
    pub fn cut(self, piece: &[u8], out: &mut [u8]) -> Cut
        ensures { CutterCut self piece.now out.old result out.new }
    {
        let Some(n) = self.end_in(piece) else {
            return self.hold(piece);
        };
        Cut {
            wrote: self.put_message(&piece[..n], out),
            used: n,
            ended: true,
            cutter: Cutter::fresh(),
        }
    }
}
