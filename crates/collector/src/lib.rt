// The driver's line collector: what a received byte makes of it and what is answered, by value, and one
// thin function over them that updates it in place.
#![tactic(auto)]

ghost use Rattle.collector.specs.Clauses.{LineAfter, Answered, Collect, Lend};

use line::Line;
use refusal::Refusal;

// C is answered this; it has no Option.
#[repr(C)]
#[derive(Clone, Copy)]
pub struct Collected {
    // 0 done; 16 a count past the buffer
    pub number: u32,
    // a carriage return ended the line
    pub ended: bool,
    // the line that ended, else the empty one
    pub line: Line,
}

// The collector after a received byte: a carriage return empties it, another byte joins it.
pub fn line_after(line: Line, byte: u8) -> Line
    ensures { LineAfter line byte result }
{
    if !line.is_valid() {
        return line;
    }
    if line.ends(byte) {
        return Line::blank();
    }
    line.joined(byte)
}

// What the byte is answered: 16, the line that it ended, or done.
pub fn answered(line: Line, byte: u8) -> Collected
    ensures { Answered line byte result }
{
    if !line.is_valid() {
        return Collected {
            number: refusal::number_of(Refusal::State),
            ended: false,
            line: Line::blank(),
        };
    }
    if line.ends(byte) {
        return Collected {
            number: 0,
            ended: true,
            line,
        };
    }
    Collected {
        number: 0,
        ended: false,
        line: Line::blank(),
    }
}

// The collector is updated where it is kept.
pub fn collect(line: &mut Line, byte: u8) -> Collected
    ensures { Collect line.old byte result line.new }
{
    let old = *line;
    *line = line_after(old, byte);
    answered(old, byte)
}

// The collector after a received byte, and the answer.
#[derive(Clone, Copy)]
pub struct Updated {
    pub line: Line,
    pub answer: Collected,
}

// Lends a collector held by value to `collect`: a caller of this one needs no proof by hand.
pub fn lend(line: Line, byte: u8) -> Updated
    ensures { Lend line byte result }
{
    let mut kept = line;
    let answer = collect(&mut kept, byte);
    Updated { line: kept, answer }
}
