// The replay: standard input is a capture, a line an event, and it prints what the lens did with each.
//
//   replay [ports] [LETTER]
//
//   R hh    a byte is received
//   S n     n slots, 1..999: the bytes sent in hex, -- for an idle slot
//   M ..    a new measurement: fields 1 to 11, the unit letter, the temperature
//
// With `ports` a port number and a space may stand before an event: 0 is the camera contacts, 1 the external connector,
// and a line without it is port 0's. An event that is refused prints `refused` and its number; a line of other form
// prints `refused 10` and ends the run, as slot 100,000 does. Last come `slots` and the number run, on both ports. The
// lens is the bench lens, on both ports; LETTER is another start-up letter than I.
#![tactic(auto)]

ghost use Rattle.std.specs.Prelude.{◌≡◌, ◌+◌, ◌≤◌, length};

use follow::Follower;
use std::env::FillError;
use std::io::{Print, Read};
use std::rt::Env;

// The room for what is printed and for what is read at once, and what a call prints at most: 999 slots.
const OUTPUT_LENGTH: usize = 65536;

const INPUT_LENGTH: usize = 65536;

const LONGEST_TEXT: usize = 2997;

// The room for an argument; a longer one counts as none.
const WORD_LENGTH: usize = 4096;

// The follower, how many bytes of the output are unwritten, and whether more of the input is taken.
#[derive(Clone, Copy)]
struct Desk {
    follower: Follower,
    unwritten: usize,
    open: bool,
}

// The desk after a call, and how many bytes of the input it took.
#[derive(Clone, Copy)]
struct Step {
    desk: Desk,
    used: usize,
}

// What the arguments ask for.
#[derive(Clone, Copy)]
struct Asked {
    ports: bool,
    letter: u8,
}

// Writes what is unwritten. (Output that cannot be written is lost, and the run goes on.)
fn write(to: &impl Print, out: &[u8], unwritten: usize) {
    if unwritten <= out.len() {
        let _ = to.write_all(&out[0..unwritten]);
    }
}

// Where the next text goes: behind the others, which are written first where it might not fit.
fn place(to: &impl Print, out: &[u8], unwritten: usize) -> usize
    ensures { result + 2997 ≤ 65536 }
{
    if unwritten <= OUTPUT_LENGTH - LONGEST_TEXT {
        return unwritten;
    }
    write(to, out, unwritten);
    0
}

// The next line of the input, or what has come of it. (With room and a started lens no call is refused.)
fn advance(to: &impl Print, desk: Desk, input: &[u8], out: &mut [u8]) -> Step
    requires { length out.old ≡ 65536 }
    ensures { result.used ≤ length input.now }
{
    let at = place(to, out, desk.unwritten);
    let followed = desk.follower.take(input, &mut out[at..]);
    Step {
        desk: Desk {
            follower: followed.follower,
            unwritten: at + followed.wrote.unwrap_or(0),
            open: !followed.follower.runs.is_over(),
        },
        used: followed.used,
    }
}

// The bytes of one read, line after line: steps of any length, so no `for`.
fn take_all(to: &impl Print, desk: Desk, input: &[u8], out: &mut [u8]) -> Desk
    requires { length out.old ≡ 65536 }
{
    let mut now = desk;
    let mut rest = input;
    while now.open && !rest.is_empty() {
        let step = advance(to, now, rest, out);
        let after = step.desk;
        now = after;
        if step.used == 0 {
            return now;
        }
        rest = &rest[step.used..];
    }
    now
}

// Prints what the lines of a piece tell. (Kept apart: in one function with the read, the room for it is cleared at each turn once more.)
#[inline(never)]
fn told(to: &impl Print, desk: Desk, piece: &[u8]) -> Desk {
    let mut out = [0u8; OUTPUT_LENGTH];
    let after = take_all(to, desk, piece, &mut out);
    write(to, &out, after.unwritten);
    Desk {
        unwritten: 0,
        ..after
    }
}

// Reads once, and prints what the lines that came told. The end of the input closes the desk, as a read that fails does.
fn turn(from: &mut impl Read, to: &impl Print, desk: Desk) -> Desk {
    let mut input = [0u8; INPUT_LENGTH];
    let n = from.read(&mut input).unwrap_or(0);
    if n == 0 {
        return Desk {
            open: false,
            ..desk
        };
    }
    told(to, desk, &input[..n])
}

// A proved loop has to end, and nothing says that the input does: the turns count up to a number that no run
// reaches.
fn run_all(from: &mut impl Read, to: &impl Print, desk: Desk) -> Follower {
    let mut now = desk;
    for _ in 0..u64::MAX {
        if !now.open {
            return now.follower;
        }
        now = turn(from, to, now);
    }
    now.follower
}

// What a last line without its LF told, and the slots run.
fn end(to: &impl Print, follower: Follower) {
    let mut out = [0u8; OUTPUT_LENGTH];
    let closed = follower.close(&mut out);
    write(to, &out, closed.wrote.unwrap_or(0));
    let counted = closed.follower.runs.count(&mut out);
    write(to, &out, counted.unwrap_or(0));
}

// The start-up letter that the argument of this number gives; none where another follows it.
fn asked_by(rt: &impl Env, ports: bool, at: usize) -> Option<Asked>
    requires { at ≤ 2 }
{
    let mut word = [0u8; WORD_LENGTH];
    let n = rt.arg(at, &mut word).unwrap_or(0);
    let letter = bench_lens::letter_of(&word[..n]);
    matches!(rt.arg(at + 1, &mut word), Err(FillError::NotPresent)).then_some(Asked {
        ports,
        letter,
    })
}

// [ports] [LETTER]
fn all_asked(rt: &impl Env) -> Option<Asked> {
    let mut word = [0u8; WORD_LENGTH];
    let n = rt.arg(1, &mut word).unwrap_or(0);
    if &word[..n] == b"ports".as_slice() {
        return asked_by(rt, true, 2);
    }
    asked_by(rt, false, 1)
}

fn main(rt: HostRuntime) {
    let Some(asked) = all_asked(&rt) else {
        let _ = eprintln!(rt;
            "replay: takes the word ports, then a start-up letter, and no more: replay [ports] [LETTER]"
        );
        return;
    };
    let begun = Follower::start(asked.letter, asked.ports);
    if begun.verdict.is_err() {
        let _ = eprintln!(rt; "replay: the start-up letter is none of I, M, B, b");
        return;
    }
    let desk = Desk {
        follower: begun.follower,
        unwritten: 0,
        open: true,
    };
    end(&rt, run_all(&mut rt.stdin(), &rt, desk));
}
