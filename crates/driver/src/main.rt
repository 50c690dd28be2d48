// The session program of document 01, and the driver.
//
//   driver [LETTER]          one port, on standard input and output
//   driver ports [LETTER]    the box with both connectors: module ports
//
// LETTER is another start-up letter than I. The lens is the bench lens. With one port the program keeps it
// and one line collector, and moves bytes between standard input and output.
//
// On an input that waits, as a file or a pipe, it is the session program: after the start and after each
// byte slots run until idle, at most 400. On a line, a turn is a slot: its byte is written, and a received
// byte is taken if one has come. While the lens sends, the driver does not wait for input; where nothing is
// left to send, it does. After every sixteenth slot that sent, it sleeps for the time of sixteen at the rate
// that the port has then. So that it can look without waiting, whoever starts it sets O_NONBLOCK on standard
// input. Until a look has come back empty, it takes its input for one that waits.
#![tactic(auto)]

mod descriptor;
mod ports;

ghost use Rattle.std.specs.Prelude.{◌≡◌};
ghost use Rattle.collector.specs.Collect.{line_after};
ghost use Rattle.walk.specs.InPlace.{port_in_place};

use line::Line;
use port::Port;
use std::fs::File;
use std::io::{Eprint, ErrorKind, Input, Print, Read, Write};
use std::rt::{Clock, Env, Files};
use std::time::Duration;
use std::{io, thread};

// The slots of a turn on an input that waits.
const MOST: usize = 400;

// The room for an argument; a longer one counts as none.
const WORD_LENGTH: usize = 4096;

// The port and its collector.
#[derive(Clone, Copy)]
struct Held {
    port: Port,
    line: Line,
}

#[derive(Clone, Copy)]
struct Desk {
    lens: Held,
    // no look has come back empty yet: the input may be one that waits
    waits: bool,
    // the turns that sent since time last passed
    since: u8,
    // more bytes may come
    open: bool,
}

// What a turn's slots left: a port in each case.
#[derive(Clone, Copy)]
struct Turn {
    port: Port,
    // the slots filled the buffer: there may be more to send
    full: bool,
    written: bool,
}

// What a look at the input found.
#[derive(Clone, Copy)]
enum Seen {
    Byte(u8),
    Nothing,
    End,
}

// A received byte: the collector is updated in place, and a line that it ended goes to the port.
fn received(port: Port, line: Line, byte: u8) -> Held
    ensures { (result.port ≡ port_in_place port line byte) × (result.line ≡ line_after line byte) }
{
    let updated = collector::lend(line, byte);
    let answer = updated.answer;
    if answer.ended {
        let taken = port.receive(answer.line, byte);
        return Held {
            port: taken.port,
            line: updated.line,
        };
    }
    Held {
        port,
        line: updated.line,
    }
}

// A call that failed may be made once more: it would have waited, or a signal came.
fn is_for_later(error: &io::Error) -> bool {
    let kind = error.kind();
    kind == ErrorKind::WouldBlock || kind == ErrorKind::Interrupted
}

// One byte of an input, if there is one.
fn look(input: &mut impl Read) -> Seen {
    let mut byte = [0u8; 1];
    match input.read(&mut byte) {
        Ok(0) => Seen::End,
        Ok(_) => Seen::Byte(byte[0]),
        Err(error) => {
            if is_for_later(&error) {
                return Seen::Nothing;
            }
            Seen::End
        }
    }
}

// The same where the input may be none that could be opened, which has ended.
fn look_waiting(waiting: &mut Option<impl Read>) -> Seen {
    match waiting {
        Some(input) => look(input),
        None => Seen::End,
    }
}

// Runs slots into a lent buffer and writes the bytes sent.
fn sent(output: &mut impl Write, port: Port, out: &mut [u8]) -> Turn {
    let filled = fill::fill(port, out);
    let full = filled.count == out.len();
    let written = output.write_all(&out[..filled.count]).is_ok();
    Turn {
        port: filled.port,
        full,
        written,
    }
}

// The slots of a turn.
fn slots(output: &mut impl Write, port: Port, waits: bool) -> Turn {
    if waits {
        let mut out = [0u8; MOST];
        return sent(output, port, &mut out);
    }
    let mut out = [0u8; 1];
    sent(output, port, &mut out)
}

// Waits for so many nanoseconds.
fn pause(clock: &impl Clock, nanoseconds: u64) {
    thread::sleep(clock, Duration::from_nanos(nanoseconds));
}

// The nanoseconds of sixteen slots, ten bits each, at a rate number.
fn sixteen_slots(rate: u8) -> u64 {
    match rate {
        0 => 16666667,
        1 => 8333334,
        2 => 4166667,
        3 => 3333334,
        4 => 2777778,
        5 => 1666667,
        6 => 1388889,
        _ => 694445,
    }
}

// On a line, after every sixteenth slot that sent, the time of sixteen passes.
fn paced(clock: &impl Clock, desk: Desk) -> Desk {
    if desk.waits {
        return desk;
    }
    if desk.since < 15 {
        return Desk {
            since: desk.since + 1,
            ..desk
        };
    }
    pause(clock, sixteen_slots(desk.lens.port.source.modes.rate));
    Desk { since: 0, ..desk }
}

// The desk after a look.
fn noted(desk: Desk, found: Seen) -> Desk {
    match found {
        Seen::Byte(byte) => Desk {
            lens: received(desk.lens.port, desk.lens.line, byte),
            ..desk
        },
        Seen::Nothing => Desk {
            waits: false,
            ..desk
        },
        Seen::End => Desk {
            open: false,
            ..desk
        },
    }
}

// A turn: slots, then a look; where nothing is left to send and nothing has come, a look that waits.
fn take_turn(
    rt: &(impl Print + Clock),
    desk: Desk,
    input: &mut impl Read,
    waiting: &mut Option<impl Read>,
) -> Desk {
    let turn = slots(&mut io::writer(rt), desk.lens.port, desk.waits);
    let mut after = desk;
    after.lens.port = turn.port;
    after.open = turn.written;
    if !turn.written {
        return after;
    }
    let found = look(input);
    if turn.full {
        return noted(paced(rt, after), found);
    }
    if let Seen::Nothing = found {
        return noted(noted(after, found), look_waiting(waiting));
    }
    noted(after, found)
}

// A proved loop has to end, and nothing says that the input does: the turns count up to a number that no run
// reaches.
fn run(
    rt: &(impl Print + Clock),
    desk: Desk,
    input: &mut impl Read,
    waiting: &mut Option<impl Read>,
) {
    let mut now = desk;
    for _ in 0..u64::MAX {
        if !now.open {
            return;
        }
        now = take_turn(rt, now, input, waiting);
    }
}

// The start-up letter that an argument gives.
fn start_letter(rt: &impl Env, number: usize) -> u8 {
    let mut word = [0u8; WORD_LENGTH];
    let n = rt.arg(number, &mut word).unwrap_or(0);
    bench_lens::letter_of(&word[..n])
}

// Tells that the letter was refused.
fn tell_letter(rt: &impl Eprint) {
    let _ = eprintln!(rt; "driver: the start-up letter is none of I, M, B, b");
}

// The first argument asks for both ports.
fn asks_for_ports(rt: &impl Env) -> bool {
    let mut word = [0u8; WORD_LENGTH];
    let n = rt.arg(1, &mut word).unwrap_or(0);
    &word[..n] == b"ports".as_slice()
}

// One port, on standard input and output.
fn serve(rt: &(impl Input + Print + Eprint + Files + Clock), letter: u8) {
    let started = Port::start(
        Port::unstarted(),
        Line::blank(),
        bench_lens::bench_settings(letter),
        bench_lens::bench_measurement(),
    );
    if started.verdict.is_err() {
        tell_letter(rt);
        return;
    }
    let lens = Held {
        port: started.port,
        line: started.line,
    };
    // standard input once more, as a file whose reads wait
    let mut waiting = File::open(rt, "/dev/stdin").ok();
    let desk = Desk {
        lens,
        waits: true,
        since: 0,
        open: true,
    };
    run(rt, desk, &mut rt.reader(), &mut waiting);
}

fn main(rt: HostRuntime) {
    if asks_for_ports(&rt) {
        ports::serve(&rt, start_letter(&rt, 2));
        return;
    }
    serve(&rt, start_letter(&rt, 1));
}
