// The box with both connectors. The camera side is standard input and output; the external connector's line
// comes in on descriptor 3 and goes out on descriptor 4. Whoever starts it sets O_NONBLOCK on all four, so
// that it waits on neither line while the other has work.
//
// Time passes in ticks of a 960th of a second. In a tick a port runs as many slots as its own rate gives it,
// in turns as with one port: a slot, then at most one received byte. Once no byte has come, the rest of its
// slots run together. Then comes the other port, and then a sleep; so a carriage return is handed over at
// most a tick after it came. A slot whose byte the line does not take is not run: that port's time stands
// still, nothing of it is lost, and the other goes on. Where an input ends, its port goes on being sent to;
// where both have ended, the program ends.
ghost use Rattle.std.specs.Prelude.{IfSome, ◌≤◌, ◌≡◌, length};
ghost use Rattle.driver.specs.Ports.{box_in_place, Ran};
ghost use Rattle.collector.specs.Collect.{line_after};
ghost use Rattle.connectors.specs.Connectors.{side_of};

use super::descriptor::Descriptor;
use super::{Seen, is_for_later, look, pause, tell_letter};
use connectors::{Connectors, Lines};
use line::Line;
use std::io;
use std::io::{Eprint, Input, Print, Read, Write};
use std::rt::Clock;

const EXTERNAL_INPUT: i32 = 3;

const EXTERNAL_OUTPUT: i32 = 4;

// A 960th of a second, in nanoseconds, and the most slots that a port runs in it.
const TICK: u64 = 1041667;

const MOST: usize = 24;

// A port as the driver serves it.
#[derive(Clone, Copy)]
struct Plug {
    number: u8,
    line: Line,
    // more bytes may come
    open: bool,
}

// Where a port's bytes come from and go to.
#[derive(Drop)]
struct Ends<I, O> {
    input: I,
    output: O,
}

// The box, and one of its ports in a tick.
#[derive(Clone, Copy)]
struct Served {
    connectors: Connectors,
    plug: Plug,
    // its tick is not over: the line took every byte, and no look came back empty
    goes_on: bool,
}

#[derive(Clone, Copy)]
struct Desk {
    connectors: Connectors,
    camera: Plug,
    external: Plug,
}

// A received byte: the port's collector is updated in place, and a line that it ended goes to the box.
fn received(served: Served, byte: u8) -> Served
    ensures { (result.connectors ≡ box_in_place served.connectors (side_of served.plug.number) served.plug.line byte) × (result.plug.line ≡ line_after served.plug.line byte) }
{
    let updated = collector::lend(served.plug.line, byte);
    let mut after = served;
    after.plug.line = updated.line;
    let answer = updated.answer;
    if !answer.ended {
        return after;
    }
    let taken = served
        .connectors
        .receive(served.plug.number, answer.line, byte);
    after.connectors = taken.connectors;
    after
}

// Writes bytes as far as the line takes them now: how many, or none where the line is gone and takes no more.
fn put(output: &mut impl Write, bytes: &[u8]) -> Option<usize>
    ensures { IfSome result (λ n. n ≤ length bytes.now) }
{
    if bytes.len() == 0 {
        return Some(0);
    }
    match output.write(bytes) {
        Ok(count) => Some(count),
        Err(error) => is_for_later(&error).then_some(0),
    }
}

// Runs as many slots of the port as a lent buffer has bytes, and writes what they send. Where the line takes
// less, the slots are run anew from the box before them, as many as it took.
fn sent(output: &mut impl Write, served: Served, out: &mut [u8]) -> Served
    ensures { Ran served.connectors served.plug.number (length out.old) result.connectors }
{
    let before = served.connectors;
    let plug = served.plug;
    let filled = before.fill(plug.number, out);
    let took = put(output, &out[..filled.count]);
    let count = took.unwrap_or(0);
    if count == filled.count {
        return Served {
            connectors: filled.connectors,
            plug,
            goes_on: true,
        };
    }
    let again = before.fill(plug.number, &mut out[..count]);
    Served {
        connectors: again.connectors,
        plug: Plug {
            open: plug.open && took.is_some(),
            ..plug
        },
        goes_on: false,
    }
}

// So many slots of the port, if it has as much to send.
fn slots(output: &mut impl Write, served: Served, count: usize) -> Served
    requires { count ≤ 24 }
{
    let mut out = [0u8; MOST];
    sent(output, served, &mut out[..count])
}

// A look at the port's input; one that has ended has nothing.
fn looked(input: &mut impl Read, plug: Plug) -> Seen {
    if !plug.open {
        return Seen::Nothing;
    }
    look(input)
}

// No byte has come: the rest of the port's slots run, and its tick is over.
fn finished(output: &mut impl Write, served: Served, rest: usize) -> Served
    requires { rest ≤ 24 }
{
    let mut after = slots(output, served, rest);
    after.goes_on = false;
    after
}

// The port once its input has ended.
fn closed(served: Served) -> Served {
    let mut after = served;
    after.plug.open = false;
    after
}

// A turn of the port: a slot, then a look.
fn take_turn<I: Read, O: Write>(ends: &mut Ends<I, O>, served: Served, rest: usize) -> Served
    requires { rest ≤ 24 }
{
    let after = slots(&mut ends.output, served, 1);
    if !after.goes_on {
        return after;
    }
    let found = looked(&mut ends.input, after.plug);
    match found {
        Seen::Byte(byte) => received(after, byte),
        Seen::Nothing => finished(&mut ends.output, after, rest),
        Seen::End => finished(&mut ends.output, closed(after), rest),
    }
}

// The slots of a tick at a rate number.
fn slots_a_tick(rate: u8) -> usize
    ensures { result ≤ 24 }
{
    match rate {
        0 => 1,
        1 => 2,
        2 => 4,
        3 => 5,
        4 => 6,
        5 => 10,
        6 => 12,
        _ => 24,
    }
}

// The rate number that a port has now.
fn rate_at(connectors: Connectors, number: u8) -> u8 {
    if number == 0 {
        return connectors.camera.modes.rate;
    }
    connectors.external.modes.rate
}

// A port's turns in a tick.
fn take_turns<I: Read, O: Write>(
    ends: &mut Ends<I, O>,
    connectors: Connectors,
    plug: Plug,
) -> Served {
    let mut now = Served {
        connectors,
        plug,
        goes_on: true,
    };
    let count = slots_a_tick(rate_at(connectors, plug.number));
    for left in (0..count).rev() {
        now = take_turn(ends, now, left);
        if !now.goes_on {
            return now;
        }
    }
    now
}

// A tick: each port's turns, then the time passes.
fn take_tick<I: Read, O: Write, J: Read, P: Write>(
    clock: &impl Clock,
    desk: Desk,
    camera_ends: &mut Ends<I, O>,
    external_ends: &mut Ends<J, P>,
) -> Desk {
    let first = take_turns(camera_ends, desk.connectors, desk.camera);
    let second = take_turns(external_ends, first.connectors, desk.external);
    pause(clock, TICK);
    Desk {
        connectors: second.connectors,
        camera: first.plug,
        external: second.plug,
    }
}

// A proved loop has to end: the ticks count up to a number that no run reaches.
fn run<I: Read, O: Write, J: Read, P: Write>(
    clock: &impl Clock,
    desk: Desk,
    camera_ends: &mut Ends<I, O>,
    external_ends: &mut Ends<J, P>,
) {
    let mut now = desk;
    for _ in 0..u64::MAX {
        if !(now.camera.open || now.external.open) {
            return;
        }
        now = take_tick(clock, now, camera_ends, external_ends);
    }
}

// Both ports, from a start with this letter.
pub(crate) fn serve(rt: &(impl Input + Print + Eprint + Clock), letter: u8) {
    let measurement = bench_lens::bench_measurement();
    let blank = Lines {
        camera: Line::blank(),
        external: Line::blank(),
    };
    let started = Connectors::start(
        Connectors::unstarted(),
        blank,
        bench_lens::bench_settings(letter),
        measurement,
        measurement,
    );
    if started.verdict.is_err() {
        tell_letter(rt);
        return;
    }
    let desk = Desk {
        connectors: started.connectors,
        camera: Plug {
            number: 0,
            line: started.lines.camera,
            open: true,
        },
        external: Plug {
            number: 1,
            line: started.lines.external,
            open: true,
        },
    };
    let mut camera_ends = Ends {
        input: rt.reader(),
        output: io::writer(rt),
    };
    let mut external_ends = Ends {
        input: Descriptor {
            number: EXTERNAL_INPUT,
        },
        output: Descriptor {
            number: EXTERNAL_OUTPUT,
        },
    };
    run(rt, desk, &mut camera_ends, &mut external_ends);
}
