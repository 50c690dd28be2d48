// The port: a state handed in and handed back by start, receive, slot and measure.
#![tactic(auto)]

ghost use Rattle.std.specs.Prelude.{◌≡◌, ◌<◌};
ghost use Rattle.state.specs.State.{message_length};
ghost use Rattle.port.specs.Port.{send_from, begun_with, begins_record, rest_of, act_of, taken_of, handed, unit_of, started_port, start_verdict, valid_waiting, reply_last};
ghost use Rattle.port.specs.Clauses.{SentUpTo, Choose, PortUnstarted, PortIsValid, PortStart, PortReceive, PortSlot, PortMeasure};

use fixed::Settings;
use line::Line;
use refusal::Refusal;
use state::{Last, Message, Modes, Sending, Source, State};
use units::Measurement;

#[derive(Clone, Copy)]
pub struct Port {
    pub source: Source,
    pub message: Message,
    pub last: Last,
    // the line of the command that waits, as it was taken
    pub waiting: Option<Line>,
}

#[derive(Clone, Copy)]
pub struct Slotted {
    // the byte that a slot sends; none where it is idle
    pub sent: Result<Option<u8>, Refusal>,
    pub port: Port,
}

#[derive(Clone, Copy)]
pub struct Received {
    pub verdict: Result<(), Refusal>,
    pub port: Port,
    pub line: Line,
}

// What a new measurement hands back.
#[derive(Clone, Copy)]
pub struct Handed {
    pub verdict: Result<(), Refusal>,
    pub port: Port,
}

// What a start hands back: the line too, empty where it is accepted.
#[derive(Clone, Copy)]
pub struct Started {
    pub verdict: Result<(), Refusal>,
    pub port: Port,
    pub line: Line,
}

// The port once its message has been sent up to a place: the last byte moves the rate.
pub fn sent_up_to(p: Port, at: usize) -> Port
    ensures { SentUpTo p at result }
{
    let next_rate = p.source.modes.next_rate;
    let mut after = p;
    after.message.at = at;
    if at == p.message.len {
        after.source.modes.rate = next_rate;
    }
    after
}

// The byte at a place leaves.
fn send_from(p: Port, at: usize) -> Slotted
    requires { at < message_length }
    ensures { result ≡ send_from p at }
{
    Slotted {
        sent: Ok(Some(p.message.bytes[at])),
        port: sent_up_to(p, at + 1),
    }
}

// A message starts: its first byte leaves.
fn begin(source: Source, message: Message, last: Last, waiting: Option<Line>) -> Slotted
    ensures { result ≡ begun_with source message last waiting }
{
    let port = Port {
        source,
        message,
        last,
        waiting,
    };
    send_from(port, 0)
}

// Rules 1 and 3: a record starts.
fn begin_record(p: Port) -> Slotted
    ensures { result ≡ begins_record p }
{
    let message = reply::record_message(p.source);
    begin(p.source, message, Last::Record, p.waiting)
}

// Rules 3 and 4: a record, where continuous sending is on; else the slot is idle.
fn rest(p: Port) -> Slotted
    ensures { result ≡ rest_of p }
{
    if reply::is_continuous(p.source) {
        return begin_record(p);
    }
    Slotted {
        sent: Ok(None),
        port: p,
    }
}

// How a reply counts once it is sent: < as neither.
fn reply_last(counts: bool) -> Last
    ensures { result ≡ reply_last counts }
{
    if counts {
        return Last::Reply;
    }
    Last::Neither
}

// Rule 2: the command that waits is acted on, which frees its place; its reply starts, if it has one. (Kept apart: an idle
// slot need not make room for what it takes.)
#[inline(never)]
fn act(p: Port, line: Line) -> Slotted
    ensures { result ≡ act_of p line }
{
    let acted = reply::act(p.source, line);
    if acted.message.len == 0 {
        let mut free = p;
        free.source = acted.source;
        free.waiting = None;
        return rest(free);
    }
    let last = reply_last(reply::counts(p.source, line));
    begin(acted.source, acted.message, last, None)
}

// Rules 1 to 4, where no message is under way: what a slot then does. Whoever calls it has tested with 16.
pub fn choose(p: Port) -> Slotted
    ensures { Choose p result }
{
    if reply::is_continuous(p.source) && p.last == Last::Reply {
        return begin_record(p);
    }
    match p.waiting {
        Some(line) => act(p, line),
        None => rest(p),
    }
}

// A carriage return: the line is taken where no command waits, else dropped.
fn taken(p: Port, line: Line) -> Received
    ensures { result ≡ taken_of p line }
{
    if p.waiting.is_some() {
        return Received {
            verdict: Err(Refusal::Dropped),
            port: p,
            line: Line::blank(),
        };
    }
    let mut after = p;
    after.waiting = Some(line);
    Received {
        verdict: Ok(()),
        port: after,
        line: Line::blank(),
    }
}

// What a verdict hands back: the new port, or the old one.
fn handed_by(verdict: Result<(), Refusal>, new: Port, old: Port) -> Handed
    ensures { result ≡ handed verdict new old }
{
    Handed {
        verdict,
        port: if verdict.is_ok() { new } else { old },
    }
}

// The display unit of a start-up letter: I, B imperial; M, b metric.
fn unit_of(letter: u8) -> u8
    ensures { result ≡ unit_of letter }
{
    if (letter == b'I') | (letter == b'B') {
        return b'I';
    }
    b'M'
}

// What is wrong with a start: 8 with the lowest item, then 1 with the lowest field.
fn check_start(settings: Settings, measurement: Measurement) -> Result<(), Refusal>
    ensures { result ≡ start_verdict settings measurement }
{
    if let Some(lowest) = fixed::lowest_setting(settings) {
        return Err(Refusal::Setting(lowest));
    }
    units::check_measurement(measurement)
}

// < LF CR to be sent, no command waiting, ready, all modes off, film 00, rate number 6.
fn started_with(settings: Settings, measurement: Measurement) -> Port
    ensures { result ≡ started_port settings measurement }
{
    let modes = Modes {
        state: State::Ready,
        sending: Sending::Off,
        checksum: false,
        inhibit: false,
        film: 0,
        unit: unit_of(settings.fixed.lens.letter),
        rate: 6,
        next_rate: 6,
    };
    let source = Source {
        settings,
        measurement,
        modes,
    };
    Port {
        source,
        message: messages::letter_message(b'<', false),
        last: Last::Neither,
        waiting: None,
    }
}

// Whether the line that waits, if one does, is one of ours.
fn may_wait(waiting: Option<Line>) -> bool
    ensures { result ≡ valid_waiting waiting }
{
    match waiting {
        Some(line) => line.is_valid(),
        None => true,
    }
}

impl Port {
    // The port before its first start. It is no valid state: every entry but a start refuses it.
    pub fn unstarted() -> Port
        ensures { PortUnstarted result }
    {
        let settings = Settings {
            fixed: fixed::no_fixed(),
            maker: [0; 15],
            type_name: [0; 30],
            blur: [0; 32],
        };
        let measurement = Measurement {
            unit: 0,
            figures: record::no_record().figures,
            temperature: 0,
        };
        started_with(settings, measurement)
    }

    // Whether a handed-in state is one of ours (16): the source, the message under way, the line that waits.
    pub fn is_valid(self) -> bool
        ensures { PortIsValid self result }
    {
        // Both tests at once: a chain of && costs every slot 38 instructions more.
        if !(state::valid_message(self.message) & may_wait(self.waiting)) {
            return false;
        }
        state::valid_source(self.source)
    }

    // A start: 8 with the lowest item, then 1 with the lowest field; refused, it hands the old port and line back.
    pub fn start(old: Port, line: Line, settings: Settings, measurement: Measurement) -> Started
        ensures { PortStart old line settings measurement result }
    {
        match check_start(settings, measurement) {
            Ok(()) => Started {
                verdict: Ok(()),
                port: started_with(settings, measurement),
                line: Line::blank(),
            },
            Err(r) => Started {
                verdict: Err(r),
                port: old,
                line,
            },
        }
    }

    // A received byte: 16, then 7 at the carriage return of a line that is dropped.
    pub fn receive(self, line: Line, byte: u8) -> Received
        ensures { PortReceive self line byte result }
    {
        // Both tests at once: && costs every byte 14 instructions more.
        if !(self.is_valid() & line.is_valid()) {
            return Received {
                verdict: Err(Refusal::State),
                port: self,
                line,
            };
        }
        if line.ends(byte) {
            return taken(self, line);
        }
        Received {
            verdict: Ok(()),
            port: self,
            line: line.joined(byte),
        }
    }

    // A sending slot: one byte, or idle.
    pub fn slot(self) -> Slotted
        ensures { PortSlot self result }
    {
        if !self.is_valid() {
            return Slotted {
                sent: Err(Refusal::State),
                port: self,
            };
        }
        // The answers have names: one that is returned unnamed copies the port.
        let at = self.message.at;
        if at < self.message.len {
            let sent = send_from(self, at);
            return sent;
        }
        let chosen = choose(self);
        chosen
    }

    // A new measurement: 16, then 1 with the lowest field.
    pub fn measure(self, measurement: Measurement) -> Handed
        ensures { PortMeasure self measurement result }
    {
        if !self.is_valid() {
            return Handed {
                verdict: Err(Refusal::State),
                port: self,
            };
        }
        let mut after = self;
        after.source.measurement = measurement;
        handed_by(units::check_measurement(measurement), after, self)
    }
}
