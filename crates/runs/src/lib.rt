// The run of a capture on both connectors: a line names its port, and its event is told by the run of that port, over the
// settings that both share and with the slots of both.
#![tactic(auto)]

ghost use Rattle.std.specs.Prelude.{◌≡◌};
ghost use Rattle.connectors.specs.Connectors.{line_at, with_line};
ghost use Rattle.runs.specs.Runs.{is_numbered, event_on, with_run};
ghost use Rattle.runs.specs.Clauses.{EventAt, RunsRunAt, RunsStart, RunsIsValid, RunsIsOver, RunsTell, RunsCount};

use capture::Event;
use connectors::{Connectors, Lines, Side};
use line::Line;
use refusal::Refusal;
use telling::Run;

// The event that a line tells, and the port that it is for.
#[derive(Clone, Copy)]
pub struct Addressed {
    pub side: Side,
    pub event: Event,
}

// Where the runs of both ports have come to.
#[derive(Clone, Copy)]
pub struct Runs {
    pub connectors: Connectors,
    pub lines: Lines,
    // The slots run, of both ports.
    pub slots: u32,
    // A line of other form has come.
    pub stopped: bool,
}

// What a start hands back.
#[derive(Clone, Copy)]
pub struct BegunBoth {
    pub verdict: Result<(), Refusal>,
    pub runs: Runs,
}

// What an event makes of the runs: how many bytes it printed, or the refusal that left all as it was.
#[derive(Clone, Copy)]
pub struct ToldAt {
    pub wrote: Result<usize, Refusal>,
    pub runs: Runs,
}

// ---- the port of a line

// Whether a line begins with this number and a space. (As one `&&` it did not prove.)
fn is_numbered(number: u8, line: &[u8]) -> bool
    ensures { result ≡ is_numbered number line.now }
{
    if line.len() < 2 {
        return false;
    }
    line[0] == number && line[1] == b' '
}

// The event that a text tells, for this port.
fn event_on(side: Side, text: &[u8]) -> Addressed
    ensures { result ≡ event_on side text.now }
{
    Addressed {
        side,
        event: capture::event_of(text),
    }
}

// The event that a line tells, and its port: where ports may be named, by the number before it; else the camera's.
#[tactic(auto, using(crate::proofs::Laws::numbered_two, crate::proofs::Laws::rest_on), unfolding(crate::specs::Runs::event_at))]
pub fn event_at(ports: bool, line: &[u8]) -> Addressed
    ensures { EventAt ports line.now result }
{
    if ports && is_numbered(b'0', line) {
        return event_on(Side::Camera, &line[2..]);
    }
    if ports && is_numbered(b'1', line) {
        return event_on(Side::External, &line[2..]);
    }
    event_on(Side::Camera, line)
}

// ---- the line of a port

fn line_at(lines: Lines, side: Side) -> Line
    ensures { result ≡ line_at lines side }
{
    match side {
        Side::Camera => lines.camera,
        Side::External => lines.external,
    }
}

fn with_line(lines: Lines, side: Side, line: Line) -> Lines
    ensures { result ≡ with_line lines side line }
{
    match side {
        Side::Camera => Lines {
            camera: line,
            ..lines
        },
        Side::External => Lines {
            external: line,
            ..lines
        },
    }
}

impl Runs {
    // The session program's lens on both ports, started with this start-up letter; a refused start leaves runs that are none.
    #[tactic(auto, unfolding(crate::specs::Runs::start_runs))]
    pub fn start(letter: u8) -> BegunBoth
        ensures { RunsStart letter result }
    {
        let measurement = bench_lens::bench_measurement();
        let started = Connectors::start(
            Connectors::unstarted(),
            Lines {
                camera: Line::blank(),
                external: Line::blank(),
            },
            bench_lens::bench_settings(letter),
            measurement,
            measurement,
        );
        BegunBoth {
            verdict: started.verdict,
            runs: Runs {
                connectors: started.connectors,
                lines: started.lines,
                slots: 0,
                stopped: false,
            },
        }
    }

    // The run of a port: over the shared settings, with the slots of both.
    pub fn run_at(self, side: Side) -> Run
        ensures { RunsRunAt self side result }
    {
        Run {
            port: self.connectors.port_at(side),
            line: line_at(self.lines, side),
            slots: self.slots,
            stopped: self.stopped,
        }
    }

    // The runs once that of a port has become this one.
    fn with_run(self, side: Side, run: Run) -> Runs
        ensures { result ≡ with_run self side run }
    {
        Runs {
            connectors: self.connectors.with_port(side, run.port),
            lines: with_line(self.lines, side, run.line),
            slots: run.slots,
            stopped: run.stopped,
        }
    }

    // Whether handed-in runs are ours (16): the run of each port.
    #[tactic(auto, unfolding(crate::specs::Runs::valid_runs))]
    pub fn is_valid(self) -> bool
        ensures { RunsIsValid self result }
    {
        self.run_at(Side::Camera).is_valid() && self.run_at(Side::External).is_valid()
    }

    // Whether the run has ended, for both ports: by a line of other form, or by its last slot.
    pub fn is_over(self) -> bool
        ensures { RunsIsOver self result }
    {
        self.stopped || telling::LAST_SLOT <= self.slots
    }

    // Runs an event on its port, and prints what it told: 16, then 2. After the run's end it does nothing.
    #[tactic(auto, unfolding(crate::specs::Runs::told_at))]
    pub fn tell(self, addressed: Addressed, out: &mut [u8]) -> ToldAt
        ensures { RunsTell self addressed out.old result out.new }
    {
        let told = self.run_at(addressed.side).tell(addressed.event, out);
        ToldAt {
            wrote: told.wrote,
            runs: self.with_run(addressed.side, told.run),
        }
    }

    // The last line: the slots run, of both ports.
    #[tactic(auto, unfolding(crate::specs::Runs::count_both, crate::specs::Runs::count_both_leaves))]
    pub fn count(self, out: &mut [u8]) -> Result<usize, Refusal>
        ensures { RunsCount self out.old result out.new }
    {
        if !self.is_valid() {
            return Err(Refusal::State);
        }
        printed::put_count(self.slots, out)
    }
}
