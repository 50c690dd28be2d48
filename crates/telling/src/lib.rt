// An event of a capture run on the port, and what it prints.
#![tactic(auto)]

ghost use Rattle.std.specs.Prelude.{◌≡◌, ◌*◌, ◌≤◌, length};
ghost use Rattle.capture.specs.declared.Event.TheVariants as event;
ghost use Rattle.telling.specs.Telling.{RunsSlots, slots_left, handed, tells, Tells};
ghost use Rattle.telling.specs.Clauses.{RunStart, RunIsValid, RunIsOver, RunTell, RunCount};

use capture::Event;
use line::Line;
use port::Port;
use refusal::Refusal;
use units::Measurement;

// A run stops after so many slots.
pub const LAST_SLOT: u32 = 100000;

// Where the run of a capture has come to.
#[derive(Clone, Copy)]
pub struct Run {
    pub port: Port,
    pub line: Line,
    // The slots run.
    pub slots: u32,
    // A line of other form has come.
    pub stopped: bool,
}

// What a start hands back.
#[derive(Clone, Copy)]
pub struct Begun {
    pub verdict: Result<(), Refusal>,
    pub run: Run,
}

// What an event makes of a run: how many bytes it printed, or the refusal that left all as it was.
#[derive(Clone, Copy)]
pub struct Told {
    pub wrote: Result<usize, Refusal>,
    pub run: Run,
}

// Runs slots and prints each from the start of the lent memory on, three bytes a slot.
fn put_slots(port: Port, count: u32, out: &mut [u8]) -> Port
    requires { 3 * count ≤ length out.old }
    ensures { RunsSlots count port out.old result out.new }
{
    let mut now = port;
    let mut at = 0;
    for left in (0..count).rev() {
        let slotted = now.slot();
        let sent = slotted.sent;
        printed::put_slot(sent, out, at);
        lent::put_byte(out, at + 2, printed::separator(left));
        let after = slotted.port;
        now = after;
        at += 3;
    }
    now
}

// What is handed back once it was printed: the new run, or, for want of room, the old one.
fn handed_by(wrote: Result<usize, Refusal>, new: Run, old: Run) -> Told
    ensures { result ≡ handed wrote new old }
{
    let run = match wrote {
        Ok(_) => new,
        Err(_) => old,
    };
    Told { wrote, run }
}

impl Run {
    // The session program's lens, started with this start-up letter; a refused start leaves a run that is none.
    #[tactic(auto, unfolding(crate::specs::Telling::start_with))]
    pub fn start(letter: u8) -> Begun
        ensures { RunStart letter result }
    {
        let started = Port::start(
            Port::unstarted(),
            Line::blank(),
            bench_lens::bench_settings(letter),
            bench_lens::bench_measurement(),
        );
        Begun {
            verdict: started.verdict,
            run: Run {
                port: started.port,
                line: started.line,
                slots: 0,
                stopped: false,
            },
        }
    }

    // Whether a handed-in run is one of ours (16): its port, its line, its slots.
    #[tactic(auto, unfolding(crate::specs::Telling::valid_run))]
    pub fn is_valid(self) -> bool
        ensures { RunIsValid self result }
    {
        self.port.is_valid() && self.line.is_valid() && self.slots <= LAST_SLOT
    }

    // Whether the run has ended: by a line of other form, or by its last slot.
    pub fn is_over(self) -> bool
        ensures { RunIsOver self result }
    {
        self.stopped || LAST_SLOT <= self.slots
    }

    // A received byte.
    #[tactic(auto, unfolding(crate::specs::Telling::tells))]
    fn tell_received(self, byte: u8, out: &mut [u8]) -> Told
        ensures { Tells (tells self (event.Received byte)) self out.old result out.new }
    {
        let received = self.port.receive(self.line, byte);
        let run = Run {
            port: received.port,
            line: received.line,
            ..self
        };
        handed_by(printed::put_verdict(received.verdict, out), run, self)
    }

    // A new measurement.
    #[tactic(auto, unfolding(crate::specs::Telling::tells))]
    fn tell_measured(self, measurement: Measurement, out: &mut [u8]) -> Told
        ensures { Tells (tells self (event.Measured measurement)) self out.old result out.new }
    {
        let measured = self.port.measure(measurement);
        let run = Run {
            port: measured.port,
            ..self
        };
        handed_by(printed::put_verdict(measured.verdict, out), run, self)
    }

    // How many of n slots the run has left.
    #[tactic(auto, unfolding(crate::specs::Telling::slots_left))]
    fn slots_left(self, n: u32) -> u32
        ensures { result ≡ slots_left self n }
    {
        n.min(LAST_SLOT.saturating_sub(self.slots))
    }

    // Slots, as many as are left.
    fn tell_slots(self, n: u32, out: &mut [u8]) -> Told
        ensures { Tells (tells self (event.Slots n)) self out.old result out.new }
    {
        let count = self.slots_left(n);
        let need = 3 * count as usize;
        if out.len() < need {
            return Told {
                wrote: Err(Refusal::Room(need)),
                run: self,
            };
        }
        let run = Run {
            port: put_slots(self.port, count, out),
            slots: self.slots + count,
            ..self
        };
        Told {
            wrote: Ok(need),
            run,
        }
    }

    // A line of other form, which ends the run.
    #[tactic(auto, unfolding(crate::specs::Telling::tells))]
    fn tell_other(self, out: &mut [u8]) -> Told
        ensures { Tells (tells self event.Other) self out.old result out.new }
    {
        let run = Run {
            stopped: true,
            ..self
        };
        handed_by(printed::put_verdict(Err(Refusal::Form), out), run, self)
    }

    // Runs an event and prints what it told: 16, then 2. After the run's end it does nothing.
    pub fn tell(self, event: Event, out: &mut [u8]) -> Told
        ensures { RunTell self event out.old result out.new }
    {
        if !self.is_valid() {
            return Told {
                wrote: Err(Refusal::State),
                run: self,
            };
        }
        if self.is_over() {
            return Told {
                wrote: Ok(0),
                run: self,
            };
        }
        match event {
            Event::Received(byte) => self.tell_received(byte, out),
            Event::Slots(n) => self.tell_slots(n, out),
            Event::Measured(measurement) => self.tell_measured(measurement, out),
            Event::Other => self.tell_other(out),
        }
    }

    // The last line: the slots run.
    #[tactic(auto, unfolding(crate::specs::Telling::count_of, crate::specs::Telling::count_leaves))]
    pub fn count(self, out: &mut [u8]) -> Result<usize, Refusal>
        ensures { RunCount self out.old result out.new }
    {
        if !self.is_valid() {
            return Err(Refusal::State);
        }
        printed::put_count(self.slots, out)
    }
}
