// Two connectors over one lens: the fixed data and the start-up letter are shared, all else is each port's own. A
// port of the box is the port of crate port over the shared settings.
#![tactic(auto)]

ghost use Rattle.std.specs.Prelude.{◌≡◌};
ghost use Rattle.connectors.specs.Connectors.{side_of, port_with, own_of, started_by};
ghost use Rattle.connectors.specs.Clauses.{ConnectorsPortAt, ConnectorsWithPort, ConnectorsUnstarted, ConnectorsStart, ConnectorsReceive, ConnectorsSlot, ConnectorsMeasure, ConnectorsFill};

use fixed::Settings;
use line::Line;
use port::Port;
use refusal::Refusal;
use state::{Last, Message, Modes, Source};
use units::Measurement;

// The camera contacts, and the external connector.
#[derive(Clone, Copy)]
pub enum Side {
    Camera,
    External,
}

// What a port has of its own, beside the line that its driver collects.
#[derive(Clone, Copy)]
pub struct Connector {
    pub measurement: Measurement,
    pub modes: Modes,
    pub message: Message,
    pub last: Last,
    pub waiting: Option<Line>,
}

#[derive(Clone, Copy)]
pub struct Connectors {
    pub settings: Settings,
    pub camera: Connector,
    pub external: Connector,
}

// The lines of both ports.
#[derive(Clone, Copy)]
pub struct Lines {
    pub camera: Line,
    pub external: Line,
}

// What a start hands back: the lines too, both empty where it is accepted.
#[derive(Clone, Copy)]
pub struct StartedBoth {
    pub verdict: Result<(), Refusal>,
    pub connectors: Connectors,
    pub lines: Lines,
}

#[derive(Clone, Copy)]
pub struct ReceivedAt {
    pub verdict: Result<(), Refusal>,
    pub connectors: Connectors,
    pub line: Line,
}

#[derive(Clone, Copy)]
pub struct SlottedAt {
    pub sent: Result<Option<u8>, Refusal>,
    pub connectors: Connectors,
}

// What a new measurement hands back.
#[derive(Clone, Copy)]
pub struct HandedAt {
    pub verdict: Result<(), Refusal>,
    pub connectors: Connectors,
}

#[derive(Clone, Copy)]
pub struct FilledAt {
    pub verdict: Result<(), Refusal>,
    // the bytes written, a byte for each sending slot that was run
    pub count: usize,
    pub connectors: Connectors,
}

// The port that a number names: 0 the camera contacts, 1 the external connector.
fn side_of(number: u8) -> Option<Side>
    ensures { result ≡ side_of number }
{
    match number {
        0 => Some(Side::Camera),
        1 => Some(Side::External),
        _ => None,
    }
}

// The port of these settings and of this connector's own parts.
fn port_with(settings: Settings, own: Connector) -> Port
    ensures { result ≡ port_with settings own }
{
    Port {
        source: Source {
            settings,
            measurement: own.measurement,
            modes: own.modes,
        },
        message: own.message,
        last: own.last,
        waiting: own.waiting,
    }
}

// What a port has of its own.
fn own_of(port: Port) -> Connector
    ensures { result ≡ own_of port }
{
    Connector {
        measurement: port.source.measurement,
        modes: port.source.modes,
        message: port.message,
        last: port.last,
        waiting: port.waiting,
    }
}

// What a verdict on a start hands back: the new box and two empty lines, or the old ones.
fn started_by(
    verdict: Result<(), Refusal>,
    new: Connectors,
    old: Connectors,
    lines: Lines,
) -> StartedBoth
    ensures { result ≡ started_by verdict new old lines }
{
    match verdict {
        Ok(()) => StartedBoth {
            verdict,
            connectors: new,
            lines: Lines {
                camera: Line::blank(),
                external: Line::blank(),
            },
        },
        Err(_) => StartedBoth {
            verdict,
            connectors: old,
            lines,
        },
    }
}

impl Connectors {
    // A port of the box, over the shared settings.
    pub fn port_at(self, side: Side) -> Port
        ensures { ConnectorsPortAt self side result }
    {
        match side {
            Side::Camera => port_with(self.settings, self.camera),
            Side::External => port_with(self.settings, self.external),
        }
    }

    // The box once a port of it has become this one, whose settings are both ports'.
    pub fn with_port(self, side: Side, port: Port) -> Connectors
        ensures { ConnectorsWithPort self side port result }
    {
        let mut after = self;
        after.settings = port.source.settings;
        match side {
            Side::Camera => after.camera = own_of(port),
            Side::External => after.external = own_of(port),
        }
        after
    }

    // The box before its first start. It is no valid state: every entry but a start refuses it.
    pub fn unstarted() -> Connectors
        ensures { ConnectorsUnstarted result }
    {
        let port = Port::unstarted();
        let own = own_of(port);
        Connectors {
            settings: port.source.settings,
            camera: own,
            external: own,
        }
    }

    // A start, which is a restart of both ports: 8, then the camera side's 1, then the external's; refused, it
    // changes neither.
    pub fn start(
        old: Connectors,
        lines: Lines,
        settings: Settings,
        camera: Measurement,
        external: Measurement,
    ) -> StartedBoth
        ensures { ConnectorsStart old lines settings camera external result }
    {
        let first = Port::start(old.port_at(Side::Camera), lines.camera, settings, camera);
        let second = Port::start(
            old.port_at(Side::External),
            lines.external,
            settings,
            external,
        );
        let verdict = first.verdict.and(second.verdict);
        let half = old.with_port(Side::Camera, first.port);
        let new = half.with_port(Side::External, second.port);
        started_by(verdict, new, old, lines)
    }

    // A received byte on the port of this number: 12, then as the port answers it.
    pub fn receive(self, number: u8, line: Line, byte: u8) -> ReceivedAt
        ensures { ConnectorsReceive self number line byte result }
    {
        let Some(side) = side_of(number) else {
            return ReceivedAt {
                verdict: Err(Refusal::NoPort),
                connectors: self,
                line,
            };
        };
        let received = self.port_at(side).receive(line, byte);
        ReceivedAt {
            verdict: received.verdict,
            connectors: self.with_port(side, received.port),
            line: received.line,
        }
    }

    // A sending slot of the port of this number: one byte, or idle.
    pub fn slot(self, number: u8) -> SlottedAt
        ensures { ConnectorsSlot self number result }
    {
        let Some(side) = side_of(number) else {
            return SlottedAt {
                sent: Err(Refusal::NoPort),
                connectors: self,
            };
        };
        let slotted = self.port_at(side).slot();
        SlottedAt {
            sent: slotted.sent,
            connectors: self.with_port(side, slotted.port),
        }
    }

    // A new measurement for the port of this number.
    pub fn measure(self, number: u8, measurement: Measurement) -> HandedAt
        ensures { ConnectorsMeasure self number measurement result }
    {
        let Some(side) = side_of(number) else {
            return HandedAt {
                verdict: Err(Refusal::NoPort),
                connectors: self,
            };
        };
        let handed = self.port_at(side).measure(measurement);
        HandedAt {
            verdict: handed.verdict,
            connectors: self.with_port(side, handed.port),
        }
    }

    // Slots of the port of this number, until the lent buffer is full or one is idle.
    pub fn fill(self, number: u8, out: &mut [u8]) -> FilledAt
        ensures { ConnectorsFill self number out.old result out.new }
    {
        let Some(side) = side_of(number) else {
            return FilledAt {
                verdict: Err(Refusal::NoPort),
                count: 0,
                connectors: self,
            };
        };
        let filled = fill::fill(self.port_at(side), out);
        FilledAt {
            verdict: filled.verdict,
            count: filled.count,
            connectors: self.with_port(side, filled.port),
        }
    }
}
