// The parts of the port's state by value, and what a handed-in part must be (refusal 16).
#![tactic(auto)]

ghost use Rattle.std.specs.Prelude.{◌≡◌};
ghost use Rattle.state.specs.State.{valid_modes};
ghost use Rattle.state.specs.Clauses.{ValidMessage, ValidSource};

use fixed::Settings;
use units::Measurement;

// The bytes that the message under way sits in.
pub const MESSAGE_LENGTH: usize = 128;

#[derive(Clone, Copy)]
pub enum State {
    Ready,
    Running,
}

// Continuous sending.
#[derive(Clone, Copy, PartialEq, Eq)]
pub enum Sending {
    Off,
    Text,
    Packed,
}

// What was sent last, or is under way.
#[derive(Clone, Copy, PartialEq, Eq)]
pub enum Last {
    Neither,
    Record,
    Reply,
}

// (Film, unit and rates are bytes, since any other byte is refused by 16: valid_modes.)
#[derive(Clone, Copy)]
pub struct Modes {
    pub state: State,
    pub sending: Sending,
    pub checksum: bool,
    pub inhibit: bool,
    // 00..31
    pub film: u8,
    // the display unit, I or M
    pub unit: u8,
    // 0..7, and the one that follows when the message under way ends
    pub rate: u8,
    pub next_rate: u8,
}

// All that a message is made of.
#[derive(Clone, Copy)]
pub struct Source {
    pub settings: Settings,
    pub measurement: Measurement,
    pub modes: Modes,
}

// The message under way: its bytes, how many they are, and the place of the next one to be sent. None
// is under way where the place is the length. (Its buffer has a count of its own, since one past the buffer is refused by 16: valid_message.)
#[derive(Clone, Copy)]
pub struct Message {
    pub bytes: [u8; MESSAGE_LENGTH],
    pub len: usize,
    pub at: usize,
}

fn valid_modes(m: Modes) -> bool
    ensures { result ≡ valid_modes m }
{
    (m.film <= 31) & (((m.unit == b'I') | (m.unit == b'M')) & ((m.rate <= 7) & (m.next_rate <= 7)))
}

// Whether the message's counts are within the buffer and the message.
pub fn valid_message(m: Message) -> bool
    ensures { ValidMessage m result }
{
    (m.len <= MESSAGE_LENGTH) & (m.at <= m.len)
}

// Whether the settings, the measurement and the modes are in their ranges. The settings, which cost most, come last.
pub fn valid_source(s: Source) -> bool
    ensures { ValidSource s result }
{
    units::check_measurement(s.measurement).is_ok()
        && valid_modes(s.modes)
        && fixed::are_settings(s.settings)
}
