// The table of commands: what each does to the source, and its reply, a message under the modes after the
// command.
#![tactic(auto)]

ghost use Rattle.std.specs.Prelude.{◌≡◌, [], ◌∷◌, ◌≤◌};
ghost use Rattle.frame.specs.Frame.{framed};
ghost use Rattle.fixed.specs.Form.{fixed_form};
ghost use Rattle.units.specs.Measurement.{degrees};
ghost use Rattle.line.specs.Command.{InRange};
ghost use Rattle.line.specs.declared.Command.TheVariants as lines;
ghost use Rattle.state.specs.State.{unsent};
ghost use Rattle.rules.specs.Does as table;
ghost use Rattle.reply.specs.Reply.{acted_of};
ghost use Rattle.reply.specs.Clauses.{Act, Counts, IsContinuous, RecordMessage};

use line::{Command, Line};
use record::Record;
use state::{MESSAGE_LENGTH, Message, Modes, Sending, Source, State};

// A command acted on: the source after it, and the message of its reply, of length 0 where it has none.
#[derive(Clone, Copy)]
pub struct Acted {
    pub source: Source,
    pub message: Message,
}

// ---- records

// The record of the measurement in the display unit.
fn record_now(source: Source) -> Record
    ensures { result ≡ table.record_now source }
{
    let serial = source.settings.fixed.serial;
    units::record_of(source.measurement, source.modes.unit, serial)
}

// The record in this form; where continuous sending is off, the text.
fn record_in(source: Source, form: Sending) -> Message
    ensures { result ≡ unsent (framed source.modes.checksum (table.record_is form source)) }
{
    let record = record_now(source);
    let checksum = source.modes.checksum;
    match form {
        Sending::Off | Sending::Text => messages::text_message(record, checksum),
        Sending::Packed => messages::packed_message(record, checksum),
    }
}

// ---- replies: each under the modes after the command

// No reply.
fn silent(source: Source) -> Acted
    ensures { result ≡ acted_of (table.silent source) }
{
    let message = Message {
        bytes: [0u8; MESSAGE_LENGTH],
        len: 0,
        at: 0,
    };
    Acted { source, message }
}

// One byte.
fn answer(source: Source, byte: u8) -> Acted
    ensures { result ≡ acted_of (table.replies source (byte ∷ [])) }
{
    let message = messages::letter_message(byte, source.modes.checksum);
    Acted { source, message }
}

// B: the version.
fn version(source: Source) -> Acted
    ensures { result ≡ acted_of (table.replies source (66 ∷ 32 ∷ source.settings.fixed.version)) }
{
    let version = source.settings.fixed.version;
    let message = messages::version_message(version, source.modes.checksum);
    Acted { source, message }
}

// K3: the maker's name.
fn maker(source: Source) -> Acted
    ensures { result ≡ acted_of (table.replies source (75 ∷ 51 ∷ source.settings.maker)) }
{
    let message = messages::maker_message(source.settings.maker, source.modes.checksum);
    Acted { source, message }
}

// K4: the name of the type.
fn type_name(source: Source) -> Acted
    ensures { result ≡ acted_of (table.replies source (75 ∷ 52 ∷ source.settings.type_name)) }
{
    let message = messages::type_message(source.settings.type_name, source.modes.checksum);
    Acted { source, message }
}

// D, Kd: one record.
fn record_reply(source: Source, form: Sending) -> Acted
    ensures { result ≡ acted_of (table.replies source (table.record_is form source)) }
{
    let message = record_in(source, form);
    Acted { source, message }
}

// N: the fixed data.
fn fixed_data(source: Source) -> Acted
    ensures { result ≡ acted_of (table.replies source (fixed_form.print source.settings.fixed)) }
{
    let message = messages::fixed_message(source.settings.fixed, source.modes.checksum);
    Acted { source, message }
}

// P: the temperature.
fn temperature(source: Source) -> Acted
    ensures { result ≡ acted_of (table.replies source (80 ∷ degrees source.measurement.temperature)) }
{
    let t = source.measurement.temperature;
    let message = messages::degrees_message(t, source.modes.checksum);
    Acted { source, message }
}

// V, W: the film, and its blur circle.
fn film(source: Source, letter: u8, n: u8) -> Acted
    requires { n ≤ 31 }
    ensures { result ≡ acted_of (table.filmed letter n source) }
{
    let mut after = source;
    after.modes.film = n;
    let circle = source.settings.blur[n as usize];
    let message = messages::blur_message(letter, circle, source.modes.checksum);
    Acted {
        source: after,
        message,
    }
}

// Kb: the rate that follows.
fn rate(source: Source, n: u8) -> Acted
    requires { n ≤ 7 }
    ensures { result ≡ acted_of (table.runs source (lines.Kb n)) }
{
    let mut after = source;
    after.modes.next_rate = n;
    let message = messages::rate_message(b'0' + n, source.modes.checksum);
    Acted {
        source: after,
        message,
    }
}

// The start-up letter after X or Y: B and b become this one.
fn relettered(to: u8, letter: u8) -> u8
    ensures { result ≡ table.relettered to letter }
{
    if (letter == b'B') | (letter == b'b') {
        return to;
    }
    letter
}

// X, Y: the display unit, and the start-up letter by it.
fn unit(source: Source, unit: u8, to: u8, byte: u8) -> Acted
    ensures { result ≡ acted_of (table.replies (table.unit_with unit to source) (byte ∷ [])) }
{
    let mut after = source;
    after.settings.fixed.lens.letter = relettered(to, source.settings.fixed.lens.letter);
    after.modes.unit = unit;
    answer(after, byte)
}

// A change of modes, answered with !.
fn changed(source: Source, modes: Modes) -> Acted
    ensures { result ≡ acted_of (table.replies (table.with_modes source modes) (33 ∷ [])) }
{
    let mut after = source;
    after.modes = modes;
    let message = messages::letter_message(b'!', modes.checksum);
    Acted {
        source: after,
        message,
    }
}

// C, Kc: continuous sending.
fn sending_on(source: Source, sending: Sending) -> Acted
    ensures { result ≡ acted_of (table.replies (table.with_modes source (table.sending_now sending source.modes)) (33 ∷ [])) }
{
    let mut modes = source.modes;
    modes.sending = sending;
    changed(source, modes)
}

// G: checksum on.
fn checksum_on(source: Source) -> Acted
    ensures { result ≡ acted_of (table.replies (table.with_modes source (table.checksum_now source.modes)) (33 ∷ [])) }
{
    let mut modes = source.modes;
    modes.checksum = true;
    changed(source, modes)
}

// Ka: error inhibit on.
fn inhibit_on(source: Source) -> Acted
    ensures { result ≡ acted_of (table.replies (table.with_modes source (table.inhibit_now source.modes)) (33 ∷ [])) }
{
    let mut modes = source.modes;
    modes.inhibit = true;
    changed(source, modes)
}

// H: continuous, checksum, inhibit off.
fn all_off(source: Source) -> Acted
    ensures { result ≡ acted_of (table.replies (table.with_modes source (table.quiet_now source.modes)) (33 ∷ [])) }
{
    let modes = Modes {
        sending: Sending::Off,
        checksum: false,
        inhibit: false,
        ..source.modes
    };
    changed(source, modes)
}

// Every other line: ?, or no reply when inhibited.
fn unknown(source: Source) -> Acted
    ensures { result ≡ acted_of (table.runs source lines.Unknown) }
{
    if source.modes.inhibit {
        return silent(source);
    }
    answer(source, b'?')
}

// ---- the table

// In running, by the letters of the command.
fn running(source: Source, command: Command) -> Acted
    requires { InRange command }
    ensures { result ≡ acted_of (table.runs source command) }
{
    match command {
        Command::B => version(source),
        Command::C => sending_on(source, Sending::Text),
        Command::D => record_reply(source, Sending::Text),
        Command::G => checksum_on(source),
        Command::H => all_off(source),
        Command::Ka => inhibit_on(source),
        Command::Kb(n) => rate(source, n),
        Command::Kc => sending_on(source, Sending::Packed),
        Command::Kd => record_reply(source, Sending::Packed),
        Command::K3 => maker(source),
        Command::K4 => type_name(source),
        Command::N => fixed_data(source),
        Command::P => temperature(source),
        Command::V => film(source, b'V', 0),
        Command::W(n) => film(source, b'W', n),
        Command::X => unit(source, b'I', b'B', b'X'),
        Command::Y => unit(source, b'M', b'b', b'Y'),
        Command::Unknown => unknown(source),
    }
}

fn is_n(command: Command) -> bool
    ensures { result ≡ table.is_n command }
{
    matches!(command, Command::N)
}

// The fixed data, and on to running.
fn woken(source: Source) -> Acted
    ensures { result ≡ acted_of (table.wakes source) }
{
    let mut after = source;
    after.modes.state = State::Running;
    fixed_data(after)
}

// In ready: N is answered, everything else is <.
fn ready(source: Source, command: Command) -> Acted
    ensures { result ≡ acted_of (table.readies source command) }
{
    if is_n(command) {
        return woken(source);
    }
    answer(source, b'<')
}

// The line that waited, acted on.
pub fn act(source: Source, line: Line) -> Acted
    ensures { Act source line result }
{
    let command = line.command();
    match source.modes.state {
        State::Ready => ready(source, command),
        State::Running => running(source, command),
    }
}

// Whether its reply counts as one once it is sent: < does not.
pub fn counts(source: Source, line: Line) -> bool
    ensures { Counts source line result }
{
    let command = line.command();
    match source.modes.state {
        State::Ready => is_n(command),
        State::Running => true,
    }
}

// Whether continuous sending is on.
pub fn is_continuous(source: Source) -> bool
    ensures { IsContinuous source result }
{
    source.modes.sending != Sending::Off
}

// The record that continuous sending starts.
pub fn record_message(source: Source) -> Message
    ensures { RecordMessage source result }
{
    record_in(source, source.modes.sending)
}
