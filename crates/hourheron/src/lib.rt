// For a C host: the writers, the readers, the owner's part, packed records as text, old lines moved, the conversion and the checksum, on
// numbers and byte slices; the line collector that the host keeps; and for the camera side the cutter and the
// recorder, by value. No rule of the paper stands here.
#![tactic(auto)]

ghost use Rattle.std.specs.Prelude.{true, ◌≡◌, Ok, Err};
ghost use Rattle.frame.specs.Message.{room_for};
ghost use Rattle.layout.specs.Layout.{record_bytes, record_width, fixed_bytes, fixed_width};
ghost use Rattle.cutter.specs.Cutter.{fresh};
ghost use Rattle.recorder.specs.Recorder.{has_made, is_opening};
ghost use Rattle.hourheron.specs.Host.{answer_of, Lays};
ghost use Rattle.hourheron.specs.Cuts.{cut_with, cut_to};
ghost use Rattle.hourheron.specs.Takes.{send_to, LaysReading, LaysTaken};
ghost use Rattle.hourheron.specs.Clauses.{HeronConvert, HeronChecksum, HeronWriteText, HeronWritePacked, HeronReadText, HeronReadPacked, HeronOldToNew, HeronNewToOld, HeronPackedToText, HeronPackedToTextByRecord, HeronWriteFixed, HeronReadFixed, HeronOwnerStart, HeronOwnerLen, HeronCollect, HeronCutTextValue, HeronCutPackedValue, HeronCutFixedValue, HeronCutMessageValue, HeronRecorderFirst, HeronRecorderStart, HeronRecorderSendValue, HeronRecorderTakeValue};

use collector::Collected;
use cutter::{Cut, Cutter};
use fixed::{Fixed, Lens};
use line::Line;
use record::{Figures, Record};
use recorder::{HandedOut, Reading, Recorder, Setup};
use refusal::Refusal;

// The refusal's number, or 0; and the value that comes with it, or the count: C has no Result. So it is with the structs below.
#[repr(C)]
#[derive(Clone, Copy)]
pub struct Answer {
    pub number: u32,
    pub value: u64,
}

// The refusal's number, or 0; refused, the field; done, the number converted.
#[repr(C)]
#[derive(Clone, Copy)]
pub struct Conversion {
    pub number: u32,
    pub field: u32,
    pub value: i32,
}

// What a call makes of a piece of a stream: an answer; how many bytes it used; whether a message ended with them; and
// the cutter for what follows.
#[repr(C)]
#[derive(Clone, Copy)]
pub struct CutValue {
    pub number: u32,
    pub value: u64,
    pub used: usize,
    pub ended: bool,
    pub cutter: Cutter,
}

// What a recorder hands out to be sent.
#[repr(C)]
#[derive(Clone, Copy)]
pub struct SendValue {
    pub number: u32,
    pub value: u64,
    pub recorder: Recorder,
}

// What a recorder makes of a piece: as a cutter, and whether the message was read as fixed data.
#[repr(C)]
#[derive(Clone, Copy)]
pub struct TakeValue {
    pub number: u32,
    pub value: u64,
    pub used: usize,
    pub ended: bool,
    pub opening: bool,
    pub recorder: Recorder,
}

// ---- the answers

fn done(n: usize) -> Answer
    ensures { result ≡ answer_of (Ok n) }
{
    Answer {
        number: 0,
        value: n as u64,
    }
}

fn refuse(x: Refusal) -> Answer
    ensures { result ≡ answer_of (Err x) }
{
    Answer {
        number: refusal::number_of(x),
        value: refusal::value_of(x) as u64,
    }
}

fn answer_of(w: Result<usize, Refusal>) -> Answer
    ensures { result ≡ answer_of w }
{
    match w {
        Ok(n) => done(n),
        Err(x) => refuse(x),
    }
}

// 2 with the bytes that are needed, or their count.
fn answer_room(width: usize, room: usize) -> Answer
    ensures { result ≡ answer_of (room_for width room) }
{
    if room < width {
        return refuse(Refusal::Room(width));
    }
    done(width)
}

// ---- the conversion and the checksum

// A number of a field in the wanted unit.
pub fn heron_convert(field: u32, number: i32, unit: u8, wanted: u8) -> Conversion
    ensures { HeronConvert field number unit wanted result }
{
    match units::convert(field, number, unit, wanted) {
        Ok(value) => Conversion {
            number: 0,
            field: 0,
            value,
        },
        Err(x) => Conversion {
            number: refusal::number_of(x),
            field: refusal::value_of(x) as u32,
            value: 0,
        },
    }
}

// The checksum of some bytes: its first character times 256, and its second.
pub fn heron_checksum(bytes: &[u8]) -> Answer
    ensures { HeronChecksum bytes.now result }
{
    let sum = frame::sum_of(bytes);
    done(sum.high as usize * 256 + sum.low as usize)
}

// ---- the writers of a record

// Writes a record as text.
pub fn heron_write_text(
    focus: u32,
    aperture: u32,
    stop: u32,
    tenth: u32,
    focal: u32,
    hyperfocal: u32,
    near: u32,
    far: u32,
    view: u32,
    pupil: i32,
    zoom: u32,
    serial: &[u8],
    checksum: bool,
    out: &mut [u8],
) -> Answer
    ensures { HeronWriteText focus aperture stop tenth focal hyperfocal near far view pupil zoom
        serial.now checksum out.old result out.new }
{
    let figures = Figures {
        focus,
        aperture,
        stop,
        tenth,
        focal,
        hyperfocal,
        near,
        far,
        view,
        pupil,
        zoom,
    };
    let record = serial::record_from(figures, serial);
    answer_of(transfer::record_to_text(record, checksum, out))
}

// Writes a record packed.
pub fn heron_write_packed(
    focus: u32,
    aperture: u32,
    stop: u32,
    tenth: u32,
    focal: u32,
    hyperfocal: u32,
    near: u32,
    far: u32,
    view: u32,
    pupil: i32,
    zoom: u32,
    serial: &[u8],
    checksum: bool,
    out: &mut [u8],
) -> Answer
    ensures { HeronWritePacked focus aperture stop tenth focal hyperfocal near far view pupil zoom
        serial.now checksum out.old result out.new }
{
    let figures = Figures {
        focus,
        aperture,
        stop,
        tenth,
        focal,
        hyperfocal,
        near,
        far,
        view,
        pupil,
        zoom,
    };
    let record = serial::record_from(figures, serial);
    answer_of(packed_writer::write_packed(record, checksum, out))
}

// ---- the readers of a record

// Puts what a reader answered into the lent memory. (Without room nothing is put.)
fn lay_record(read: Result<Record, Refusal>, out: &mut [u8]) -> Answer
    ensures { Lays record_bytes record_width read out.old result out.new }
{
    match read {
        Ok(contents) => {
            let room = out.len();
            layout::put_record(out, contents);
            answer_room(layout::RECORD_WIDTH, room)
        }
        Err(x) => refuse(x),
    }
}

// Reads a text record into the lent memory.
pub fn heron_read_text(message: &[u8], checksum: bool, out: &mut [u8]) -> Answer
    ensures { HeronReadText message.now checksum out.old result out.new }
{
    lay_record(text_reader::read_text(message, checksum), out)
}

// Reads a packed record into the lent memory.
pub fn heron_read_packed(message: &[u8], checksum: bool, out: &mut [u8]) -> Answer
    ensures { HeronReadPacked message.now checksum out.old result out.new }
{
    lay_record(packed_reader::read_packed(message, checksum), out)
}

// ---- old text records

// Moves an old line to the present form, with this serial.
pub fn heron_old_to_new(message: &[u8], serial: &[u8], out: &mut [u8]) -> Answer
    ensures { HeronOldToNew message.now serial.now out.old result out.new }
{
    answer_of(archive::old_to_new(message, serial, out))
}

// Moves a line of the present form back.
pub fn heron_new_to_old(message: &[u8], out: &mut [u8]) -> Answer
    ensures { HeronNewToOld message.now out.old result out.new }
{
    answer_of(archive::new_to_old(message, out))
}

// ---- packed records as text

// Turns a packed record's message into its text message.
pub fn heron_packed_to_text(message: &[u8], checksum: bool, out: &mut [u8]) -> Answer
    ensures { HeronPackedToText message.now checksum out.old result out.new }
{
    answer_of(transfer::packed_to_text(message, checksum, out))
}

// Does the same by way of the record.
pub fn heron_packed_to_text_by_record(message: &[u8], checksum: bool, out: &mut [u8]) -> Answer
    ensures { HeronPackedToTextByRecord message.now checksum out.old result out.new }
{
    answer_of(transfer::by_record(message, checksum, out))
}

// ---- the fixed data

// Writes an N message.
pub fn heron_write_fixed(
    serial: &[u8],
    owner: &[u8],
    kind: u8,
    focal: u32,
    maximum: u32,
    letter: u8,
    transmission: u32,
    version: &[u8],
    checksum: bool,
    out: &mut [u8],
) -> Answer
    ensures { HeronWriteFixed serial.now owner.now kind focal maximum letter transmission
        version.now checksum out.old result out.new }
{
    let lens = Lens {
        kind,
        focal,
        maximum,
        letter,
        transmission,
    };
    let fixed = fixed::fixed_from(serial, owner, lens, version);
    answer_of(nwriter::write_fixed(fixed, checksum, out))
}

// Puts what the reader answered into the lent memory. (Without room nothing is put.)
fn lay_fixed(read: Result<Fixed, Refusal>, out: &mut [u8]) -> Answer
    ensures { Lays fixed_bytes fixed_width read out.old result out.new }
{
    match read {
        Ok(contents) => {
            let room = out.len();
            layout::put_fixed(out, contents);
            answer_room(layout::FIXED_WIDTH, room)
        }
        Err(x) => refuse(x),
    }
}

// Reads an N message into the lent memory.
pub fn heron_read_fixed(message: &[u8], checksum: bool, out: &mut [u8]) -> Answer
    ensures { HeronReadFixed message.now checksum out.old result out.new }
{
    lay_fixed(nreader::read_fixed(message, checksum), out)
}

// Where the owner's part of an N message starts.
pub fn heron_owner_start(message: &[u8], checksum: bool) -> Answer
    ensures { HeronOwnerStart message.now checksum result }
{
    match nreader::read_fixed(message, checksum) {
        Ok(_) => done(12),
        Err(x) => refuse(x),
    }
}

// How long the owner's part of an N message is, without its trailing spaces.
pub fn heron_owner_len(message: &[u8], checksum: bool) -> Answer
    ensures { HeronOwnerLen message.now checksum result }
{
    match nreader::read_fixed(message, checksum) {
        Ok(fixed) => done(nreader::trimmed_length(&fixed.owner)),
        Err(x) => refuse(x),
    }
}

// ---- the line collector

// A received byte, to a collector that is updated where it is kept.
pub fn heron_collect(line: &mut Line, byte: u8) -> Collected
    ensures { HeronCollect line.old byte result line.new }
{
    collector::collect(line, byte)
}

// ---- the cutter

// What a cutter answered.
fn handed(cut: Cut) -> CutValue
    ensures { result ≡ cut_to cut }
{
    let answer = answer_of(cut.wrote);
    CutValue {
        number: answer.number,
        value: answer.value,
        used: cut.used,
        ended: cut.ended,
        cutter: cut.cutter,
    }
}

// A message ended, and this is the answer to it.
fn ended(answer: Answer, used: usize) -> CutValue
    ensures { result ≡ cut_with answer used true fresh }
{
    CutValue {
        number: answer.number,
        value: answer.value,
        used,
        ended: true,
        cutter: Cutter::fresh(),
    }
}

// Takes a piece up to the first end of a message, which is read as a text record, or all of it.
// (These three share no generic function: a trait of a reader and a layout, with three impls, is longer than they are.)
pub fn heron_cut_text_value(
    cutter: Cutter,
    piece: &[u8],
    checksum: bool,
    out: &mut [u8],
) -> CutValue
    ensures { HeronCutTextValue cutter piece.now checksum out.old result out.new }
{
    let Some(n) = cutter.end_in(piece) else {
        return handed(cutter.hold(piece));
    };
    let read = cut_reader::read_text(cutter, &piece[..n], checksum);
    ended(lay_record(read, out), n)
}

// Takes a piece up to the first end of a message, which is read as a packed record, or all of it.
pub fn heron_cut_packed_value(
    cutter: Cutter,
    piece: &[u8],
    checksum: bool,
    out: &mut [u8],
) -> CutValue
    ensures { HeronCutPackedValue cutter piece.now checksum out.old result out.new }
{
    let Some(n) = cutter.end_in(piece) else {
        return handed(cutter.hold(piece));
    };
    let read = cut_reader::read_packed(cutter, &piece[..n], checksum);
    ended(lay_record(read, out), n)
}

// Takes a piece up to the first end of a message, which is read as fixed data, or all of it.
pub fn heron_cut_fixed_value(
    cutter: Cutter,
    piece: &[u8],
    checksum: bool,
    out: &mut [u8],
) -> CutValue
    ensures { HeronCutFixedValue cutter piece.now checksum out.old result out.new }
{
    let Some(n) = cutter.end_in(piece) else {
        return handed(cutter.hold(piece));
    };
    let read = cut_reader::read_fixed(cutter, &piece[..n], checksum);
    ended(lay_fixed(read, out), n)
}

// The same with the message itself handed out.
pub fn heron_cut_message_value(cutter: Cutter, piece: &[u8], out: &mut [u8]) -> CutValue
    ensures { HeronCutMessageValue cutter piece.now out.old result out.new }
{
    handed(cutter.cut(piece, out))
}

// ---- the recorder

// A recorder with the settings that one starts with.
pub fn heron_recorder_first() -> Recorder
    ensures { HeronRecorderFirst result }
{
    Recorder::start(Setup::first())
}

// A recorder with these settings.
pub fn heron_recorder_start(packed: bool, checksum: bool) -> Recorder
    ensures { HeronRecorderStart packed checksum result }
{
    Recorder::start(Setup { packed, checksum })
}

fn handed_out(sending: HandedOut) -> SendValue
    ensures { result ≡ send_to sending }
{
    let answer = answer_of(sending.wrote);
    SendValue {
        number: answer.number,
        value: answer.value,
        recorder: sending.recorder,
    }
}

// What it has to send, to the lent memory.
pub fn heron_recorder_send_value(recorder: Recorder, out: &mut [u8]) -> SendValue
    ensures { HeronRecorderSendValue recorder out.old result out.new }
{
    handed_out(recorder.send(out))
}

// Puts what a message was read as into the lent memory.
fn lay_reading(reading: Reading, out: &mut [u8]) -> Answer
    ensures { LaysReading reading out.old result out.new }
{
    match reading {
        Reading::Fixed(read) => lay_fixed(read, out),
        Reading::Record(read) => lay_record(read, out),
    }
}

// The answer to a piece: that to the message that ended, where one did; else done with nothing; or 16.
fn lay_taken(made: Result<Option<Reading>, Refusal>, out: &mut [u8]) -> Answer
    ensures { LaysTaken made out.old result out.new }
{
    match made {
        Ok(Some(reading)) => lay_reading(reading, out),
        Ok(None) => done(0),
        Err(x) => refuse(x),
    }
}

// Whether a message ended.
fn has_made(made: Result<Option<Reading>, Refusal>) -> bool
    ensures { result ≡ has_made made }
{
    matches!(made, Ok(Some(_)))
}

// Whether one ended and was read as fixed data.
fn is_opening(made: Result<Option<Reading>, Refusal>) -> bool
    ensures { result ≡ is_opening made }
{
    matches!(made, Ok(Some(Reading::Fixed(_))))
}

// Takes a piece up to the first end of a message, which is read as the recorder reads it, or all of it.
pub fn heron_recorder_take_value(recorder: Recorder, piece: &[u8], out: &mut [u8]) -> TakeValue
    ensures { HeronRecorderTakeValue recorder piece.now out.old result out.new }
{
    let taken = recorder.take(piece);
    let answer = lay_taken(taken.made, out);
    TakeValue {
        number: answer.number,
        value: answer.value,
        used: taken.used,
        ended: has_made(taken.made),
        opening: is_opening(taken.made),
        recorder: taken.recorder,
    }
}
