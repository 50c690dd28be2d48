// The C host's symbols: each export is the function of crate hourheron of its name, with the same clause and nothing of its own.
#![tactic(auto)]

ghost use Rattle.hourheron.specs.Clauses.{HeronConvert, HeronChecksum, HeronWriteText, HeronWritePacked, HeronReadText, HeronReadPacked, HeronOldToNew, HeronNewToOld, HeronPackedToText, HeronPackedToTextByRecord, HeronWriteFixed, HeronReadFixed, HeronOwnerStart, HeronOwnerLen, HeronCollect, HeronCutTextValue, HeronCutPackedValue, HeronCutFixedValue, HeronCutMessageValue, HeronRecorderFirst, HeronRecorderStart, HeronRecorderSendValue, HeronRecorderTakeValue};

use collector::Collected;
use cutter::Cutter;
use hourheron::{Answer, Conversion, CutValue, SendValue, TakeValue};
use line::Line;
use recorder::Recorder;

#[unsafe(no_mangle)]
pub extern "C" fn heron_convert(field: u32, number: i32, unit: u8, wanted: u8) -> Conversion
    ensures { HeronConvert field number unit wanted result }
{
    hourheron::heron_convert(field, number, unit, wanted)
}

#[unsafe(no_mangle)]
pub extern "C" fn heron_checksum(bytes: &[u8]) -> Answer
    ensures { HeronChecksum bytes.now result }
{
    hourheron::heron_checksum(bytes)
}

#[unsafe(no_mangle)]
pub extern "C" fn heron_write_text(
    focus: u32,
    aperture: u32,
    stop: u32,
    tenth: u32,
    focal: u32,
    hyperfocal: u32,
    near: u32,
    far: u32,
    view: u32,
    pupil: i32,
    zoom: u32,
    serial: &[u8],
    checksum: bool,
    out: &mut [u8],
) -> Answer
    ensures { HeronWriteText focus aperture stop tenth focal hyperfocal near far view pupil zoom
        serial.now checksum out.old result out.new }
{
    hourheron::heron_write_text(
        focus, aperture, stop, tenth, focal, hyperfocal, near, far, view, pupil, zoom, serial,
        checksum, out,
    )
}

#[unsafe(no_mangle)]
pub extern "C" fn heron_write_packed(
    focus: u32,
    aperture: u32,
    stop: u32,
    tenth: u32,
    focal: u32,
    hyperfocal: u32,
    near: u32,
    far: u32,
    view: u32,
    pupil: i32,
    zoom: u32,
    serial: &[u8],
    checksum: bool,
    out: &mut [u8],
) -> Answer
    ensures { HeronWritePacked focus aperture stop tenth focal hyperfocal near far view pupil zoom
        serial.now checksum out.old result out.new }
{
    hourheron::heron_write_packed(
        focus, aperture, stop, tenth, focal, hyperfocal, near, far, view, pupil, zoom, serial,
        checksum, out,
    )
}

#[unsafe(no_mangle)]
pub extern "C" fn heron_read_text(message: &[u8], checksum: bool, out: &mut [u8]) -> Answer
    ensures { HeronReadText message.now checksum out.old result out.new }
{
    hourheron::heron_read_text(message, checksum, out)
}

#[unsafe(no_mangle)]
pub extern "C" fn heron_read_packed(message: &[u8], checksum: bool, out: &mut [u8]) -> Answer
    ensures { HeronReadPacked message.now checksum out.old result out.new }
{
    hourheron::heron_read_packed(message, checksum, out)
}

#[unsafe(no_mangle)]
pub extern "C" fn heron_old_to_new(message: &[u8], serial: &[u8], out: &mut [u8]) -> Answer
    ensures { HeronOldToNew message.now serial.now out.old result out.new }
{
    hourheron::heron_old_to_new(message, serial, out)
}

#[unsafe(no_mangle)]
pub extern "C" fn heron_new_to_old(message: &[u8], out: &mut [u8]) -> Answer
    ensures { HeronNewToOld message.now out.old result out.new }
{
    hourheron::heron_new_to_old(message, out)
}

#[unsafe(no_mangle)]
pub extern "C" fn heron_packed_to_text(message: &[u8], checksum: bool, out: &mut [u8]) -> Answer
    ensures { HeronPackedToText message.now checksum out.old result out.new }
{
    hourheron::heron_packed_to_text(message, checksum, out)
}

#[unsafe(no_mangle)]
pub extern "C" fn heron_packed_to_text_by_record(
    message: &[u8],
    checksum: bool,
    out: &mut [u8],
) -> Answer
    ensures { HeronPackedToTextByRecord message.now checksum out.old result out.new }
{
    hourheron::heron_packed_to_text_by_record(message, checksum, out)
}

#[unsafe(no_mangle)]
pub extern "C" fn heron_write_fixed(
    serial: &[u8],
    owner: &[u8],
    kind: u8,
    focal: u32,
    maximum: u32,
    letter: u8,
    transmission: u32,
    version: &[u8],
    checksum: bool,
    out: &mut [u8],
) -> Answer
    ensures { HeronWriteFixed serial.now owner.now kind focal maximum letter transmission
        version.now checksum out.old result out.new }
{
    hourheron::heron_write_fixed(
        serial,
        owner,
        kind,
        focal,
        maximum,
        letter,
        transmission,
        version,
        checksum,
        out,
    )
}

#[unsafe(no_mangle)]
pub extern "C" fn heron_read_fixed(message: &[u8], checksum: bool, out: &mut [u8]) -> Answer
    ensures { HeronReadFixed message.now checksum out.old result out.new }
{
    hourheron::heron_read_fixed(message, checksum, out)
}

#[unsafe(no_mangle)]
pub extern "C" fn heron_owner_start(message: &[u8], checksum: bool) -> Answer
    ensures { HeronOwnerStart message.now checksum result }
{
    hourheron::heron_owner_start(message, checksum)
}

#[unsafe(no_mangle)]
pub extern "C" fn heron_owner_len(message: &[u8], checksum: bool) -> Answer
    ensures { HeronOwnerLen message.now checksum result }
{
    hourheron::heron_owner_len(message, checksum)
}

#[unsafe(no_mangle)]
pub extern "C" fn heron_collect(line: &mut Line, byte: u8) -> Collected
    ensures { HeronCollect line.old byte result line.new }
{
    hourheron::heron_collect(line, byte)
}

#[unsafe(no_mangle)]
pub extern "C" fn heron_cut_text_value(
    cutter: Cutter,
    piece: &[u8],
    checksum: bool,
    out: &mut [u8],
) -> CutValue
    ensures { HeronCutTextValue cutter piece.now checksum out.old result out.new }
{
    hourheron::heron_cut_text_value(cutter, piece, checksum, out)
}

#[unsafe(no_mangle)]
pub extern "C" fn heron_cut_packed_value(
    cutter: Cutter,
    piece: &[u8],
    checksum: bool,
    out: &mut [u8],
) -> CutValue
    ensures { HeronCutPackedValue cutter piece.now checksum out.old result out.new }
{
    hourheron::heron_cut_packed_value(cutter, piece, checksum, out)
}

#[unsafe(no_mangle)]
pub extern "C" fn heron_cut_fixed_value(
    cutter: Cutter,
    piece: &[u8],
    checksum: bool,
    out: &mut [u8],
) -> CutValue
    ensures { HeronCutFixedValue cutter piece.now checksum out.old result out.new }
{
    hourheron::heron_cut_fixed_value(cutter, piece, checksum, out)
}

#[unsafe(no_mangle)]
pub extern "C" fn heron_cut_message_value(cutter: Cutter, piece: &[u8], out: &mut [u8]) -> CutValue
    ensures { HeronCutMessageValue cutter piece.now out.old result out.new }
{
    hourheron::heron_cut_message_value(cutter, piece, out)
}

#[unsafe(no_mangle)]
pub extern "C" fn heron_recorder_first() -> Recorder
    ensures { HeronRecorderFirst result }
{
    hourheron::heron_recorder_first()
}

#[unsafe(no_mangle)]
pub extern "C" fn heron_recorder_start(packed: bool, checksum: bool) -> Recorder
    ensures { HeronRecorderStart packed checksum result }
{
    hourheron::heron_recorder_start(packed, checksum)
}

#[unsafe(no_mangle)]
pub extern "C" fn heron_recorder_send_value(recorder: Recorder, out: &mut [u8]) -> SendValue
    ensures { HeronRecorderSendValue recorder out.old result out.new }
{
    hourheron::heron_recorder_send_value(recorder, out)
}

#[unsafe(no_mangle)]
pub extern "C" fn heron_recorder_take_value(
    recorder: Recorder,
    piece: &[u8],
    out: &mut [u8],
) -> TakeValue
    ensures { HeronRecorderTakeValue recorder piece.now out.old result out.new }
{
    hourheron::heron_recorder_take_value(recorder, piece, out)
}
