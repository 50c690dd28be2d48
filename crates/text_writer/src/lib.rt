// The writer of the text record (message D). The form is `text_form` of the crate record; each group of
// fields has a function that writes it.
#![tactic(auto)]

ghost use Rattle.std.specs.Prelude.{◌≡◌};
ghost use Rattle.laws.specs.Over.{over};
ghost use Rattle.record.specs.Forms.{front_text, middle_text, front_of, middle_of};
ghost use Rattle.text_writer.specs.Clauses.{PutTen, PutTextRecord, WriteText};

use record::{Figures, Record, TEN_LENGTH, TEXT_LENGTH};
use refusal::Refusal;

// Writes D, T, t, +.
fn put_front(out: &mut [u8; TEN_LENGTH], f: Figures)
    ensures { out.new ≡ over out.old 0 (front_text.print (front_of f)) }
{
    codec::put_tagged(out, 0, b'D', 7, f.focus);
    codec::put_tagged(out, 8, b'T', 4, f.aperture);
    lent::put_byte(out, 13, b't');
    stop::put_stop_text(out, 14, f.stop);
    codec::put_tagged(out, 17, b'+', 1, f.tenth);
}

// Writes Z, H, N, F.
fn put_middle(out: &mut [u8; TEN_LENGTH], f: Figures)
    ensures { out.new ≡ over out.old 19 (middle_text.print (middle_of f)) }
{
    codec::put_tagged(out, 19, b'Z', 4, f.focal);
    codec::put_tagged(out, 24, b'H', 7, f.hyperfocal);
    codec::put_tagged(out, 32, b'N', 7, f.near);
    codec::put_tagged(out, 40, b'F', 7, f.far);
}

// Writes fields 1 to 10, the same in an old line; nothing where they do not fit.
pub fn put_ten(out: &mut [u8], f: Figures)
    ensures { PutTen out.old f out.new }
{
    let Some(out) = out.first_chunk_mut::<TEN_LENGTH>() else {
        return;
    };
    put_front(out, f);
    put_middle(out, f);
    lent::put_byte(out, 48, b'V');
    pointed::put_pointed(out, 49, 3, f.view);
    pupil::put_pupil_text(out, 54, f.pupil);
}

// Writes a record's contents; nothing where they do not fit.
pub fn put_text_record(out: &mut [u8], r: Record)
    ensures { PutTextRecord out.old r out.new }
{
    if out.len() < TEXT_LENGTH {
        return;
    }
    let figures = r.figures;
    let serial = r.serial;
    put_ten(out, figures);
    codec::put_tagged(out, TEN_LENGTH, b'z', 4, figures.zoom);
    serial::put_serial(out, 64, serial);
}

// Writes the message of a record at the start of the lent memory.
pub fn write_text(r: Record, checksum: bool, out: &mut [u8]) -> Result<usize, Refusal>
    ensures { WriteText r checksum out.old result out.new }
{
    if let Some(lowest) = record::lowest_field(r) {
        return Err(Refusal::Field(lowest));
    }
    let n = frame::room_for(out.len(), TEXT_LENGTH as u32, checksum)?;
    put_text_record(out, r);
    frame::put_ending(out, TEXT_LENGTH, checksum);
    Ok(n)
}
