// The writer of the packed record (command Kd). 39 bytes of contents, in groups: front 0..9, middle
// 9..23, back 23..29, serial 29..39.
#![tactic(auto)]

ghost use Rattle.std.specs.Prelude.{◌≡◌};
ghost use Rattle.laws.specs.Over.{over};
ghost use Rattle.record.specs.Forms.{front_packed, middle_packed, back_packed, front_of, middle_of, back_of};
ghost use Rattle.packed_writer.specs.Clauses.{PutPackedRecord, WritePacked};

use record::{Figures, PACKED_LENGTH, Record};
use refusal::Refusal;

// Writes d and four groups, two groups, the shared pair.
fn put_front(out: &mut [u8; PACKED_LENGTH], f: Figures)
    ensures { out.new ≡ over out.old 0 (front_packed.print (front_of f)) }
{
    lent::put_byte(out, 0, b'd');
    digits::put_groups(out, 1, 4, f.focus);
    digits::put_groups(out, 5, 2, f.aperture);
    stop::put_stop_pair(out, 7, f.stop, f.tenth);
}

// Writes the focal length and three distances.
fn put_middle(out: &mut [u8; PACKED_LENGTH], f: Figures)
    ensures { out.new ≡ over out.old 9 (middle_packed.print (middle_of f)) }
{
    digits::put_groups(out, 9, 2, f.focal);
    digits::put_groups(out, 11, 4, f.hyperfocal);
    digits::put_groups(out, 15, 4, f.near);
    digits::put_groups(out, 19, 4, f.far);
}

// Writes the view, the pupil and the zoom.
fn put_back(out: &mut [u8; PACKED_LENGTH], f: Figures)
    ensures { out.new ≡ over out.old 23 (back_packed.print (back_of f)) }
{
    let e = f.pupil;
    digits::put_groups(out, 23, 2, f.view);
    pupil::put_pupil_packed(out, 25, e);
    digits::put_groups(out, 27, 2, f.zoom);
}

// Writes a record's contents; nothing where they do not fit.
pub fn put_packed_record(out: &mut [u8], r: Record)
    ensures { PutPackedRecord out.old r out.new }
{
    let Some(out) = out.first_chunk_mut::<PACKED_LENGTH>() else {
        return;
    };
    let figures = r.figures;
    let serial = r.serial;
    put_front(out, figures);
    put_middle(out, figures);
    put_back(out, figures);
    serial::put_serial(out, 29, serial);
}

// Writes a whole message: the lowest field out of range is refused first, then too little room.
pub fn write_packed(r: Record, checksum: bool, out: &mut [u8]) -> Result<usize, Refusal>
    ensures { WritePacked r checksum out.old result out.new }
{
    if let Some(lowest) = record::lowest_field(r) {
        return Err(Refusal::Field(lowest));
    }
    let n = frame::room_for(out.len(), PACKED_LENGTH as u32, checksum)?;
    put_packed_record(out, r);
    frame::put_ending(out, PACKED_LENGTH, checksum);
    Ok(n)
}
