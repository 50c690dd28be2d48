// Archives of old zoom firmware: D lines without S and with the zoom as z and x.xx, moved to the present form and back.
// There is no checksum on either line. Each way is a reader, then a writer.
#![tactic(auto)]

ghost use Rattle.std.specs.Prelude.{◌≡◌, ◌≤◌, length};
ghost use Rattle.laws.specs.Over.{over};
ghost use Rattle.codec.specs.Codec.{field_says};
ghost use Rattle.frame.specs.Message.{Moves};
ghost use Rattle.record.specs.Forms.{ten_length};
ghost use Rattle.gather.specs.Gather.{eleven_says};
ghost use Rattle.archive.specs.Old.{old_zoom, old_form, old_length};
ghost use Rattle.archive.specs.Archive.{old_line_length, dropped};
ghost use Rattle.archive.specs.Clauses.{OldToNew, NewToOld};

use record::{Figures, TEN_LENGTH};
use refusal::{Refusal, Wrong};

// How many bytes the contents of an old line take.
const OLD_LENGTH: usize = 64;

// Reads z and x.xx: hundredths, as ten times as many thousandths.
fn read_zoom(s: &[u8]) -> Option<u32>
    requires { length s.now ≡ 5 }
    ensures { field_says 11 result ≡ old_zoom.parse s.now }
{
    let whole = codec::read_tagged(&s[0..2], b'z', 1)?;
    let part = codec::read_tagged(&s[2..5], b'.', 99)?;
    let hundredths = whole * 100 + part;
    if 100 < hundredths {
        return None;
    }
    Some(hundredths * 10)
}

// Reads the contents of an old line, or finds the first wrong field.
fn read_old(s: &[u8]) -> Result<Figures, Wrong>
    requires { length s.now ≡ old_length }
    ensures { eleven_says result ≡ old_form.parse s.now }
{
    let zoom = read_zoom(&s[TEN_LENGTH..OLD_LENGTH]);
    gather::gather(
        text_reader::read_front(&s[0..19]),
        text_reader::read_middle(&s[19..48]),
        text_reader::with_zoom(&s[48..TEN_LENGTH], zoom),
    )
}

// Writes z and x.xx.
fn put_zoom(out: &mut [u8], thousandths: u32)
    requires { old_length ≤ length out.old }
    ensures { out.new ≡ over out.old ten_length (old_zoom.print thousandths) }
{
    let hundredths = thousandths / 10;
    codec::put_tagged(out, TEN_LENGTH, b'z', 1, hundredths / 100);
    codec::put_tagged(out, 61, b'.', 2, hundredths % 100);
}

// Writes an old line: 11 where the thousandths do not divide by ten, then 2.
fn write_old(f: Figures, out: &mut [u8]) -> Result<usize, Refusal>
    ensures { Moves old_line_length (dropped f) out.old result out.new }
{
    if f.zoom % 10 != 0 {
        return Err(Refusal::Lost);
    }
    let n = frame::room_for(out.len(), OLD_LENGTH as u32, false)?;
    text_writer::put_ten(out, f);
    put_zoom(out, f.zoom);
    frame::put_ending(out, OLD_LENGTH, false);
    Ok(n)
}

// Moves an old line to the present form, with this serial: 3, 4 and 6 of the line, then 1 of the serial, then 2.
pub fn old_to_new(m: &[u8], text: &[u8], out: &mut [u8]) -> Result<usize, Refusal>
    ensures { OldToNew m.now text.now out.old result out.new }
{
    frame::open(m, OLD_LENGTH, false)?;
    let figures = read_old(&m[0..OLD_LENGTH])?;
    text_writer::write_text(serial::record_from(figures, text), false, out)
}

// Moves a line of the present form back: 3, 4 and 6 of the line, then 11, then 2.
pub fn new_to_old(m: &[u8], out: &mut [u8]) -> Result<usize, Refusal>
    ensures { NewToOld m.now out.old result out.new }
{
    let record = text_reader::read_text(m, false)?;
    write_old(record.figures, out)
}
