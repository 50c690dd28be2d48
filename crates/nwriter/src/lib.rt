// The writer of the N message.
#![tactic(auto)]

ghost use Rattle.std.specs.Prelude.{◌≡◌};
ghost use Rattle.laws.specs.Over.{over};
ghost use Rattle.nwriter.specs.Parts.{names_text, lens_text, version_text};
ghost use Rattle.nwriter.specs.Clauses.{PutFixedData, WriteFixed};

use fixed::{FIXED_LENGTH, Fixed, Lens};
use refusal::Refusal;

// Writes N, S and the serial, O and the owner: the first 43 bytes.
fn put_names(out: &mut [u8; FIXED_LENGTH], f: Fixed)
    ensures { out.new ≡ over out.old 0 (names_text f) }
{
    lent::put_pair(out, 0, b'N', b'S');
    lent::put_text(out, 2, &f.serial);
    lent::put_byte(out, 11, b'O');
    lent::put_text(out, 12, &f.owner);
}

// Writes items 3 to 7: 15 bytes.
fn put_lens(out: &mut [u8; FIXED_LENGTH], l: Lens)
    ensures { out.new ≡ over out.old 43 (lens_text l) }
{
    lent::put_pair(out, 43, b'L', l.kind);
    codec::put_tagged(out, 45, b'N', 3, l.focal);
    codec::put_tagged(out, 49, b'M', 3, l.maximum);
    lent::put_pair(out, 53, b'U', l.letter);
    codec::put_tagged(out, 55, b'T', 2, l.transmission);
}

// Writes two spaces, B and the version: the last 7 bytes.
fn put_version(out: &mut [u8; FIXED_LENGTH], f: Fixed)
    ensures { out.new ≡ over out.old 58 (version_text f) }
{
    lent::put_pair(out, 58, b' ', b' ');
    lent::put_byte(out, 60, b'B');
    lent::put_text(out, 61, &f.version);
}

// Writes the contents of an N message; nothing where they do not fit.
pub fn put_fixed_data(out: &mut [u8], f: Fixed)
    ensures { PutFixedData out.old f out.new }
{
    let Some(out) = out.first_chunk_mut::<FIXED_LENGTH>() else {
        return;
    };
    put_names(out, f);
    put_lens(out, f.lens);
    put_version(out, f);
}

// Writes an N message: 8 for the lowest item out of range, then 2 with the needed length.
pub fn write_fixed(f: Fixed, checksum: bool, out: &mut [u8]) -> Result<usize, Refusal>
    ensures { WriteFixed f checksum out.old result out.new }
{
    if let Some(lowest) = fixed::lowest_item(f) {
        return Err(Refusal::Setting(lowest));
    }
    let n = frame::room_for(out.len(), FIXED_LENGTH as u32, checksum)?;
    put_fixed_data(out, f);
    frame::put_ending(out, FIXED_LENGTH, checksum);
    Ok(n)
}
