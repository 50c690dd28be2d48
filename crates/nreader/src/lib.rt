// The reader of the N message, and the owner's name as a part of it.
#![tactic(auto)]

ghost use Rattle.std.specs.Prelude.{◌≡◌, length};
ghost use Rattle.frame.specs.Message.{found};
ghost use Rattle.fixed.specs.Fixed.{kind_ok, letter_ok};
ghost use Rattle.fixed.specs.Form.{lens_items, fixed_length, fixed_form};
ghost use Rattle.nreader.specs.Reader.{read_letter, lens_says, items_says};
ghost use Rattle.nreader.specs.Clauses.{ReadFixed, TrimmedLength, OwnerPart};

use fixed::{FIXED_LENGTH, Fixed, Lens};
use refusal::{Refusal, Wrong};

// Reads a lens type behind its tag.
fn read_kind(tag: u8, b: u8) -> Option<u8>
    ensures { result ≡ read_letter 76 kind_ok tag b }
{
    (tag == b'L' && fixed::is_kind(b)).then_some(b)
}

// Reads a start-up letter behind its tag.
fn read_start(tag: u8, b: u8) -> Option<u8>
    ensures { result ≡ read_letter 85 letter_ok tag b }
{
    (tag == b'U' && fixed::is_letter(b)).then_some(b)
}

// Reads items 3 to 7. The first wrong item is handed up.
fn read_lens(s: &[u8]) -> Result<Lens, Wrong>
    requires { length s.now ≡ 15 }
    ensures { lens_says result ≡ lens_items.parse s.now }
{
    let kind = read_kind(s[0], s[1]).ok_or(Wrong(3))?;
    let focal = codec::read_tagged(&s[2..6], b'N', 999).ok_or(Wrong(4))?;
    let maximum = codec::read_tagged(&s[6..10], b'M', 999).ok_or(Wrong(5))?;
    let letter = read_start(s[10], s[11]).ok_or(Wrong(6))?;
    let transmission = codec::read_tagged(&s[12..15], b'T', 99).ok_or(Wrong(7))?;
    Ok(Lens {
        kind,
        focal,
        maximum,
        letter,
        transmission,
    })
}

// Reads the contents of an N message. The first wrong item is handed up.
fn read_items(s: &[u8]) -> Result<Lens, Wrong>
    requires { length s.now ≡ fixed_length }
    ensures { items_says s.now result ≡ fixed_form.parse s.now }
{
    if !codec::is_behind(&s[0..11], b"NS") {
        return Err(Wrong(1));
    }
    if !codec::is_behind(&s[11..43], b"O") {
        return Err(Wrong(2));
    }
    let lens = read_lens(&s[43..58])?;
    if !codec::is_behind(&s[58..FIXED_LENGTH], b"  B") {
        return Err(Wrong(8));
    }
    Ok(lens)
}

// What the contents of an N message hold: 6 with the first wrong item.
fn read_contents(s: &[u8]) -> Result<Fixed, Refusal>
    requires { length s.now ≡ fixed_length }
    ensures { result ≡ found (fixed_form.parse s.now) }
{
    let lens = read_items(s)?;
    Ok(fixed::fixed_from(&s[2..11], &s[12..43], lens, &s[61..FIXED_LENGTH]))
}

// Reads an N message: 3, 4, 5 for its frame, then 6 with the first wrong item.
pub fn read_fixed(m: &[u8], checksum: bool) -> Result<Fixed, Refusal>
    ensures { ReadFixed m.now checksum result }
{
    frame::open(m, FIXED_LENGTH, checksum)?;
    read_contents(&m[0..FIXED_LENGTH])
}

// How long a text is without its trailing spaces.
pub fn trimmed_length(s: &[u8]) -> usize
    ensures { TrimmedLength s.now result }
{
    s.iter()
        .rposition(|b| *b != b' ')
        .map_or(0, |last| last + 1)
}

// The owner's name without its trailing spaces, as that part of the message; of a refused message empty, at its start.
pub fn owner_part<'a>(m: &'a [u8], checksum: bool) -> &'a [u8]
    ensures { OwnerPart m.entry checksum result }
{
    let Ok(fixed) = read_fixed(m, checksum) else {
        return &m[..0];
    };
    let end = 12 + trimmed_length(&fixed.owner);
    &m[12..end]
}
