// The reader of the text record (message D). The form is `text_form` of the crate record; each group of
// fields has a function that reads it, and another crate may call it. Of bytes of another number than
// they take, the first field is wrong.
#![tactic(auto)]

ghost use Rattle.std.specs.Prelude.{◌≡◌, length};
ghost use Rattle.codec.specs.Codec.{read_tagged};
ghost use Rattle.stop.specs.Stop.{read_stop_text};
ghost use Rattle.text_reader.specs.Clauses.{ReadView, ReadFront, ReadMiddle, WithZoom, ReadBack, ReadContents, ReadText};

use gather::{Four, Three};
use record::{Record, TEXT_LENGTH};
use refusal::{Refusal, Wrong};

// Reads t and a stop.
fn read_stop(s: &[u8]) -> Option<u32>
    requires { length s.now ≡ 4 }
    ensures { result ≡ read_tagged 116 read_stop_text s.now }
{
    if s[0] != b't' {
        return None;
    }
    stop::read_stop_text(&s[1..])
}

// Reads V and a number in tenths.
pub fn read_view(s: &[u8]) -> Option<u32>
    ensures { ReadView s.now result }
{
    if s.len() != 6 {
        return None;
    }
    if s[0] != b'V' {
        return None;
    }
    pointed::read_pointed(&s[1..], 4095)
}

// Reads D, T, t, +.
pub fn read_front(s: &[u8]) -> Four
    ensures { ReadFront s.now result }
{
    if s.len() != 19 {
        return Err(Wrong(1));
    }
    let Some(focus) = codec::read_tagged(&s[0..8], b'D', 9999999) else {
        return Err(Wrong(1));
    };
    let Some(aperture) = codec::read_tagged(&s[8..13], b'T', 4095) else {
        return Err(Wrong(2));
    };
    let Some(stop) = read_stop(&s[13..17]) else {
        return Err(Wrong(3));
    };
    let Some(tenth) = codec::read_tagged(&s[17..19], b'+', 9) else {
        return Err(Wrong(4));
    };
    Ok((focus, aperture, stop, tenth))
}

// Reads Z, H, N, F.
pub fn read_middle(s: &[u8]) -> Four
    ensures { ReadMiddle s.now result }
{
    if s.len() != 29 {
        return Err(Wrong(5));
    }
    let Some(focal) = codec::read_tagged(&s[0..5], b'Z', 1023) else {
        return Err(Wrong(5));
    };
    let Some(hyperfocal) = codec::read_tagged(&s[5..13], b'H', 9999999) else {
        return Err(Wrong(6));
    };
    let Some(near) = codec::read_tagged(&s[13..21], b'N', 9999999) else {
        return Err(Wrong(7));
    };
    let Some(far) = codec::read_tagged(&s[21..29], b'F', 9999999) else {
        return Err(Wrong(8));
    };
    Ok((focal, hyperfocal, near, far))
}

// Reads V and E, before a zoom that was read.
pub fn with_zoom(s: &[u8], zoom: Option<u32>) -> Three
    ensures { WithZoom s.now zoom result }
{
    if s.len() != 11 {
        return Err(Wrong(9));
    }
    let Some(view) = read_view(&s[0..6]) else {
        return Err(Wrong(9));
    };
    let Some(pupil) = pupil::read_pupil_text(&s[6..11]) else {
        return Err(Wrong(10));
    };
    let Some(thousandths) = zoom else {
        return Err(Wrong(11));
    };
    Ok((view, pupil, thousandths))
}

// Reads V, E, z.
pub fn read_back(s: &[u8]) -> Three
    ensures { ReadBack s.now result }
{
    if s.len() != 16 {
        return Err(Wrong(9));
    }
    with_zoom(&s[0..11], codec::read_tagged(&s[11..16], b'z', 1000))
}

// Reads the contents: 6 with the first wrong field.
pub fn read_contents(s: &[u8]) -> Result<Record, Refusal>
    ensures { ReadContents s.now result }
{
    if s.len() != TEXT_LENGTH {
        return Err(Refusal::Contents(1));
    }
    let eleven = gather::gather(
        read_front(&s[0..19]),
        read_middle(&s[19..48]),
        read_back(&s[48..64]),
    );
    gather::with_serial(eleven, &s[64..TEXT_LENGTH])
}

// Reads a message: its length, its end and its checksum, then its contents.
pub fn read_text(m: &[u8], checksum: bool) -> Result<Record, Refusal>
    ensures { ReadText m.now checksum result }
{
    frame::open(m, TEXT_LENGTH, checksum)?;
    read_contents(&m[0..TEXT_LENGTH])
}
