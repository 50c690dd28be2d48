// The reader of the packed record (command Kd). The form is `packed_form` of the crate record; each group
// of fields has a function that reads it, and another crate may call it. Of bytes of another number than
// they take, the first field is wrong.
#![tactic(auto)]

ghost use Rattle.std.specs.Prelude.{◌≡◌, length};
ghost use Rattle.digits.specs.Digits.{read_groups};
ghost use Rattle.codec.specs.Codec.{read_tagged};
ghost use Rattle.record.specs.Record.{top_distance};
ghost use Rattle.packed_reader.specs.Clauses.{ReadFront, ReadMiddle, ReadBack, ReadContents, ReadPacked};

use gather::{Four, Three};
use record::{PACKED_LENGTH, Record};
use refusal::{Refusal, Wrong};

// Reads d and four groups.
fn read_focus(s: &[u8]) -> Option<u32>
    requires { length s.now ≡ 5 }
    ensures { result ≡ read_tagged 100 (read_groups top_distance) s.now }
{
    if s[0] != b'd' {
        return None;
    }
    digits::read_groups(&s[1..], 9999999)
}

// Reads fields 1 to 4.
pub fn read_front(s: &[u8]) -> Four
    ensures { ReadFront s.now result }
{
    if s.len() != 9 {
        return Err(Wrong(1));
    }
    let focus = read_focus(&s[0..5]).ok_or(Wrong(1))?;
    let aperture = digits::read_groups(&s[5..7], 4095).ok_or(Wrong(2))?;
    let stop = stop::read_stop(s[7], s[8]).ok_or(Wrong(3))?;
    let tenth = stop::read_tenth(s[8]).ok_or(Wrong(4))?;
    Ok((focus, aperture, stop, tenth))
}

// Reads fields 5 to 8.
pub fn read_middle(s: &[u8]) -> Four
    ensures { ReadMiddle s.now result }
{
    if s.len() != 14 {
        return Err(Wrong(5));
    }
    let focal = digits::read_groups(&s[0..2], 1023).ok_or(Wrong(5))?;
    let hyperfocal = digits::read_groups(&s[2..6], 9999999).ok_or(Wrong(6))?;
    let near = digits::read_groups(&s[6..10], 9999999).ok_or(Wrong(7))?;
    let far = digits::read_groups(&s[10..14], 9999999).ok_or(Wrong(8))?;
    Ok((focal, hyperfocal, near, far))
}

// Reads fields 9 to 11.
pub fn read_back(s: &[u8]) -> Three
    ensures { ReadBack s.now result }
{
    if s.len() != 6 {
        return Err(Wrong(9));
    }
    let view = digits::read_groups(&s[0..2], 4095).ok_or(Wrong(9))?;
    let pupil = pupil::read_pupil_packed(&s[2..4]).ok_or(Wrong(10))?;
    let zoom = digits::read_groups(&s[4..6], 1000).ok_or(Wrong(11))?;
    Ok((view, pupil, zoom))
}

// Reads the contents: 6 with the first wrong field.
pub fn read_contents(s: &[u8]) -> Result<Record, Refusal>
    ensures { ReadContents s.now result }
{
    if s.len() != PACKED_LENGTH {
        return Err(Refusal::Contents(1));
    }
    let eleven = gather::gather(
        read_front(&s[0..9]),
        read_middle(&s[9..23]),
        read_back(&s[23..29]),
    );
    gather::with_serial(eleven, &s[29..PACKED_LENGTH])
}

// Reads a message: its length, its end and its checksum, then its contents.
pub fn read_packed(m: &[u8], checksum: bool) -> Result<Record, Refusal>
    ensures { ReadPacked m.now checksum result }
{
    frame::open(m, PACKED_LENGTH, checksum)?;
    read_contents(&m[0..PACKED_LENGTH])
}
