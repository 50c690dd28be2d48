// What a reader of a record finds, group by group, the same in both forms: the fields of a group, or
// the first wrong one of them.
#![tactic(auto)]

ghost use Rattle.gather.specs.Clauses.{Gather, WithSerial};

use record::{Figures, Record};
use refusal::{Refusal, Wrong};

// Fields 1 to 4 or 5 to 8, or the first wrong one.
pub type Four = Result<(u32, u32, u32, u32), Wrong>;

// Fields 9 to 11, or the first wrong one.
pub type Three = Result<(u32, i32, u32), Wrong>;

// The three groups as fields 1 to 11; of several wrong fields the first.
pub fn gather(front: Four, middle: Four, back: Three) -> Result<Figures, Wrong>
    ensures { Gather front middle back result }
{
    let (focus, aperture, stop, tenth) = front?;
    let (focal, hyperfocal, near, far) = middle?;
    let (view, pupil, zoom) = back?;
    Ok(Figures {
        focus,
        aperture,
        stop,
        tenth,
        focal,
        hyperfocal,
        near,
        far,
        view,
        pupil,
        zoom,
    })
}

// Fields 1 to 11 and the bytes of field 12 as a record, or the first wrong field.
pub fn with_serial(eleven: Result<Figures, Wrong>, s: &[u8]) -> Result<Record, Refusal>
    ensures { WithSerial eleven s.now result }
{
    let figures = eleven?;
    if s.len() != 10 {
        return Err(Refusal::Contents(12));
    }
    if !codec::is_behind(s, b"S") {
        return Err(Refusal::Contents(12));
    }
    let serial = serial::nine_of(&s[1..10]);
    Ok(Record { figures, serial })
}
