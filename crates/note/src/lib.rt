// A focus puller's note, field 14: up to 60 bytes, none below 20 hex, behind the serial of a record. Which messages have one, and what
// their readers and writers answer, as definitions for any form.
#![tactic(auto)]

ghost use Rattle.note.specs.Clauses.{IsNote};

// The bytes that a note holds at most.
pub const NOTE_LENGTH: usize = 60;

// Whether these bytes may be appended. To look at each costs less than to stop at the first that may not.
pub fn is_note(s: &[u8]) -> bool
    ensures { IsNote s.now result }
{
    let mut all = s.len() <= NOTE_LENGTH;
    for &byte in s {
        all &= b' ' <= byte;
    }
    all
}
