// The note of a port, which its records carry behind the serial: OC opens an empty one, OD sets it whole, OH empties and closes it.
#![tactic(auto)]

ghost use Rattle.std.specs.Prelude.{◌≡◌, ◌≤◌, length};
ghost use Rattle.note.specs.Note.{longest_note};
ghost use Rattle.append.specs.Append.{holding, set_by, after_o, noted_by};
ghost use Rattle.append.specs.Clauses.{NoteEmpty, NoteIsValid, NoteLength, NoteAfter};

use line::{LINE_LENGTH, Line};
use note::NOTE_LENGTH;

// (Its buffer has a count of its own, since a count past the buffer is refused by 16: valid_note.)
#[derive(Clone, Copy)]
pub struct Note {
    // Whether OD sets it; closed, it is empty.
    pub opened: bool,
    pub bytes: [u8; NOTE_LENGTH],
    pub len: usize,
}

// An open note of these bytes, in a fresh buffer of zeros.
fn hold(s: &[u8]) -> Note
    requires { length s.now ≤ longest_note }
    ensures { result ≡ holding s.now }
{
    let mut bytes = [0u8; NOTE_LENGTH];
    lent::put_text(&mut bytes, 0, s);
    Note {
        opened: true,
        bytes,
        len: s.len(),
    }
}

// OD and these bytes: they are set whole, where the note is open and they may be appended.
fn set_by(note: Note, s: &[u8]) -> Option<Note>
    ensures { result ≡ set_by note s.now }
{
    if !note.opened || !note::is_note(s) {
        return None;
    }
    Some(hold(s))
}

// The byte after an O, alone: C opens an empty note, H empties and closes it.
fn after_o(b: u8) -> Option<Note>
    ensures { result ≡ after_o b }
{
    match b {
        b'C' => Some(Note::empty(true)),
        b'H' => Some(Note::empty(false)),
        _ => None,
    }
}

// What these bytes, the whole of a line, make of a note; every line but the three leaves it.
fn noted_by(note: Note, s: &[u8]) -> Option<Note>
    ensures { result ≡ noted_by note s.now }
{
    match s {
        [b'O', b'D', bytes @ ..] => set_by(note, bytes),
        [b'O', b] => after_o(*b),
        _ => None,
    }
}

impl Note {
    // An empty note, open or closed.
    pub fn empty(opened: bool) -> Note
        ensures { NoteEmpty opened result }
    {
        Note {
            opened,
            bytes: [0; NOTE_LENGTH],
            len: 0,
        }
    }

    // Whether it is one of ours (16): its count within the buffer, its bytes such as may be appended, none where it is closed.
    pub fn is_valid(self) -> bool
        ensures { NoteIsValid self result }
    {
        self.len == 0
            || (self.opened && self.len <= NOTE_LENGTH && note::is_note(&self.bytes[..self.len]))
    }

    // How many bytes it appends: its count, and no more than its buffer has.
    pub fn length(self) -> usize
        ensures { NoteLength self result }
    {
        self.len.min(NOTE_LENGTH)
    }

    // The note after a line of the three; None for every other line, which leaves it.
    pub fn after(self, line: Line) -> Option<Note>
        ensures { NoteAfter self line result }
    {
        if line.overlong || LINE_LENGTH < line.len {
            return None;
        }
        noted_by(self, &line.bytes[..line.len])
    }
}
