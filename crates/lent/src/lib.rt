// Writing into lent memory at a place. What does not fit is not written, so no caller owes a bound.
#![tactic(auto)]

ghost use Rattle.lent.specs.Clauses.{HasRoom, PutByte, PutPair, PutText};

// Whether n bytes from a place on fit into a memory of len bytes.
pub fn has_room(len: usize, at: usize, n: usize) -> bool
    ensures { HasRoom len at n result }
{
    n <= len && at <= len - n
}

// Writes one byte.
pub fn put_byte(out: &mut [u8], at: usize, byte: u8)
    ensures { PutByte out.old at byte out.new }
{
    if at < out.len() {
        out[at] = byte;
    }
}

// Writes two bytes.
pub fn put_pair(out: &mut [u8], at: usize, first: u8, second: u8)
    ensures { PutPair out.old at first second out.new }
{
    put_text(out, at, &[first, second]);
}

// Writes the bytes of a text.
pub fn put_text(out: &mut [u8], at: usize, text: &[u8])
    ensures { PutText out.old at text.now out.new }
{
    if !has_room(out.len(), at, text.len()) {
        return;
    }
    out[at..at + text.len()].copy_from_slice(text);
}
