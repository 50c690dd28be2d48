// The checksum, and what stands behind the contents of a message: two checksum characters where the
// mode is on, then LF CR.
#![tactic(auto)]

ghost use Rattle.std.specs.Prelude.{◌≡◌, ◌+◌, ◌≤◌, eqb, length};
ghost use Rattle.frame.specs.Frame.{xor_from, ending_width, is_ended, sums};
ghost use Rattle.frame.specs.Clauses.{SumOf, EndingWidth, RoomFor, PutEnding, Open};

use refusal::Refusal;

// The two characters of a checksum.
#[derive(Clone, Copy)]
pub struct Sum {
    pub high: u8,
    pub low: u8,
}

// The exclusive-or of FF hex and each byte.
fn xor_of(s: &[u8]) -> u8
    ensures { result ≡ xor_from 255 s.now }
{
    let mut x: u8 = 255;
    for &byte in s {
        x ^= byte;
    }
    x
}

// The checksum of some bytes: 40 hex plus each half.
pub fn sum_of(s: &[u8]) -> Sum
    ensures { SumOf s.now result }
{
    let x = xor_of(s);
    Sum {
        high: 64 + x / 16,
        low: 64 + x % 16,
    }
}

// How many bytes stand behind the contents.
pub fn ending_width(checksum: bool) -> usize
    ensures { EndingWidth checksum result }
{
    if checksum { 4 } else { 2 }
}

// Whether a message whose contents take width bytes fits into a memory of len: what its writer answers.
pub fn room_for(len: usize, width: u32, checksum: bool) -> Result<usize, Refusal>
    ensures { RoomFor len width checksum result }
{
    let n = width as usize + ending_width(checksum);
    if len < n {
        return Err(Refusal::Room(n));
    }
    Ok(n)
}

// Ends the message whose contents are the first n bytes.
pub fn put_ending(out: &mut [u8], n: usize, checksum: bool)
    ensures { PutEnding out.old n checksum out.new }
{
    if !lent::has_room(out.len(), n, ending_width(checksum)) {
        return;
    }
    if !checksum {
        lent::put_pair(out, n, b'\n', b'\r');
        return;
    }
    let sum = sum_of(&out[0..n]);
    lent::put_pair(out, n, sum.high, sum.low);
    lent::put_pair(out, n + 2, b'\n', b'\r');
}

// Whether a message of n bytes has width bytes of contents.
fn has_length(n: usize, width: usize, checksum: bool) -> bool
    ensures { result ≡ eqb n (width + ending_width checksum) }
{
    n.checked_sub(ending_width(checksum)) == Some(width)
}

// Whether the last two bytes are LF CR.
fn is_ended(m: &[u8]) -> bool
    requires { 2 ≤ length m.now }
    ensures { result ≡ is_ended m.now }
{
    m.ends_with(b"\n\r")
}

// Whether the checksum of the first width bytes stands behind them.
fn is_summed(m: &[u8], width: usize) -> bool
    requires { width + 2 ≤ length m.now }
    ensures { result ≡ sums width m.now }
{
    let sum = sum_of(&m[..width]);
    m[width..width + 2] == [sum.high, sum.low]
}

// Opens a message whose contents take width bytes: its length, its end and its checksum, in this order.
pub fn open(m: &[u8], width: usize, checksum: bool) -> Result<(), Refusal>
    ensures { Open m.now width checksum result }
{
    let n = m.len();
    if !has_length(n, width, checksum) {
        return Err(Refusal::Length(n));
    }
    if !is_ended(m) {
        return Err(Refusal::End);
    }
    if !checksum {
        return Ok(());
    }
    if !is_summed(m, width) {
        return Err(Refusal::Checksum);
    }
    Ok(())
}
