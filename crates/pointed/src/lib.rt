// A number in tenths as text: digits, a point and one digit (027.3 for 273).
#![tactic(auto)]

ghost use Rattle.pointed.specs.Clauses.{PutPointed, ReadPointed};

// Writes the whole part as width digits, the point, and the tenths: all digits, then the point before the last.
pub fn put_pointed(out: &mut [u8], at: usize, width: usize, n: u32)
    ensures { PutPointed out.old at width n out.new }
{
    if out.len() < 2 {
        return;
    }
    if !lent::has_room(out.len() - 2, at, width) {
        return;
    }
    digits::put_decimal(out, at, width + 1, n);
    let tenth = out[at + width];
    lent::put_pair(out, at + width, b'.', tenth);
}

// Reads the whole of s as a number in tenths that is at most top.
pub fn read_pointed(s: &[u8], top: u16) -> Option<u32>
    ensures { ReadPointed s.now top result }
{
    if s.len() < 2 {
        return None;
    }
    let whole_width = s.len() - 2;
    let most = top as u32;
    let whole = digits::read_decimal(&s[..whole_width], most)?;
    let tenth = codec::read_tagged(&s[whole_width..], b'.', 9)?;
    let n = whole * 10 + tenth;
    if most < n {
        return None;
    }
    Some(n)
}
