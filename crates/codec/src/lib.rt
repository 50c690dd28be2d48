// A field of a message: a printer, a parser and one law between them, and how fields make a message.
// The code here serves every field that is a text or a number behind its tag.
#![tactic(auto)]

ghost use Rattle.codec.specs.Clauses.{IsText, IsBehind, PutItem, PutTagged, ReadTagged};

// Whether every byte may stand in a text. To look at each costs less than to stop at the first that may not.
pub fn is_text(s: &[u8]) -> bool
    ensures { IsText s.now result }
{
    let mut all = true;
    for &byte in s {
        all &= (b' ' <= byte) & (byte <= b'~');
    }
    all
}

// Whether s is a text behind its tags.
pub fn is_behind(s: &[u8], tags: &[u8]) -> bool
    ensures { IsBehind s.now tags.now result }
{
    s.strip_prefix(tags).is_some_and(is_text)
}

// Writes a text over the whole of an item; one of another length is not written.
pub fn put_item(item: &mut [u8], text: &[u8])
    ensures { PutItem item.old text.now item.new }
{
    if text.len() != item.len() {
        return;
    }
    lent::put_text(item, 0, text);
}

// Writes a tag and the decimal digits behind it.
pub fn put_tagged(out: &mut [u8], at: usize, tag: u8, width: usize, n: u32)
    ensures { PutTagged out.old at tag width n out.new }
{
    if out.len() == 0 {
        return;
    }
    if !lent::has_room(out.len() - 1, at, width) {
        return;
    }
    lent::put_byte(out, at, tag);
    digits::put_decimal(out, at + 1, width, n);
}

// Reads a tag and the decimal digits of a number that is at most top.
pub fn read_tagged(s: &[u8], tag: u8, top: u32) -> Option<u32>
    ensures { ReadTagged s.now tag top result }
{
    if s.len() == 0 {
        return None;
    }
    if s[0] != tag {
        return None;
    }
    digits::read_decimal(&s[1..], top)
}
