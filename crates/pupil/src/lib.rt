// The entrance pupil, the one signed field, as text (E, sign, three digits) and packed (sign and
// ten-bit magnitude in two groups). Zero is written with plus; minus zero is read as zero.
#![tactic(auto)]

ghost use Rattle.std.specs.Prelude.{◌≡◌};
ghost use Rattle.pupil.specs.Pupil.{sign_byte, is_marked, signed_field, pupil_code};
ghost use Rattle.pupil.specs.Clauses.{PutPupilText, PutPupilPacked, ReadPupilText, ReadPupilPacked};

// The number with this sign and size, where it is in range.
fn signed_field(below: bool, n: u32) -> Option<i32>
    ensures { result ≡ signed_field below n }
{
    if 999 < n {
        return None;
    }
    Some(sign::signed_of(below, n as u16))
}

// The sign as text.
fn sign_byte(e: i32) -> u8
    ensures { result ≡ sign_byte e }
{
    if sign::is_below(e) { b'-' } else { b'+' }
}

// The number that is sent as two groups.
fn pupil_code(e: i32) -> u32
    ensures { result ≡ pupil_code e }
{
    if sign::is_below(e) {
        return 2048 + sign::size_of(e);
    }
    sign::size_of(e)
}

// Writes E, the sign and three digits.
pub fn put_pupil_text(out: &mut [u8], at: usize, e: i32)
    ensures { PutPupilText out.old at e out.new }
{
    if !lent::has_room(out.len(), at, 5) {
        return;
    }
    lent::put_byte(out, at, b'E');
    codec::put_tagged(out, at + 1, sign_byte(e), 3, sign::size_of(e));
}

// Writes the two groups.
pub fn put_pupil_packed(out: &mut [u8], at: usize, e: i32)
    ensures { PutPupilPacked out.old at e out.new }
{
    digits::put_groups(out, at, 2, pupil_code(e));
}

// Whether two bytes are E and a sign.
fn is_marked(tag: u8, sign: u8) -> bool
    ensures { result ≡ is_marked tag sign }
{
    (tag == b'E') & ((sign == b'+') | (sign == b'-'))
}

// Reads E, the sign and three digits.
pub fn read_pupil_text(s: &[u8]) -> Option<i32>
    ensures { ReadPupilText s.now result }
{
    if s.len() != 5 {
        return None;
    }
    if !is_marked(s[0], s[1]) {
        return None;
    }
    let n = digits::read_decimal(&s[2..5], 999)?;
    signed_field(s[1] == b'-', n)
}

// Reads the two groups.
pub fn read_pupil_packed(s: &[u8]) -> Option<i32>
    ensures { ReadPupilPacked s.now result }
{
    if s.len() != 2 {
        return None;
    }
    let k = digits::read_groups(s, 4095)?;
    signed_field(k / 2048 == 1, k % 2048)
}
