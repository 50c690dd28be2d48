// A packed record's bytes: what they say, and whether they are right.
#![tactic(auto)]

ghost use Rattle.std.specs.Prelude.{◌&&◌, ◌≡◌, ◌<◌, leb, take, drop};
ghost use Rattle.digits.specs.Digits.{are_digits};
ghost use Rattle.record.specs.Forms.{front_packed, middle_packed, back_packed, packed_form};
ghost use Rattle.packed_bytes.specs.Bytes.{is_got, sixes, packed_number, quad_in};
ghost use Rattle.packed_bytes.specs.Clauses.{Quad, NumberIn, StopIn, SignIn, IsRight};

use record::PACKED_LENGTH;

// ---- what they say

// Whether each byte is a group of six bits, under bits 01. To look at each costs less than to stop at the first that is none.
fn are_groups(s: &[u8]) -> bool
    ensures { result ≡ are_digits 64 64 s.now }
{
    let mut all = true;
    for &byte in s {
        all &= byte / 64 == 1;
    }
    all
}

// Four bytes as one word, the first lowest.
pub fn quad(a: u8, b: u8, c: u8, d: u8) -> u64
    ensures { Quad a b c d result }
{
    u64::from(u32::from_le_bytes([a, b, c, d]))
}

// Those of an array.
fn four_in(s: &[u8; 4]) -> u64
    ensures { (result ≡ quad_in s.now) × (result < 4294967296) }
{
    quad(s[0], s[1], s[2], s[3])
}

// The number in four groups, whatever is above their six bits: first and third at once, second and fourth at once, then the two pairs.
fn distance_in(s: &[u8; 4]) -> u32
    ensures { result ≡ sixes s.now }
{
    let x = four_in(s);
    let pairs = 64 * (x & 0x003F003F) + (x / 256 & 0x003F003F);
    (pairs % 65536 * 4096 + pairs / 65536) as u32
}

// The number in up to five groups; 0 for more, which no field has.
pub fn number_in(s: &[u8]) -> u32
    ensures { NumberIn s.now result }
{
    if 5 < s.len() {
        return 0;
    }
    if let Some(four) = s.as_array::<4>() {
        return distance_in(four);
    }
    let mut n = 0;
    for &byte in s {
        n = n * 64 + u32::from(byte) % 64;
    }
    n
}

// The stop in a shared pair.
pub fn stop_in(a: u8, b: u8) -> u32
    ensures { StopIn a b result }
{
    a as u32 % 128 + 128 * (b as u32 / 64 % 2)
}

// The sign of a packed pupil, as text: plus where its size is zero.
pub fn sign_in(code: u32) -> u8
    ensures { SignIn code result }
{
    if (code / 2048 == 1) & (code % 2048 != 0) {
        b'-'
    } else {
        b'+'
    }
}

// ---- whether they are right

// Whether bytes are groups, and say a number of at most top.
fn is_number(s: &[u8], top: u32) -> bool
    ensures { result ≡ (are_digits 64 64 s.now && leb (packed_number s.now) top) }
{
    are_groups(s) & (number_in(s) <= top)
}

// Whether fields 1 to 4 are right.
fn is_front(s: &[u8; PACKED_LENGTH]) -> bool
    ensures { result ≡ is_got (front_packed.parse (take 9 s.now)) }
{
    let focus = (s[0] == b'd') & is_number(&s[1..5], 9999999);
    let aperture = is_number(&s[5..7], 4095);
    let stop = (s[7] / 128 == 1) & stop::stop_ok(stop_in(s[7], s[8]));
    let tenth = (s[8] / 128 == 1) & (s[8] % 64 <= 9);
    focus & (aperture & (stop & tenth))
}

// Whether fields 5 to 8 are.
fn is_middle(s: &[u8; PACKED_LENGTH]) -> bool
    ensures { result ≡ is_got (middle_packed.parse (take 14 (drop 9 s.now))) }
{
    let focal = is_number(&s[9..11], 1023);
    let hyperfocal = is_number(&s[11..15], 9999999);
    let near = is_number(&s[15..19], 9999999);
    let far = is_number(&s[19..23], 9999999);
    focal & (hyperfocal & (near & far))
}

// Whether fields 9 to 11 are.
fn is_back(s: &[u8; PACKED_LENGTH]) -> bool
    ensures { result ≡ is_got (back_packed.parse (take 6 (drop 23 s.now))) }
{
    let view = is_number(&s[23..25], 4095);
    let pupil = is_number(&s[25..27], 4095) & (number_in(&s[25..27]) % 2048 <= 999);
    let zoom = is_number(&s[27..29], 1000);
    view & (pupil & zoom)
}

// Whether all of a record are.
fn is_record(s: &[u8; PACKED_LENGTH]) -> bool
    ensures { result ≡ is_got (packed_form.parse s.now) }
{
    let figures = is_front(s) & (is_middle(s) & is_back(s));
    figures & codec::is_behind(&s[29..PACKED_LENGTH], b"S")
}

// Whether the reader accepts a message.
pub fn is_right(m: &[u8], checksum: bool) -> bool
    ensures { IsRight m.now checksum result }
{
    let Some(s) = m.first_chunk::<PACKED_LENGTH>() else {
        return false;
    };
    frame::open(m, PACKED_LENGTH, checksum).is_ok() && is_record(s)
}
