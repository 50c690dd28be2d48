// A record's text straight from its packed bytes, and its ending.
#![tactic(auto)]

ghost use Rattle.std.specs.Prelude.{◌∷◌, ◌≡◌, ◌+◌, ◌*◌, ◌≤◌, length, take, drop};
ghost use Rattle.laws.specs.Lowest.{from_lowest};
ghost use Rattle.laws.specs.Over.{over};
ghost use Rattle.digits.specs.Digits.{decimal};
ghost use Rattle.stop.specs.Stop.{stop_text};
ghost use Rattle.frame.specs.Frame.{xor_from, ending_width};
ghost use Rattle.record.specs.Forms.{front_text, middle_text, back_text, text_form, text_length};
ghost use Rattle.packed_bytes.specs.Bytes.{front_in, middle_in, back_in, packed_record};
ghost use Rattle.straight.specs.Words.{together};
ghost use Rattle.straight.specs.Clauses.{PutContents, EndText};

use packed_bytes::number_in;
use record::{PACKED_LENGTH, TEXT_LENGTH};

// ---- the contents

// Writes a tag and the decimal digits behind it. Three digits and seven are written with one more before them, since four and eight go
// at once, and the tag goes over that one.
fn put_tagged(out: &mut [u8], at: usize, tag: u8, width: usize, n: u32)
    requires { at + (1 + width) ≤ length out.old }
    ensures { out.new ≡ over out.old at (tag ∷ decimal width n) }
{
    if width % 4 == 3 {
        divided::put_decimal(out, at, width + 1, n);
        lent::put_byte(out, at, tag);
        return;
    }
    lent::put_byte(out, at, tag);
    divided::put_decimal(out, at + 1, width, n);
}

// Writes the three characters of a stop.
fn put_stop(out: &mut [u8; TEXT_LENGTH], stop: u32)
    ensures { out.new ≡ over out.old 14 (stop_text stop) }
{
    if stop < 100 {
        divided::put_decimal(out, 14, 1, stop / 10);
        put_tagged(out, 15, b'.', 1, stop % 10);
        return;
    }
    divided::put_decimal(out, 14, 2, stop / 10);
    lent::put_byte(out, 16, b'.');
}

// Writes D, T, t, +.
fn put_front(out: &mut [u8; TEXT_LENGTH], s: &[u8; PACKED_LENGTH])
    ensures { out.new ≡ over out.old 0 (front_text.print (front_in (take 9 s.now))) }
{
    put_tagged(out, 0, b'D', 7, number_in(&s[1..5]));
    put_tagged(out, 8, b'T', 4, number_in(&s[5..7]));
    lent::put_byte(out, 13, b't');
    put_stop(out, packed_bytes::stop_in(s[7], s[8]));
    put_tagged(out, 17, b'+', 1, s[8] as u32 % 64);
}

// Writes Z, H, N, F.
fn put_middle(out: &mut [u8; TEXT_LENGTH], s: &[u8; PACKED_LENGTH])
    ensures { out.new ≡ over out.old 19 (middle_text.print (middle_in (take 14 (drop 9 s.now)))) }
{
    put_tagged(out, 19, b'Z', 4, number_in(&s[9..11]));
    put_tagged(out, 24, b'H', 7, number_in(&s[11..15]));
    put_tagged(out, 32, b'N', 7, number_in(&s[15..19]));
    put_tagged(out, 40, b'F', 7, number_in(&s[19..23]));
}

// Writes V, E, z.
fn put_back(out: &mut [u8; TEXT_LENGTH], s: &[u8; PACKED_LENGTH])
    ensures { out.new ≡ over out.old 48 (back_text.print (back_in (take 6 (drop 23 s.now)))) }
{
    let view = number_in(&s[23..25]);
    put_tagged(out, 48, b'V', 3, view / 10);
    put_tagged(out, 52, b'.', 1, view % 10);
    let code = number_in(&s[25..27]);
    lent::put_byte(out, 54, b'E');
    put_tagged(out, 55, packed_bytes::sign_in(code), 3, code % 2048);
    put_tagged(out, 59, b'z', 4, number_in(&s[27..29]));
}

// Writes them all.
fn put_record(out: &mut [u8; TEXT_LENGTH], s: &[u8; PACKED_LENGTH])
    ensures { out.new ≡ over out.old 0 (text_form.print (packed_record s.now)) }
{
    put_front(out, s);
    put_middle(out, s);
    put_back(out, s);
    lent::put_byte(out, 64, b'S');
    lent::put_text(out, 65, &s[30..PACKED_LENGTH]);
}

// The same, where there are so many bytes and room.
pub fn put_contents(out: &mut [u8], s: &[u8])
    ensures { PutContents out.old s.now out.new }
{
    let Some(s) = s.as_array::<PACKED_LENGTH>() else {
        return;
    };
    let Some(out) = out.first_chunk_mut::<TEXT_LENGTH>() else {
        return;
    };
    put_record(out, s);
}

// ---- the checksum, eight bytes at a time

// Eight bytes as one word.
fn word_in(s: &[u8]) -> u64
    requires { length s.now ≡ 8 }
    ensures { result ≡ from_lowest s.now }
{
    u64::from_le_bytes([s[0], s[1], s[2], s[3], s[4], s[5], s[6], s[7]])
}

// The exclusive-or of the bytes of a word.
fn folded(w: u64) -> u8
    ensures { result ≡ together 8 w }
{
    let four = w ^ (w / 4294967296);
    let two = four ^ (four / 65536);
    ((two ^ (two / 256)) % 256) as u8
}

// The exclusive-or of FF hex and each byte of n words.
fn xor_words(s: &[u8], n: usize) -> u8
    requires { length s.now ≡ 8 * n }
    ensures { result ≡ xor_from 255 s.now }
{
    let mut x: u64 = 255;
    for i in 0..n {
        x ^= word_in(&s[8 * i..8 * i + 8]);
    }
    folded(x)
}

// That of the text: nine words and two bytes.
fn xor_of(s: &[u8]) -> u8
    requires { length s.now ≡ text_length }
    ensures { result ≡ xor_from 255 s.now }
{
    xor_words(&s[0..72], 9) ^ s[72] ^ s[73]
}

// Ends the message.
fn put_ending(out: &mut [u8], checksum: bool)
    requires { text_length + ending_width checksum ≤ length out.old }
    ensures { EndText out.old checksum out.new }
{
    if !checksum {
        lent::put_pair(out, TEXT_LENGTH, b'\n', b'\r');
        return;
    }
    let x = xor_of(&out[0..TEXT_LENGTH]);
    lent::put_pair(out, TEXT_LENGTH, 64 + x / 16, 64 + x % 16);
    lent::put_pair(out, TEXT_LENGTH + 2, b'\n', b'\r');
}

// The same where there is room, which is what frame::put_ending does.
pub fn end_text(out: &mut [u8], checksum: bool)
    ensures { EndText out.old checksum out.new }
{
    if !lent::has_room(out.len(), TEXT_LENGTH, frame::ending_width(checksum)) {
        return;
    }
    put_ending(out, checksum);
}
