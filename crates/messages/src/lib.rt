// Each reply and record as a message: its bytes at the start of a fresh buffer of zeros, ended with or
// without a checksum.
#![tactic(auto)]

ghost use Rattle.std.specs.Prelude.{◌≡◌, true, ◌∷◌, ◌+◌, ◌≤◌, length};
ghost use Rattle.frame.specs.Frame.{ending_width, framed};
ghost use Rattle.units.specs.Measurement.{degrees};
ghost use Rattle.state.specs.State.{message_length, unsent};
ghost use Rattle.messages.specs.Built.{closed_of};
ghost use Rattle.messages.specs.Clauses.{LetterMessage, VersionMessage, MakerMessage, TypeMessage, RateMessage, FixedMessage, DegreesMessage, BlurMessage, TextMessage, PackedMessage};

use fixed::{FIXED_LENGTH, Fixed};
use record::{PACKED_LENGTH, Record, TEXT_LENGTH};
use state::{MESSAGE_LENGTH, Message};

// The first n bytes of a buffer, ended, about to be sent.
fn closed(bytes: [u8; MESSAGE_LENGTH], n: usize, checksum: bool) -> Message
    requires { n + ending_width true ≤ message_length }
    ensures { result ≡ closed_of bytes n checksum }
{
    let mut buffer = bytes;
    frame::put_ending(&mut buffer, n, checksum);
    Message {
        bytes: buffer,
        len: n + frame::ending_width(checksum),
        at: 0,
    }
}

// One byte.
pub fn letter_message(byte: u8, checksum: bool) -> Message
    ensures { LetterMessage byte checksum result }
{
    let mut bytes = [0u8; MESSAGE_LENGTH];
    lent::put_byte(&mut bytes, 0, byte);
    closed(bytes, 1, checksum)
}

// Two bytes and a text.
fn named(first: u8, second: u8, text: &[u8], checksum: bool) -> Message
    requires { 2 + length text.now + ending_width true ≤ message_length }
    ensures { result ≡ unsent (framed checksum (first ∷ second ∷ text.now)) }
{
    let mut bytes = [0u8; MESSAGE_LENGTH];
    lent::put_pair(&mut bytes, 0, first, second);
    lent::put_text(&mut bytes, 2, text);
    closed(bytes, 2 + text.len(), checksum)
}

// B, a space and the version.
pub fn version_message(version: [u8; 4], checksum: bool) -> Message
    ensures { VersionMessage version checksum result }
{
    named(b'B', b' ', &version, checksum)
}

// K3 and the maker's name.
pub fn maker_message(maker: [u8; 15], checksum: bool) -> Message
    ensures { MakerMessage maker checksum result }
{
    named(b'K', b'3', &maker, checksum)
}

// K4 and the name of the type.
pub fn type_message(name: [u8; 30], checksum: bool) -> Message
    ensures { TypeMessage name checksum result }
{
    named(b'K', b'4', &name, checksum)
}

// Kb, the digit of a rate number and !.
pub fn rate_message(digit: u8, checksum: bool) -> Message
    ensures { RateMessage digit checksum result }
{
    let text = [digit, b'!'];
    named(b'K', b'b', &text, checksum)
}

// The fixed data.
pub fn fixed_message(fixed: Fixed, checksum: bool) -> Message
    ensures { FixedMessage fixed checksum result }
{
    let mut bytes = [0u8; MESSAGE_LENGTH];
    nwriter::put_fixed_data(&mut bytes, fixed);
    closed(bytes, FIXED_LENGTH, checksum)
}

// What P sends of a temperature: below 0 the letters FF, else two digits, above 99 those of 99.
fn degrees_of(t: i32) -> [u8; 2]
    ensures { result ≡ degrees t }
{
    if sign::is_below(t) {
        return *b"FF";
    }
    let n = sign::size_of(t);
    let mut shown = *b"99";
    if n <= 99 {
        digits::put_decimal(&mut shown, 0, 2, n);
    }
    shown
}

// P and the degrees.
pub fn degrees_message(t: i32, checksum: bool) -> Message
    ensures { DegreesMessage t checksum result }
{
    let shown = degrees_of(t);
    let mut bytes = [0u8; MESSAGE_LENGTH];
    lent::put_byte(&mut bytes, 0, b'P');
    lent::put_text(&mut bytes, 1, &shown);
    closed(bytes, 3, checksum)
}

// A letter, 0.0 and the three digits of a blur circle.
pub fn blur_message(letter: u8, circle: u16, checksum: bool) -> Message
    ensures { BlurMessage letter circle checksum result }
{
    let head = [letter, b'0', b'.', b'0'];
    let mut bytes = [0u8; MESSAGE_LENGTH];
    lent::put_text(&mut bytes, 0, &head);
    digits::put_decimal(&mut bytes, 4, 3, circle as u32);
    closed(bytes, 7, checksum)
}

// The text record. (The three forms differ in their writer alone: handed over as a closure it would need a contract of its own.)
pub fn text_message(r: Record, checksum: bool) -> Message
    ensures { TextMessage r checksum result }
{
    let mut bytes = [0u8; MESSAGE_LENGTH];
    text_writer::put_text_record(&mut bytes, r);
    closed(bytes, TEXT_LENGTH, checksum)
}

// The packed record.
pub fn packed_message(r: Record, checksum: bool) -> Message
    ensures { PackedMessage r checksum result }
{
    let mut bytes = [0u8; MESSAGE_LENGTH];
    packed_writer::put_packed_record(&mut bytes, r);
    closed(bytes, PACKED_LENGTH, checksum)
}
