// The readers by name over a cut stream: 9 for a message longer than a cutter holds, else what the reader
// answers. A message that lies whole in its piece is read there; only one that began in an earlier piece is joined.
#![tactic(auto)]

ghost use Rattle.std.specs.Prelude.{◌≡◌};
ghost use Rattle.codec.specs.Codec.{Codec};
ghost use Rattle.frame.specs.Message.{read_of};
ghost use Rattle.record.specs.Forms.{text_form, packed_form};
ghost use Rattle.fixed.specs.Form.{fixed_form};
ghost use Rattle.cutter.specs.Cutter.{held_from, held_message, then_read};
ghost use Rattle.cutter.specs.Stream.{judged};
ghost use Rattle.cut_reader.specs.Clauses.{JudgeText, JudgePacked, JudgeFixed, ReadText, ReadPacked, ReadFixed};

use cutter::{CUTTER_LENGTH, Cutter};
use fixed::Fixed;
use record::Record;
use refusal::Refusal;

// A reader by its name: of a message to contents A, in its form.
trait Reader<A> {
    ghost form: { Codec A };

    fn read(m: &[u8], checksum: bool) -> Result<A, Refusal>
        ensures { result ≡ read_of form checksum m.now };
}

struct Text;

struct Packed;

struct Opening;

impl Reader<Record> for Text {
    ghost form = { text_form };

    fn read(m: &[u8], checksum: bool) -> Result<Record, Refusal> {
        text_reader::read_text(m, checksum)
    }
}

impl Reader<Record> for Packed {
    ghost form = { packed_form };

    fn read(m: &[u8], checksum: bool) -> Result<Record, Refusal> {
        packed_reader::read_packed(m, checksum)
    }
}

impl Reader<Fixed> for Opening {
    ghost form = { fixed_form };

    fn read(m: &[u8], checksum: bool) -> Result<Fixed, Refusal> {
        nreader::read_fixed(m, checksum)
    }
}

// What a reader answers to a whole message.
fn judge<A, R: Reader<A>>(m: &[u8], checksum: bool) -> Result<A, Refusal>
    ensures { result ≡ judged (read_of R.form checksum) m.now }
{
    if CUTTER_LENGTH < m.len() {
        return Err(Refusal::TooLong);
    }
    R::read(m, checksum)
}

// What it answers to the message that ends with a part of a piece, its first bytes in the cutter.
fn read<A, R: Reader<A>>(cutter: Cutter, part: &[u8], checksum: bool) -> Result<A, Refusal>
    ensures { result ≡ then_read (read_of R.form checksum) (held_message (held_from cutter part.now)) }
{
    if cutter.len == 0 {
        return judge::<A, R>(part, checksum);
    }
    let held = cutter.held(part);
    if CUTTER_LENGTH < held.len {
        return Err(Refusal::TooLong);
    }
    R::read(&held.bytes[..held.len], checksum)
}

// ---- a whole message

// A text record.
pub fn judge_text(m: &[u8], checksum: bool) -> Result<Record, Refusal>
    ensures { JudgeText m.now checksum result }
{
    judge::<Record, Text>(m, checksum)
}

// A packed record.
pub fn judge_packed(m: &[u8], checksum: bool) -> Result<Record, Refusal>
    ensures { JudgePacked m.now checksum result }
{
    judge::<Record, Packed>(m, checksum)
}

// Fixed data.
pub fn judge_fixed(m: &[u8], checksum: bool) -> Result<Fixed, Refusal>
    ensures { JudgeFixed m.now checksum result }
{
    judge::<Fixed, Opening>(m, checksum)
}

// ---- the message that ends with a part of a piece, its first bytes in the cutter

// A text record.
pub fn read_text(cutter: Cutter, part: &[u8], checksum: bool) -> Result<Record, Refusal>
    ensures { ReadText cutter part.now checksum result }
{
    read::<Record, Text>(cutter, part, checksum)
}

// A packed record.
pub fn read_packed(cutter: Cutter, part: &[u8], checksum: bool) -> Result<Record, Refusal>
    ensures { ReadPacked cutter part.now checksum result }
{
    read::<Record, Packed>(cutter, part, checksum)
}

// Fixed data.
pub fn read_fixed(cutter: Cutter, part: &[u8], checksum: bool) -> Result<Fixed, Refusal>
    ensures { ReadFixed cutter part.now checksum result }
{
    read::<Fixed, Opening>(cutter, part, checksum)
}
