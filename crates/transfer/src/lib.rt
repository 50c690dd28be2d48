// Packed records as text, for the transfer station: straight from packed bytes to text bytes, and by way of a record.
// Both routes promise the same. A host's record is written as text by the straight one too. The straight one looks first whether the reader accepts, and asks it why only where it does not.
#![tactic(auto)]

ghost use Rattle.std.specs.Prelude.{false, List, ◌≡◌, ℕ, length};
ghost use Rattle.refusal.specs.Answer.{is_accepted};
ghost use Rattle.frame.specs.Message.{read_of, message_of, Moves};
ghost use Rattle.record.specs.Forms.{text_form, packed_form, packed_length};
ghost use Rattle.packed_bytes.specs.Bytes.{packed_record};
ghost use Rattle.transfer.specs.Transfer.{turned_length};
ghost use Rattle.transfer.specs.Clauses.{PackedToText, ByRecord, RecordToText};

use record::{PACKED_LENGTH, Record, TEXT_LENGTH};
use refusal::Refusal;

// Turns a packed message into the text message of the same record, by way of the record: 3, 4, 5 and 6 of the message, then 2.
pub fn by_record(m: &[u8], checksum: bool, out: &mut [u8]) -> Result<usize, Refusal>
    ensures { ByRecord m.now checksum out.old result out.new }
{
    let record = packed_reader::read_packed(m, checksum)?;
    text_writer::write_text(record, checksum, out)
}

// Why the reader refuses a message, where it does.
fn refusal_of(m: &[u8], checksum: bool) -> Result<usize, Refusal>
    requires { is_accepted (read_of packed_form checksum m.now) ≡ false }
    ensures { (out : List ℕ) → PackedToText m.now checksum out result out }
{
    packed_reader::read_packed(m, checksum)?;
    Ok(0)
}

// Writes the text message of packed contents: 2, else the text and its ending.
fn put_message(out: &mut [u8], s: &[u8], checksum: bool) -> Result<usize, Refusal>
    requires { length s.now ≡ packed_length }
    ensures { Moves (turned_length checksum) (Ok (message_of text_form checksum (packed_record s.now)))
        out.old result out.new }
{
    let n = frame::room_for(out.len(), TEXT_LENGTH as u32, checksum)?;
    straight::put_contents(out, s);
    straight::end_text(out, checksum);
    Ok(n)
}

// Turns a packed message into the text message of the same record, straight.
pub fn packed_to_text(m: &[u8], checksum: bool, out: &mut [u8]) -> Result<usize, Refusal>
    ensures { PackedToText m.now checksum out.old result out.new }
{
    if !packed_bytes::is_right(m, checksum) {
        return refusal_of(m, checksum);
    }
    put_message(out, &m[0..PACKED_LENGTH], checksum)
}

// Writes a record as text by way of its packed bytes: the text writer's message, with the digits of a host, which may divide.
pub fn record_to_text(r: Record, checksum: bool, out: &mut [u8]) -> Result<usize, Refusal>
    ensures { RecordToText r checksum out.old result out.new }
{
    if let Some(lowest) = record::lowest_field(r) {
        return Err(Refusal::Field(lowest));
    }
    let mut packed = [0u8; PACKED_LENGTH];
    packed_writer::put_packed_record(&mut packed, r);
    put_message(out, &packed, checksum)
}
