// The serial, field 12: S and nine bytes of text, the same in both forms of a record.
#![tactic(auto)]

ghost use Rattle.serial.specs.Clauses.{PutSerial, NineOf, RecordFrom};

use record::{Figures, Record};

// Writes S and the nine bytes.
pub fn put_serial(out: &mut [u8], at: usize, text: [u8; 9])
    ensures { PutSerial out.old at text out.new }
{
    if !lent::has_room(out.len(), at, 10) {
        return;
    }
    lent::put_byte(out, at, b'S');
    lent::put_text(out, at + 1, &text);
}

// Nine bytes by value; zeros where s has another length.
pub fn nine_of(s: &[u8]) -> [u8; 9]
    ensures { NineOf s.now result }
{
    let mut nine = [0; 9];
    codec::put_item(&mut nine, s);
    nine
}

// The record of fields 1 to 11 and a serial of any length. Another than nine bytes is left as zeros, which no text holds:
// the writers refuse it as field 12.
pub fn record_from(figures: Figures, text: &[u8]) -> Record
    ensures { RecordFrom figures text.now result }
{
    let serial = nine_of(text);
    Record { figures, serial }
}
