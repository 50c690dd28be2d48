// The ring stop and its tenth: the stop as three characters of text (5.6, 11.), and both as the
// shared pair of the packed form.
#![tactic(auto)]

ghost use Rattle.stop.specs.Clauses.{StopOk, PutStopText, ReadStopText, PutStopPair, ReadStop, ReadTenth};

// Whether a stop may be sent: 0..99, or a multiple of 10 in 100..250. Below 251, 205 / 2048 serves for a tenth.
pub fn stop_ok(stop: u32) -> bool
    ensures { StopOk stop result }
{
    if 250 < stop {
        return false;
    }
    (stop < 100) | (stop * 205 / 2048 * 10 == stop)
}

// Writes the three characters of a stop; from 100 on the point stands in the place of the third digit.
pub fn put_stop_text(out: &mut [u8], at: usize, stop: u32)
    ensures { PutStopText out.old at stop out.new }
{
    if stop < 100 {
        pointed::put_pointed(out, at, 1, stop);
        return;
    }
    if !lent::has_room(out.len(), at, 3) {
        return;
    }
    digits::put_decimal(out, at, 3, stop);
    lent::put_byte(out, at + 2, b'.');
}

// Reads the three characters of a stop; where the point stands tells the form.
pub fn read_stop_text(s: &[u8]) -> Option<u32>
    ensures { ReadStopText s.now result }
{
    if s.len() != 3 {
        return None;
    }
    if s[1] == b'.' {
        return pointed::read_pointed(s, 99);
    }
    if s[2] != b'.' {
        return None;
    }
    let n = digits::read_decimal(&s[..2], 25)?;
    if n < 10 {
        return None;
    }
    Some(n * 10)
}

// Writes the shared pair.
pub fn put_stop_pair(out: &mut [u8], at: usize, stop: u32, tenth: u32)
    ensures { PutStopPair out.old at stop tenth out.new }
{
    let first = 128 + stop % 128;
    let second = 128 + 64 * (stop / 128 % 2) + tenth % 16;
    lent::put_pair(out, at, first as u8, second as u8);
}

// Reads the stop of a shared pair.
pub fn read_stop(a: u8, b: u8) -> Option<u32>
    ensures { ReadStop a b result }
{
    let x = u32::from(a);
    let y = u32::from(b);
    if x / 128 != 1 {
        return None;
    }
    let stop = x % 128 + 128 * (y / 64 % 2);
    if !stop_ok(stop) {
        return None;
    }
    Some(stop)
}

// Reads the tenth of a shared pair from its second byte.
pub fn read_tenth(b: u8) -> Option<u32>
    ensures { ReadTenth b result }
{
    let y = u32::from(b);
    if y / 128 != 1 {
        return None;
    }
    let tenth = y % 64;
    if 9 < tenth {
        return None;
    }
    Some(tenth)
}
