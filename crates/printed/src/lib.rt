// What a replay prints.
#![tactic(auto)]

ghost use Rattle.std.specs.Prelude.{◌≡◌, ◌<◌, ◌≤◌, length};
ghost use Rattle.printed.specs.Printed.{hex_digit, width_of, labelled, Prints};
ghost use Rattle.printed.specs.Clauses.{PutSlot, Separator, PutVerdict, PutCount};

use refusal::Refusal;

// A hex digit, in lower case.
fn hex_digit(n: u8) -> u8
    requires { n < 16 }
    ensures { result ≡ hex_digit n }
{
    match n {
        0..=9 => b'0' + n,
        _ => b'a' + (n - 10),
    }
}

// A slot: its byte in hex, or -- where it is idle.
pub fn put_slot(sent: Result<Option<u8>, Refusal>, out: &mut [u8], at: usize)
    ensures { PutSlot sent out.old at out.new }
{
    match sent {
        Ok(Some(b)) => lent::put_pair(out, at, hex_digit(b / 16), hex_digit(b % 16)),
        _ => lent::put_pair(out, at, b'-', b'-'),
    }
}

// What stands behind a slot: a space, or the line's end behind the last.
pub fn separator(left: u32) -> u8
    ensures { Separator left result }
{
    if left == 0 { b'\n' } else { b' ' }
}

// How many digits a number has; none here has more than six.
fn width_of(n: u32) -> usize
    ensures { result ≡ width_of n }
{
    match n {
        0..=9 => 1,
        10..=99 => 2,
        100..=999 => 3,
        1000..=9999 => 4,
        10000..=99999 => 5,
        _ => 6,
    }
}

// A label and a number, as a line.
fn put_labelled(out: &mut [u8], label: &[u8], n: u32) -> Result<usize, Refusal>
    requires { length label.now ≤ 8 }
    ensures { Prints (labelled label.now n) out.old result out.new }
{
    let at = label.len();
    let width = width_of(n);
    let need = at + width + 1;
    if out.len() < need {
        return Err(Refusal::Room(need));
    }
    lent::put_text(out, 0, label);
    digits::put_decimal(out, at, width, n);
    lent::put_byte(out, at + width, b'\n');
    Ok(need)
}

// What a verdict prints: nothing, or its refusal.
pub fn put_verdict(verdict: Result<(), Refusal>, out: &mut [u8]) -> Result<usize, Refusal>
    ensures { PutVerdict verdict out.old result out.new }
{
    match verdict {
        Ok(()) => Ok(0),
        Err(r) => put_labelled(out, b"refused ", refusal::number_of(r)),
    }
}

// The last line: the slots run.
pub fn put_count(n: u32, out: &mut [u8]) -> Result<usize, Refusal>
    ensures { PutCount n out.old result out.new }
{
    put_labelled(out, b"slots ", n)
}
