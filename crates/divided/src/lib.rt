// Decimal digits by division, for a computer that has a divider. The writer of the crate digits, which the box has,
// subtracts powers of ten instead; this one promises the same.
// Four digits and eight are made at once, in a word whose bytes are the digits, first digit lowest, and stored as one; others two at a time.
#![tactic(auto)]

ghost use Rattle.std.specs.Prelude.{◌≡◌, ◌+◌, ◌≤◌, ◌<◌, length};
ghost use Rattle.laws.specs.Lowest.{lowest_first};
ghost use Rattle.laws.specs.Over.{over};
ghost use Rattle.digits.specs.Digits.{decimal};
ghost use Rattle.divided.specs.Clauses.{PutDecimal};

// ---- words of digits
//
// A word has a lane of 16 bits for each two digits. Each lane has a number below 100: times 103 and divided by 1,024 that is its tens,
// and what the lane above it leaves there is above those four bits. To take 2,559 times the tens from 256 times the number is to put the
// tens below the ones.

// The four digits of n.
fn four(n: u32) -> u32
    requires { n < 10000 }
    ensures { lowest_first 4 result ≡ decimal 4 n }
{
    let hundreds = n / 100;
    let lanes = 65536 * n - 6553599 * hundreds;
    let tens = lanes * 103 / 1024 & 0x000F000F;
    256 * lanes - 2559 * tens + 0x30303030
}

// The eight digits of n. First each half has a lane of 32 bits; times 10,486 and divided by 2^20 it is its hundreds.
fn eight(n: u64) -> u64
    requires { n < 100000000 }
    ensures { lowest_first 8 result ≡ decimal 8 n }
{
    let halves = 4294967296 * n - 42949672959999 * (n / 10000);
    let hundreds = halves * 10486 / 1048576 & 0x0000007F0000007F;
    let lanes = 65536 * halves - 6553599 * hundreds;
    let tens = lanes * 103 / 1024 & 0x000F000F000F000F;
    256 * lanes - 2559 * tens + 0x3030303030303030
}

// Stores the bytes of a word of 32 bits.
fn put_four(out: &mut [u8], at: usize, w: u32)
    requires { at + 4 ≤ length out.old }
    ensures { out.new ≡ over out.old at (lowest_first 4 w) }
{
    out[at..at + 4].copy_from_slice(&w.to_le_bytes());
}

// Stores those of a word of 64.
fn put_eight(out: &mut [u8], at: usize, w: u64)
    requires { at + 8 ≤ length out.old }
    ensures { out.new ≡ over out.old at (lowest_first 8 w) }
{
    out[at..at + 8].copy_from_slice(&w.to_le_bytes());
}

// ---- digits of any width

// Writes them two at a time, from the end on.
fn put_pairs(out: &mut [u8], at: usize, width: usize, n: u32)
    requires { at + width ≤ length out.old }
    ensures { out.new ≡ over out.old at (decimal width n) }
{
    let odd = width % 2;
    let mut m = n;
    for pair in (0..width / 2).rev() {
        let left = odd + 2 * pair;
        let two = m % 100;
        out[at + left] = (48 + two / 10) as u8;
        out[at + left + 1] = (48 + two % 10) as u8;
        m /= 100;
    }
    if odd == 1 {
        out[at] = (48 + m % 10) as u8;
    }
}

// Writes width decimal digits, with leading zeros.
pub fn put_decimal(out: &mut [u8], at: usize, width: usize, n: u32)
    ensures { PutDecimal out.old at width n out.new }
{
    if !lent::has_room(out.len(), at, width) {
        return;
    }
    match width {
        4 => put_four(out, at, four(n % 10000)),
        8 => put_eight(out, at, eight(n as u64 % 100000000)),
        _ => put_pairs(out, at, width, n),
    }
}
