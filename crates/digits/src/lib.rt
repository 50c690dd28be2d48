// Numbers as digits, highest first: decimal digits for text, groups of six bits for the packed form.
// One reader serves both, over the base and what a digit is sent on top of. The writer of decimal digits
// subtracts powers of ten, since the box has no divider.
#![tactic(auto)]

ghost use Rattle.std.specs.Prelude.{◌≡◌, suc, ◌+◌, ◌*◌, ◌/◌, ◌%◌, ◌^◌, ◌<◌, ◌≤◌, length};
ghost use Rattle.laws.specs.Over.{over};
ghost use Rattle.digits.specs.Digits.{decimal, read_field};
ghost use Rattle.digits.specs.Clauses.{PutDecimal, PutGroups, ReadDecimal, ReadGroups};

// No field takes more bytes. Nine decimal digits fit 32 bits, and nine groups fit 64.
const WIDEST: usize = 9;

// ---- decimal digits, by subtracting powers of ten
//
// They are written in blocks of seven, and no field that is written has more. A number n below 10^7 is held as 256 n:
// to take 256 p - 1 from that is to take p from the number and to count it in the low byte.

// The character 0.
const ZERO: u32 = 48;

// The digits of a block.
const BLOCK: usize = 7;

// The power of ten above them.
const TOP: u32 = 10000000;

// The top bit: a difference that wrapped below zero has it.
const WRAPPED: u32 = 2147483648;

// The power of ten with so many zeros, at most seven.
fn power(zeros: usize) -> u32
    requires { zeros < 8 }
    ensures { result ≡ 10 ^ zeros }
{
    match zeros {
        0 => 1,
        1 => 10,
        2 => 100,
        3 => 1000,
        4 => 10000,
        5 => 100000,
        6 => 1000000,
        _ => 10000000,
    }
}

// Takes a part away once, where it fits. The difference decides: a machine that can choose without a branch needs none.
fn without(x: u32, part: u32) -> u32
    requires { (x < 2 * part) × (part ≤ 2 ^ 31) }
    ensures { result ≡ x % part }
{
    let rest = std::num::wrapping_sub_u32(x, part);
    if rest < WRAPPED { rest } else { x }
}

// Takes a power of ten away as often as it fits, at most nine times, by eight, four, two and one: the digit in the
// low byte, what is left above it.
fn split(x: u32, zeros: usize) -> u32
    requires { (zeros < 7) × (x % 256 ≡ 0) × (x / 256 < 10 ^ suc zeros) }
    ensures { result ≡ 256 * (x / 256 % 10 ^ zeros) + x / 256 / 10 ^ zeros }
{
    let part = 256 * power(zeros) - 1;
    let below_eight = without(x, 8 * part);
    let below_four = without(below_eight, 4 * part);
    let below_two = without(below_four, 2 * part);
    without(below_two, part)
}

// The number alone, with nothing counted.
fn uncounted(x: u32) -> u32
    ensures { result ≡ 256 * (x / 256) }
{
    x - x % 256
}

// A number cut above its seven lowest digits.
#[derive(Clone, Copy)]
struct HighLow {
    high: u32,
    low: u32,
}

// Takes 10^7 away as often as it fits. What is left is below `times` times 10^7, which each turn halves, so that nothing is
// counted; a u32 is below 430 times 10^7.
fn cut(n: u32) -> HighLow
    ensures { (result.high ≡ n / 10 ^ 7) × (result.low ≡ n % 10 ^ 7) }
{
    let mut high = 0;
    let mut low = n;
    let mut times = 430;
    while 1 < times {
        let half = times / 2;
        if TOP * half <= low {
            low -= TOP * half;
            high += half;
        }
        times -= half;
    }
    HighLow { high, low }
}

// Holds what n is below the power with width zeros.
fn held(n: u32, width: usize) -> u32
    requires { width < 8 }
    ensures { result ≡ 256 * (n % 10 ^ width) }
{
    if n < power(width) {
        return 256 * n;
    }
    let parts = cut(n);
    let mut x = 256 * parts.low;
    for zeros in (width..BLOCK).rev() {
        x = uncounted(split(x, zeros));
    }
    x
}

// Writes the digits of a block, or the lowest of them.
fn put_block(out: &mut [u8], at: usize, width: usize, n: u32)
    requires { (width < 8) × (at + width ≤ length out.old) }
    ensures { out.new ≡ over out.old at (decimal width n) }
{
    if width == 0 {
        return;
    }
    let last = at + (width - 1);
    let mut x = held(n, width);
    for zeros in (1..BLOCK).rev() {
        if zeros < width {
            let next = split(x, zeros);
            out[last - zeros] = (ZERO + next % 256) as u8;
            x = uncounted(next);
        }
    }
    out[last] = (ZERO + x / 256) as u8;
}

// ---- digits of either base

// Reads the whole of s as digits of a number that is at most top.
fn get(s: &[u8], base: u64, off: u64, top: u32) -> Option<u32>
    requires { (0 < base) × (base ≤ 64) × (off + base ≤ 256) }
    ensures { result ≡ read_field base off top s.now }
{
    if WIDEST < s.len() {
        return None;
    }
    let mut v: u64 = 0;
    for &byte in s {
        let d = u64::from(byte);
        if d < off {
            return None;
        }
        if base <= d - off {
            return None;
        }
        v = v * base + (d - off);
    }
    let most = top as u64;
    if most < v {
        return None;
    }
    Some(v as u32)
}

// Writes width decimal digits, with leading zeros: whole blocks from the end on, and what is left of the width.
// (A `for` over chunks from the end would cut a field of one block too: 163 instructions for four digits, not 112.)
pub fn put_decimal(out: &mut [u8], at: usize, width: usize, n: u32)
    ensures { PutDecimal out.old at width n out.new }
{
    if !lent::has_room(out.len(), at, width) {
        return;
    }
    let mut left = width;
    let mut m = n;
    while BLOCK < left {
        left -= BLOCK;
        let parts = cut(m);
        put_block(out, at + left, BLOCK, parts.low);
        m = parts.high;
    }
    put_block(out, at, left, m);
}

// Writes width groups of six bits, each under bits 01; unused high bits are 0.
pub fn put_groups(out: &mut [u8], at: usize, width: usize, n: u32)
    ensures { PutGroups out.old at width n out.new }
{
    if !lent::has_room(out.len(), at, width) {
        return;
    }
    let mut m = n;
    for left in (0..width).rev() {
        out[at + left] = (64 + m % 64) as u8;
        m /= 64;
    }
}

// Reads decimal digits of a number that is at most top.
pub fn read_decimal(s: &[u8], top: u32) -> Option<u32>
    ensures { ReadDecimal s.now top result }
{
    get(s, 10, b'0' as u64, top)
}

// Reads groups of six bits of a number that is at most top.
pub fn read_groups(s: &[u8], top: u32) -> Option<u32>
    ensures { ReadGroups s.now top result }
{
    get(s, 64, 64, top)
}
