// How a record and fixed data lie in a C host's memory: numbers in whole bytes, lowest first. What does not
// fit is not written.
#![tactic(auto)]

ghost use Rattle.std.specs.Prelude.{◌≡◌, ◌*◌, ◌≤◌, length};
ghost use Rattle.laws.specs.Lowest.{lowest_first};
ghost use Rattle.laws.specs.Over.{over};
ghost use Rattle.layout.specs.Layout.{four_each, twos, numbers_of, lens_bytes, fixed_width};
ghost use Rattle.layout.specs.Clauses.{PutRecord, PutFixed};

use fixed::{Fixed, Lens};
use record::{Figures, Record};

// How many bytes a record and fixed data take.
pub const RECORD_WIDTH: usize = 53;

pub const FIXED_WIDTH: usize = 51;

// Writes the lowest bytes of n, as many as width, lowest first.
fn put_number(out: &mut [u8], at: usize, width: usize, n: u32)
    ensures { out.new ≡ over out.old at (lowest_first width n) }
{
    if !lent::has_room(out.len(), at, width) {
        return;
    }
    let mut m = n;
    for i in 0..width {
        out[at + i] = (m % 256) as u8;
        m /= 256;
    }
}

// Writes numbers one behind the other, four bytes each, from the start on.
fn put_numbers(out: &mut [u8], numbers: &[u32])
    requires { 4 * length numbers.now ≤ length out.old }
    ensures { out.new ≡ over out.old 0 (four_each numbers.now) }
{
    for (i, &n) in numbers.iter().enumerate() {
        put_number(out, 4 * i, 4, n);
    }
}

// The 32 bits of a signed number.
fn twos_of(e: i32) -> u32
    ensures { result ≡ twos e }
{
    if sign::is_below(e) {
        return 4294967295 - (sign::size_of(e) - 1);
    }
    sign::size_of(e)
}

// Fields 1 to 11 in order.
fn numbers_of(f: Figures) -> [u32; 11]
    ensures { result ≡ numbers_of f }
{
    let e = f.pupil;
    [
        f.focus,
        f.aperture,
        f.stop,
        f.tenth,
        f.focal,
        f.hyperfocal,
        f.near,
        f.far,
        f.view,
        twos_of(e),
        f.zoom,
    ]
}

// Writes a record.
pub fn put_record(out: &mut [u8], r: Record)
    ensures { PutRecord out.old r out.new }
{
    if out.len() < RECORD_WIDTH {
        return;
    }
    put_numbers(out, &numbers_of(r.figures));
    lent::put_text(out, 44, &r.serial);
}

// Writes items 3 to 7 at their place.
fn put_lens(out: &mut [u8], l: Lens)
    requires { fixed_width ≤ length out.old }
    ensures { out.new ≡ over out.old 40 (lens_bytes l) }
{
    lent::put_byte(out, 40, l.kind);
    put_number(out, 41, 2, l.focal);
    put_number(out, 43, 2, l.maximum);
    lent::put_byte(out, 45, l.letter);
    put_number(out, 46, 1, l.transmission);
}

// Writes fixed data.
pub fn put_fixed(out: &mut [u8], f: Fixed)
    ensures { PutFixed out.old f out.new }
{
    if out.len() < FIXED_WIDTH {
        return;
    }
    lent::put_text(out, 0, &f.serial);
    lent::put_text(out, 9, &f.owner);
    put_lens(out, f.lens);
    lent::put_text(out, 47, &f.version);
}
