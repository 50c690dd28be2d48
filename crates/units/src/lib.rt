// A measurement, the conversion between 0.1 inch (I) and 1 mm (M), and the record that a measurement
// gives in a display unit.
#![tactic(auto)]

ghost use Rattle.std.specs.Prelude.{◌≡◌, ◌≤◌};
ghost use Rattle.refusal.specs.Answer.{unless};
ghost use Rattle.refusal.specs.declared.Refusal.TheVariants.{Field};
ghost use Rattle.sign.specs.Sign.{size};
ghost use Rattle.codec.specs.Codec.{lowest_named};
ghost use Rattle.record.specs.Record.{top_distance, top_pupil};
ghost use Rattle.units.specs.Units.{is_unit, by_unit, top_in, most_in, size_in, number_in, is_distance, in_range, Distance};
ghost use Rattle.units.specs.Measurement.{temperature_ok, measurement_lowest, shown_distance, shown_pupil, figures_in};
ghost use Rattle.units.specs.Clauses.{Convert, CheckMeasurement, RecordOf};

use record::{Figures, Record};
use refusal::Refusal;

#[derive(Clone, Copy)]
pub struct Measurement {
    // I or M, the unit of fields 1, 6, 7, 8 and 10; a byte, since any other is refused by 1 (check_measurement)
    pub unit: u8,
    pub figures: Figures,
    // in degrees
    pub temperature: i32,
}

// ---- the units

fn is_unit(u: u8) -> bool
    ensures { result ≡ is_unit u }
{
    matches!(u, b'I' | b'M')
}

// The first for I, the second for M.
fn by_unit(u: u8, inch: u32, mm: u32) -> u32
    ensures { result ≡ by_unit u inch mm }
{
    if u == b'I' { inch } else { mm }
}

// How far a distance reaches.
fn top_in(u: u8) -> u32
    ensures { result ≡ top_in u }
{
    by_unit(u, 3937007, 9999999)
}

// How far the pupil reaches from zero.
fn most_in(u: u8) -> u32
    ensures { result ≡ most_in u }
{
    by_unit(u, 393, 999)
}

// ---- the conversion

// 2^38. A sum of the conversion times one of the two below, over this, is exactly the sum divided by 100 or 254.
const SCALE: u64 = 274877906944;

// 2^38 / 100, rounded up.
const RECIPROCAL_100: u64 = 2748779070;

// 2^38 / 254, rounded up.
const RECIPROCAL_254: u64 = 1082196485;

// A size of one unit in the other: the nearest whole number, halves up.
fn size_in(unit: u8, wanted: u8, n: u32) -> u32
    requires { n ≤ top_distance }
    ensures { result ≡ size_in unit wanted n }
{
    if unit == wanted {
        return n;
    }
    if unit == b'I' {
        let sum = (254 * n + 50) as u64;
        return (sum * RECIPROCAL_100 / SCALE) as u32;
    }
    let sum = (100 * n + 127) as u64;
    (sum * RECIPROCAL_254 / SCALE) as u32
}

// The pupil of one unit in the other: halves away from zero.
fn pupil_in(unit: u8, wanted: u8, e: i32) -> i32
    requires { size e ≤ top_pupil }
    ensures { result ≡ number_in unit wanted e }
{
    let n = size_in(unit, wanted, sign::size_of(e));
    sign::signed_of(sign::is_below(e), n as u16)
}

// A distance of one unit in the other.
fn distance_in(unit: u8, wanted: u8, d: i32) -> i32
    requires { Distance d }
    ensures { result ≡ number_in unit wanted d }
{
    let n = size_in(unit, wanted, sign::size_of(d));
    n as i32
}

// Whether the field is a distance.
fn is_distance(field: u32) -> bool
    ensures { result ≡ is_distance field }
{
    matches!(field, 1 | 6 | 7 | 8)
}

// Whether the field is one that is converted, and the number in its unit's range.
fn in_range(field: u32, number: i32, unit: u8) -> bool
    ensures { result ≡ in_range field number unit }
{
    if field == 10 {
        return sign::size_of(number) <= most_in(unit);
    }
    if !is_distance(field) {
        return false;
    }
    if sign::is_below(number) {
        return false;
    }
    sign::size_of(number) <= top_in(unit)
}

// A number of a field, where the letters are right. (Called with a letter that is known: each unit has its own code.)
fn convert_from(field: u32, number: i32, unit: u8, wanted: u8) -> Result<i32, Refusal>
    ensures { result ≡ unless (in_range field number unit) (Field field) (Ok (number_in unit wanted number)) }
{
    if !in_range(field, number, unit) {
        return Err(Refusal::Field(field));
    }
    if field == 10 {
        return Ok(pupil_in(unit, wanted, number));
    }
    Ok(distance_in(unit, wanted, number))
}

// A number of a field in the wanted unit.
pub fn convert(field: u32, number: i32, unit: u8, wanted: u8) -> Result<i32, Refusal>
    ensures { Convert field number unit wanted result }
{
    if !is_unit(wanted) {
        return Err(Refusal::Field(0));
    }
    match unit {
        b'I' => convert_from(field, number, b'I', wanted),
        b'M' => convert_from(field, number, b'M', wanted),
        _ => Err(Refusal::Field(0)),
    }
}

// ---- the measurement

fn temperature_ok(t: i32) -> bool
    ensures { result ≡ temperature_ok t }
{
    (-99..=199).contains(&t)
}

// The lowest of fields 1 to 11, then 13, that is out of range.
fn lowest_of(m: Measurement) -> Option<u32>
    ensures { result ≡ lowest_named (measurement_lowest m) }
{
    let lowest = record::lowest_figure(m.figures, top_in(m.unit), most_in(m.unit));
    if lowest.is_some() {
        return lowest;
    }
    if !temperature_ok(m.temperature) {
        return Some(13);
    }
    None
}

// Whether a measurement may be taken.
pub fn check_measurement(m: Measurement) -> Result<(), Refusal>
    ensures { CheckMeasurement m result }
{
    if !is_unit(m.unit) {
        return Err(Refusal::Field(0));
    }
    if let Some(lowest) = lowest_of(m) {
        return Err(Refusal::Field(lowest));
    }
    Ok(())
}

// A distance in the display unit; 0 for one out of every range, which no accepted measurement has.
fn shown_distance(unit: u8, display: u8, n: u32) -> u32
    ensures { result ≡ shown_distance unit display n }
{
    if n > 9999999 {
        return 0;
    }
    size_in(unit, display, n)
}

// The pupil in the display unit; 0 for one out of every range, which none has either.
fn shown_pupil(unit: u8, display: u8, e: i32) -> i32
    ensures { result ≡ shown_pupil unit display e }
{
    if sign::size_of(e) > 999 {
        return 0;
    }
    pupil_in(unit, display, e)
}

// Fields 1 to 11 in the display unit.
fn figures_in(f: Figures, unit: u8, display: u8) -> Figures
    ensures { result ≡ figures_in unit display f }
{
    Figures {
        focus: shown_distance(unit, display, f.focus),
        aperture: f.aperture,
        stop: f.stop,
        tenth: f.tenth,
        focal: f.focal,
        hyperfocal: shown_distance(unit, display, f.hyperfocal),
        near: shown_distance(unit, display, f.near),
        far: shown_distance(unit, display, f.far),
        view: f.view,
        pupil: shown_pupil(unit, display, f.pupil),
        zoom: f.zoom,
    }
}

// The record of a measurement in the display unit; what no accepted measurement holds counts as 0.
pub fn record_of(m: Measurement, display: u8, serial: [u8; 9]) -> Record
    ensures { RecordOf m display serial result }
{
    let figures = figures_in(m.figures, m.unit, display);
    Record { figures, serial }
}
