// The text of a capture: the event that a line tells, or that it is of other form.
#![tactic(auto)]

ghost use Rattle.std.specs.Prelude.{◌≡◌, ◌≤◌};
ghost use Rattle.sign.specs.Sign.{signed_of};
ghost use Rattle.capture.specs.Words.{StartsWord, word, spaces, sole};
ghost use Rattle.capture.specs.Numbers.{hex_value, digits_of, whole_by, whole_of, is_whole, word_value, field_for};
ghost use Rattle.capture.specs.Capture.{received_of, slots_of, number_words, is_letter, figures_at, is_measurement};
ghost use Rattle.capture.specs.Clauses.{BytesBefore, EventOf};

use record::Figures;
use units::Measurement;

// The event that a line tells.
#[derive(Clone, Copy)]
pub enum Event {
    // `R hh`: a received byte.
    Received(u8),
    // `S n`: so many slots, 1..999.
    Slots(u32),
    // `M` and its words: a new measurement.
    Measured(Measurement),
    // A line of other form (10).
    Other,
}

// The largest number of nine digits, and the most slots of a line.
const NINE_DIGITS: u32 = 999999999;

const MOST_SLOTS: u32 = 999;

// The spaces of a line of M, and how many numbers stand before its unit letter.
const M_SPACES: usize = 13;

const M_NUMBERS: usize = 11;

// What a field of a measurement is handed for a number below zero: more than any field holds.
const BEYOND: u32 = 4294967295;

// ---- words

// How many bytes stand before the first such byte; all of them where there is none.
pub fn bytes_before(s: &[u8], byte: u8) -> usize
    ensures { BytesBefore s.now byte result }
{
    s.iter().position(|b| *b == byte).unwrap_or(s.len())
}

// Where the word behind k spaces starts; at the end where there are fewer.
fn word_start(line: &[u8], k: usize) -> usize
    ensures { StartsWord line.now k result }
{
    let mut at = 0;
    for _ in 0..k {
        let n = bytes_before(&line[at..], b' ');
        if line.len() - at <= n {
            return line.len();
        }
        at += n + 1;
    }
    at
}

// The word behind k spaces; empty where there are fewer.
fn word(line: &[u8], k: usize) -> &[u8]
    ensures { result.now ≡ word k line.now }
{
    let at = word_start(line, k);
    let n = bytes_before(&line[at..], b' ');
    let end = at + n;
    &line[at..end]
}

fn space_count(line: &[u8]) -> usize
    ensures { result ≡ spaces line.now }
{
    line.iter().filter(|b| **b == b' ').count()
}

// The byte of a word of one; 0, which is no letter, for a longer one and for none.
fn sole_byte(word: &[u8]) -> u8
    ensures { result ≡ sole word.now }
{
    match word {
        [b] => *b,
        _ => 0,
    }
}

// ---- numbers

// The value of a hex digit of either case. (`to_digit` takes a char and gives a u32: no plainer.)
fn hex_value(digit: u8) -> Option<u8>
    ensures { result ≡ hex_value digit }
{
    match digit {
        b'0'..=b'9' => Some(digit - b'0'),
        b'A'..=b'F' => Some(digit - b'A' + 10),
        b'a'..=b'f' => Some(digit - b'a' + 10),
        _ => None,
    }
}

// 1 to 9 digits.
fn digits_of(word: &[u8]) -> Option<u32>
    ensures { result ≡ digits_of word.now }
{
    if word.len() == 0 {
        return None;
    }
    digits::read_decimal(word, NINE_DIGITS)
}

// The number of this sign and size.
fn signed(below: bool, n: u32) -> i32
    requires { n ≤ 999999999 }
    ensures { result ≡ signed_of below n }
{
    let w = n as i32;
    if below { -w } else { w }
}

// 1 to 9 digits with this sign before them.
fn signed_number(below: bool, word: &[u8]) -> Option<i32>
    ensures { result ≡ whole_by below (digits_of word.now) }
{
    Some(signed(below, digits_of(word)?))
}

// 1 to 9 digits, with a minus before them or none.
fn whole_of(word: &[u8]) -> Option<i32>
    ensures { result ≡ whole_of word.now }
{
    match word.strip_prefix(b"-") {
        Some(digits) => signed_number(true, digits),
        None => signed_number(false, word),
    }
}

fn is_whole(word: &[u8]) -> bool
    ensures { result ≡ is_whole word.now }
{
    whole_of(word).is_some()
}

// The number that a word is; 0 where it is none.
fn word_value(word: &[u8]) -> i32
    ensures { result ≡ word_value word.now }
{
    whole_of(word).unwrap_or(0)
}

// What a field that holds no number below zero is handed.
fn field_for(n: i32) -> u32
    ensures { result ≡ field_for n }
{
    if sign::is_below(n) {
        return BEYOND;
    }
    sign::size_of(n)
}

// ---- events

// `hh`: two hex digits.
fn received_of(word: &[u8]) -> Event
    ensures { result ≡ received_of word.now }
{
    let [first, second] = word else {
        return Event::Other;
    };
    let Some(high) = hex_value(*first) else {
        return Event::Other;
    };
    let Some(low) = hex_value(*second) else {
        return Event::Other;
    };
    Event::Received(high * 16 + low)
}

// `n`: 1..999.
#[tactic(auto, unfolding(crate::specs::Capture::slots_by, laws::specs::Within::within))]
fn slots_of(word: &[u8]) -> Event
    ensures { result ≡ slots_of word.now }
{
    match digits_of(word) {
        Some(n @ 1..=MOST_SLOTS) => Event::Slots(n),
        _ => Event::Other,
    }
}

// Whether the eleven words behind M are numbers.
fn are_numbers(line: &[u8]) -> bool
    ensures { result ≡ number_words 11 line.now }
{
    (1..M_NUMBERS + 1).all(|k| is_whole(word(line, k)))
}

// A letter, of either case.
fn is_letter(byte: u8) -> bool
    ensures { result ≡ is_letter byte }
{
    byte.is_ascii_alphabetic()
}

// Whether the words behind M are eleven numbers, a letter and a number.
fn is_measurement(line: &[u8]) -> bool
    ensures { result ≡ is_measurement line.now }
{
    space_count(line) == M_SPACES
        && are_numbers(line)
        && is_letter(sole_byte(word(line, 12)))
        && is_whole(word(line, 13))
}

// The field that the word behind k spaces gives.
fn field_at(line: &[u8], k: usize) -> u32
    ensures { result ≡ field_for (word_value (word k line.now)) }
{
    field_for(word_value(word(line, k)))
}

// Fields 1 to 11.
#[tactic(auto, unfolding(crate::specs::Capture::figures_at))]
fn figures_at(line: &[u8]) -> Figures
    ensures { result ≡ figures_at line.now }
{
    Figures {
        focus: field_at(line, 1),
        aperture: field_at(line, 2),
        stop: field_at(line, 3),
        tenth: field_at(line, 4),
        focal: field_at(line, 5),
        hyperfocal: field_at(line, 6),
        near: field_at(line, 7),
        far: field_at(line, 8),
        view: field_at(line, 9),
        pupil: word_value(word(line, 10)),
        zoom: field_at(line, 11),
    }
}

// The event that a line tells, known by its whole text.
pub fn event_of(line: &[u8]) -> Event
    ensures { EventOf line.now result }
{
    let pair = space_count(line) == 1;
    match sole_byte(word(line, 0)) {
        b'R' if pair => received_of(word(line, 1)),
        b'S' if pair => slots_of(word(line, 1)),
        b'M' if is_measurement(line) => Event::Measured(Measurement {
            unit: sole_byte(word(line, 12)),
            figures: figures_at(line),
            temperature: word_value(word(line, 13)),
        }),
        _ => Event::Other,
    }
}
