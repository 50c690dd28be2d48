// The fixed data and the settings by value: their items, and what may be sent.
#![tactic(auto)]

ghost use Rattle.std.specs.Prelude.{◌≡◌, eqb};
ghost use Rattle.codec.specs.Codec.{lowest_named, text_ok};
ghost use Rattle.fixed.specs.Fixed.{blur_ok, lens_lowest, fixed_lowest};
ghost use Rattle.fixed.specs.Clauses.{NoFixed, IsKind, IsLetter, LowestItem, LowestSetting, AreSettings, FixedFrom};

// How many bytes the contents of the N message take.
pub const FIXED_LENGTH: usize = 65;

// Items 3 to 7: what is no text. (Kind and letter are bytes, since any other byte is refused by 8: lowest_item.)
#[derive(Clone, Copy)]
pub struct Lens {
    // 3: the lens type, P or Z
    pub kind: u8,
    // 4: the focal length
    pub focal: u32,
    // 5
    pub maximum: u32,
    // 6: the start-up letter, I, M, B or b
    pub letter: u8,
    // 7
    pub transmission: u32,
}

// Items 1 to 8: what the N message carries.
#[derive(Clone, Copy)]
pub struct Fixed {
    // 1
    pub serial: [u8; 9],
    // 2
    pub owner: [u8; 31],
    // 3 to 7
    pub lens: Lens,
    // 8
    pub version: [u8; 4],
}

// Items 1 to 11.
#[derive(Clone, Copy)]
pub struct Settings {
    pub fixed: Fixed,
    // 9
    pub maker: [u8; 15],
    // 10
    pub type_name: [u8; 30],
    // 11: in units of 0.0001 mm
    pub blur: [u16; 32],
}

// Fixed data of zeros.
pub fn no_fixed() -> Fixed
    ensures { NoFixed result }
{
    let lens = Lens {
        kind: 0,
        focal: 0,
        maximum: 0,
        letter: 0,
        transmission: 0,
    };
    Fixed {
        serial: [0; 9],
        owner: [0; 31],
        lens,
        version: [0; 4],
    }
}

// Whether a byte is a lens type.
pub fn is_kind(b: u8) -> bool
    ensures { IsKind b result }
{
    matches!(b, b'P' | b'Z')
}

// Whether a byte is a start-up letter. Not by `matches!`, which branches, and then the settings take 226 instructions and not 196.
pub fn is_letter(b: u8) -> bool
    ensures { IsLetter b result }
{
    (b == b'I') | (b == b'M') | (b == b'B') | (b == b'b')
}

// Whether a text has its length and only bytes that may stand in one.
fn is_item(s: &[u8], long: usize) -> bool
    ensures { result ≡ text_ok long s.now }
{
    let printable = codec::is_text(s);
    (s.len() == long) & printable
}

// Whether every blur circle is in range.
fn is_blur(s: &[u16]) -> bool
    ensures { result ≡ blur_ok s.now }
{
    let mut all = true;
    for &circle in s {
        all &= circle <= 999;
    }
    all
}

// The lowest of items 3 to 7 that is out of range.
fn lowest_of_lens(l: Lens) -> Option<u32>
    ensures { result ≡ lowest_named (lens_lowest l) }
{
    if !is_kind(l.kind) {
        return Some(3);
    }
    if 999 < l.focal {
        return Some(4);
    }
    if 999 < l.maximum {
        return Some(5);
    }
    if !is_letter(l.letter) {
        return Some(6);
    }
    if 99 < l.transmission {
        return Some(7);
    }
    None
}

// The lowest item out of range; none where the fixed data may be sent.
pub fn lowest_item(f: Fixed) -> Option<u32>
    ensures { LowestItem f result }
{
    if !is_item(&f.serial, 9) {
        return Some(1);
    }
    if !is_item(&f.owner, 31) {
        return Some(2);
    }
    let lowest = lowest_of_lens(f.lens);
    if lowest.is_some() {
        return lowest;
    }
    if !is_item(&f.version, 4) {
        return Some(8);
    }
    None
}

// The lowest item out of range; none where a port may start with these settings.
pub fn lowest_setting(s: Settings) -> Option<u32>
    ensures { LowestSetting s result }
{
    let lowest = lowest_item(s.fixed);
    if lowest.is_some() {
        return lowest;
    }
    if !is_item(&s.maker, 15) {
        return Some(9);
    }
    if !is_item(&s.type_name, 30) {
        return Some(10);
    }
    if !is_blur(&s.blur) {
        return Some(11);
    }
    None
}

// Whether items 3 to 7 are in range.
fn is_lens(l: Lens) -> bool
    ensures { result ≡ eqb (lens_lowest l) 0 }
{
    let rest = is_letter(l.letter) & (l.transmission <= 99);
    is_kind(l.kind) & ((l.focal <= 999) & ((l.maximum <= 999) & rest))
}

// Whether the fixed data may be sent. Every test is made, and none is branched on: so the texts are
// tested many bytes at once.
fn is_fixed(f: Fixed) -> bool
    ensures { result ≡ eqb (fixed_lowest f) 0 }
{
    let serial = codec::is_text(&f.serial);
    let owner = codec::is_text(&f.owner);
    let version = codec::is_text(&f.version);
    serial & (owner & (is_lens(f.lens) & version))
}

// Whether a port may start with these settings.
pub fn are_settings(s: Settings) -> bool
    ensures { AreSettings s result }
{
    let items = is_fixed(s.fixed);
    let maker = codec::is_text(&s.maker);
    let type_name = codec::is_text(&s.type_name);
    let blur = is_blur(&s.blur);
    items & (maker & (type_name & blur))
}

// The items put together. A text of another length is left as zeros, which no text holds, so that it stays out of range.
pub fn fixed_from(serial: &[u8], owner: &[u8], lens: Lens, version: &[u8]) -> Fixed
    ensures { FixedFrom serial.now owner.now lens version.now result }
{
    let mut nine = [0; 9];
    codec::put_item(&mut nine, serial);
    let mut thirty_one = [0; 31];
    codec::put_item(&mut thirty_one, owner);
    let mut four = [0; 4];
    codec::put_item(&mut four, version);
    Fixed {
        serial: nine,
        owner: thirty_one,
        lens,
        version: four,
    }
}
