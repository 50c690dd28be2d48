// A record by value: its fields, what may be sent, and the two forms as definitions. The ranges are
// what both forms hold, so one rule serves both.
#![tactic(auto)]

ghost use Rattle.std.specs.Prelude.{◌≡◌};
ghost use Rattle.codec.specs.Codec.{lowest_named};
ghost use Rattle.record.specs.Record.{front_lowest, middle_lowest, back_lowest};
ghost use Rattle.record.specs.Clauses.{NoRecord, LowestFigure, LowestField};

// How many bytes a record's contents take: as text, and packed.
pub const TEXT_LENGTH: usize = 74;

pub const PACKED_LENGTH: usize = 39;

// And fields 1 to 10 of them as text.
pub const TEN_LENGTH: usize = 59;

// Fields 1 to 11: what a record and a measurement share.
#[derive(Clone, Copy)]
pub struct Figures {
    // 1
    pub focus: u32,
    // 2: true aperture x100
    pub aperture: u32,
    // 3: ring stop x10
    pub stop: u32,
    // 4
    pub tenth: u32,
    // 5: effective focal length
    pub focal: u32,
    // 6
    pub hyperfocal: u32,
    // 7
    pub near: u32,
    // 8
    pub far: u32,
    // 9: field of view x10
    pub view: u32,
    // 10: entrance pupil
    pub pupil: i32,
    // 11: normalised zoom x1000
    pub zoom: u32,
}

// Fields 1 to 12.
#[derive(Clone, Copy)]
pub struct Record {
    pub figures: Figures,
    pub serial: [u8; 9],
}

// The record of zeros.
pub fn no_record() -> Record
    ensures { NoRecord result }
{
    let figures = Figures {
        focus: 0,
        aperture: 0,
        stop: 0,
        tenth: 0,
        focal: 0,
        hyperfocal: 0,
        near: 0,
        far: 0,
        view: 0,
        pupil: 0,
        zoom: 0,
    };
    Record {
        figures,
        serial: [0; 9],
    }
}

// The lowest of fields 1 to 4 that is out of range; distances reach as far as top.
fn lowest_front(f: Figures, top: u32) -> Option<u32>
    ensures { result ≡ lowest_named (front_lowest top f) }
{
    if top < f.focus {
        return Some(1);
    }
    if 4095 < f.aperture {
        return Some(2);
    }
    if !stop::stop_ok(f.stop) {
        return Some(3);
    }
    if 9 < f.tenth {
        return Some(4);
    }
    None
}

// The lowest of fields 5 to 8.
fn lowest_middle(f: Figures, top: u32) -> Option<u32>
    ensures { result ≡ lowest_named (middle_lowest top f) }
{
    if 1023 < f.focal {
        return Some(5);
    }
    if top < f.hyperfocal {
        return Some(6);
    }
    if top < f.near {
        return Some(7);
    }
    if top < f.far {
        return Some(8);
    }
    None
}

// The lowest of fields 9 to 11; the pupil reaches as far as most from zero.
fn lowest_back(f: Figures, most: u32) -> Option<u32>
    ensures { result ≡ lowest_named (back_lowest most f) }
{
    if 4095 < f.view {
        return Some(9);
    }
    if most < sign::size_of(f.pupil) {
        return Some(10);
    }
    if 1000 < f.zoom {
        return Some(11);
    }
    None
}

// The lowest field out of range: distances reach as far as top, the pupil as far as most.
pub fn lowest_figure(f: Figures, top: u32, most: u32) -> Option<u32>
    ensures { LowestFigure f top most result }
{
    let front = lowest_front(f, top);
    if front.is_some() {
        return front;
    }
    let middle = lowest_middle(f, top);
    if middle.is_some() {
        return middle;
    }
    lowest_back(f, most)
}

// The lowest field out of range; none where the record may be sent.
pub fn lowest_field(r: Record) -> Option<u32>
    ensures { LowestField r result }
{
    let lowest = lowest_figure(r.figures, 9999999, 999);
    if lowest.is_some() {
        return lowest;
    }
    if !codec::is_text(&r.serial) {
        return Some(12);
    }
    None
}
