// The bench lens: the settings and the measurement that document 01 gives the session program, and the
// start-up letter that a program is given.
#![tactic(auto)]

ghost use Rattle.bench_lens.specs.Clauses.{LetterOf, BenchSettings, BenchMeasurement};

use fixed::{Fixed, Lens, Settings};
use record::Figures;
use units::Measurement;

// The start-up letter that a word gives a program: its first byte, or I where it is empty.
pub fn letter_of(word: &[u8]) -> u8
    ensures { LetterOf word.now result }
{
    word.first().copied().unwrap_or(b'I')
}

// 4050.0093, BENCH, P, 50, 50, the start-up letter, 95, 4.34; names of spaces, blur circles of 250.
pub fn bench_settings(letter: u8) -> Settings
    ensures { BenchSettings letter result }
{
    let lens = Lens {
        kind: b'P',
        focal: 50,
        maximum: 50,
        letter,
        transmission: 95,
    };
    let fixed = Fixed {
        serial: *b"4050.0093",
        owner: *b"BENCH                          ",
        lens,
        version: *b"4.34",
    };
    Settings {
        fixed,
        maker: [b' '; 15],
        type_name: [b' '; 30],
        blur: [250; 32],
    }
}

// Record R, unit I, 21 degrees.
pub fn bench_measurement() -> Measurement
    ensures { BenchMeasurement result }
{
    let figures = Figures {
        focus: 798,
        aperture: 680,
        stop: 56,
        tenth: 5,
        focal: 0,
        hyperfocal: 6123,
        near: 711,
        far: 909,
        view: 273,
        pupil: 23,
        zoom: 0,
    };
    Measurement {
        unit: b'I',
        figures,
        temperature: 21,
    }
}
