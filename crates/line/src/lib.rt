// The line that the port collects byte by byte, and the decision over its bytes: which command it is.
#![tactic(auto)]

ghost use Rattle.std.specs.Prelude.{◌≡◌};
ghost use Rattle.line.specs.Command.{one_byte, after_k, two_bytes, after_kb, film_of, after_w, three_bytes, command_in};
ghost use Rattle.line.specs.Clauses.{LineBlank, LineEnds, LineJoined, LineIsValid, LineCommand};

// The bytes that a line keeps.
pub const LINE_LENGTH: usize = 64;

// The received bytes since the last carriage return, as C keeps them. More than the line keeps make it overlong.
#[repr(C)]
#[derive(Clone, Copy)]
pub struct Line {
    pub bytes: [u8; LINE_LENGTH],
    pub len: usize,
    pub overlong: bool,
}

// The commands by their letters; every other line is unknown.
#[derive(Clone, Copy)]
pub enum Command {
    B,
    C,
    D,
    G,
    H,
    Ka,
    // The rate number, 0..7.
    Kb(u8),
    Kc,
    Kd,
    K3,
    K4,
    N,
    P,
    V,
    // The film number, 0..31; without digits it is film 1.
    W(u8),
    X,
    Y,
    Unknown,
}

// A line of one byte.
fn one_byte(a: u8) -> Command
    ensures { result ≡ one_byte a }
{
    match a {
        b'B' => Command::B,
        b'C' => Command::C,
        b'D' => Command::D,
        b'G' => Command::G,
        b'H' => Command::H,
        b'N' => Command::N,
        b'P' => Command::P,
        b'V' => Command::V,
        b'W' => Command::W(1),
        b'X' => Command::X,
        b'Y' => Command::Y,
        _ => Command::Unknown,
    }
}

// The byte after a K.
fn after_k(b: u8) -> Command
    ensures { result ≡ after_k b }
{
    match b {
        b'a' => Command::Ka,
        b'c' => Command::Kc,
        b'd' => Command::Kd,
        b'3' => Command::K3,
        b'4' => Command::K4,
        _ => Command::Unknown,
    }
}

// A line of two bytes.
fn two_bytes(a: u8, b: u8) -> Command
    ensures { result ≡ two_bytes a b }
{
    if a == b'K' {
        return after_k(b);
    }
    Command::Unknown
}

// The byte after `Kb`: a digit 0..7.
fn after_kb(c: u8) -> Command
    ensures { result ≡ after_kb c }
{
    match c {
        b'0'..=b'7' => Command::Kb(c - b'0'),
        _ => Command::Unknown,
    }
}

// The command for a film number: 00..31.
fn film_of(n: u8) -> Command
    ensures { result ≡ film_of n }
{
    match n {
        0..=31 => Command::W(n),
        _ => Command::Unknown,
    }
}

// The bytes after a W: the two digits of a film.
fn after_w(b: u8, c: u8) -> Command
    ensures { result ≡ after_w b c }
{
    match b {
        b'0'..=b'9' => match c {
            b'0'..=b'9' => film_of((b - b'0') * 10 + (c - b'0')),
            _ => Command::Unknown,
        },
        _ => Command::Unknown,
    }
}

// A line of three bytes.
fn three_bytes(a: u8, b: u8, c: u8) -> Command
    ensures { result ≡ three_bytes a b c }
{
    if (a == b'K') & (b == b'b') {
        return after_kb(c);
    }
    if a == b'W' {
        return after_w(b, c);
    }
    Command::Unknown
}

// The command that these bytes are, known by all of them.
fn command_in(line: &[u8]) -> Command
    ensures { result ≡ command_in line.now }
{
    match *line {
        [a] => one_byte(a),
        [a, b] => two_bytes(a, b),
        [a, b, c] => three_bytes(a, b, c),
        _ => Command::Unknown,
    }
}

impl Line {
    // The empty line.
    pub fn blank() -> Line
        ensures { LineBlank result }
    {
        Line {
            bytes: [0; LINE_LENGTH],
            len: 0,
            overlong: false,
        }
    }

    // Whether a received byte ends the line: a carriage return does.
    pub fn ends(self, byte: u8) -> bool
        ensures { LineEnds self byte result }
    {
        byte == b'\r'
    }

    // The line with one byte more, which a full line does not keep.
    pub fn joined(self, byte: u8) -> Line
        ensures { LineJoined self byte result }
    {
        let mut line = self;
        let at = self.len;
        if at < LINE_LENGTH {
            line.bytes[at] = byte;
            line.len = at + 1;
            return line;
        }
        line.overlong = true;
        line
    }

    // Whether the count is within the buffer; the bytes may be anything.
    pub fn is_valid(self) -> bool
        ensures { LineIsValid self result }
    {
        self.len <= LINE_LENGTH
    }

    // The command that the line is.
    pub fn command(self) -> Command
        ensures { LineCommand self result }
    {
        if self.overlong {
            return Command::Unknown;
        }
        if self.len <= LINE_LENGTH {
            return command_in(&self.bytes[..self.len]);
        }
        Command::Unknown
    }
}
