// The refusals of document 01 and the requests, each with the number and the value that the paper gives it.
#![tactic(auto)]

ghost use Rattle.std.specs.Prelude.{◌≡◌};
ghost use Rattle.refusal.specs.declared.Refusal.TheVariants.{Contents};
ghost use Rattle.refusal.specs.Clauses.{NumberOf, ValueOf};

#[derive(Clone, Copy)]
pub enum Refusal {
    // 1: a record or measurement field out of range: the lowest one.
    Field(u32),
    // 2: lent output shorter than what goes in it: the needed length.
    Room(usize),
    // 3: a read message of wrong length: its length.
    Length(usize),
    // 4: the last two bytes are not LF CR.
    End,
    // 5: the checksum is wrong.
    Checksum,
    // 6: contents no writer writes: the first wrong field or item.
    Contents(u32),
    // 7: a line is dropped.
    Dropped,
    // 8: a setting out of range: the lowest item.
    Setting(u32),
    // 9: a message longer than a cutter holds.
    TooLong,
    // 10: a line of a capture of other form than its three.
    Form,
    // 11: thousandths that an old line cannot hold.
    Lost,
    // 12: no such port.
    NoPort,
    // 16: a handed-in state, collector, cutter, run or follower that is not one of ours.
    State,
}

// The first wrong field or item of contents that no writer writes, before it is refused by 6.
#[derive(Clone, Copy)]
pub struct Wrong(pub u32);

impl From<Wrong> for Refusal {
    ghost from_gives = { λ wrong r. r ≡ Contents wrong.0 };

    fn from(wrong: Wrong) -> Refusal {
        Refusal::Contents(wrong.0)
    }
}

// The paper's number. (A column of a table, as the value is, so that neither is the conversion, `From`.)
pub fn number_of(r: Refusal) -> u32
    ensures { NumberOf r result }
{
    match r {
        Refusal::Field(_) => 1,
        Refusal::Room(_) => 2,
        Refusal::Length(_) => 3,
        Refusal::End => 4,
        Refusal::Checksum => 5,
        Refusal::Contents(_) => 6,
        Refusal::Dropped => 7,
        Refusal::Setting(_) => 8,
        Refusal::TooLong => 9,
        Refusal::Form => 10,
        Refusal::Lost => 11,
        Refusal::NoPort => 12,
        Refusal::State => 16,
    }
}

// What the paper returns beside the number; 0 where it says nothing.
pub fn value_of(r: Refusal) -> usize
    ensures { ValueOf r result }
{
    match r {
        Refusal::Field(i) => i as usize,
        Refusal::Room(n) => n,
        Refusal::Length(n) => n,
        Refusal::End => 0,
        Refusal::Checksum => 0,
        Refusal::Contents(i) => i as usize,
        Refusal::Dropped => 0,
        Refusal::Setting(i) => i as usize,
        Refusal::TooLong => 0,
        Refusal::Form => 0,
        Refusal::Lost => 0,
        Refusal::NoPort => 0,
        Refusal::State => 0,
    }
}
