// A signed number as a sign and a size: the only functions that compute with signed numbers.
#![tactic(auto)]

ghost use Rattle.sign.specs.Clauses.{IsBelow, SizeOf, SignedOf};

// Whether the number is below zero.
pub fn is_below(e: i32) -> bool
    ensures { IsBelow e result }
{
    e.is_negative()
}

// How far the number is from zero.
pub fn size_of(e: i32) -> u32
    ensures { SizeOf e result }
{
    e.unsigned_abs()
}

// The number with this sign and size; minus zero is zero.
pub fn signed_of(below: bool, n: u16) -> i32
    ensures { SignedOf below n result }
{
    let size = i32::from(n);
    if below { -size } else { size }
}
