// Why a job is turned away: a variant for each row of the table. A row answers with its refusal as an `Err`, and `?` goes on to the next.
#![tactic(auto)]

ghost use Rattle.std.specs.Prelude.{◌≡◌};
ghost use Rattle.refusal.specs.Refusal.{number_of, field_of, value_of, bits_of};
ghost use Rattle.refusal.specs.Rows.{when, ◌then◌};

use std::num::f64_to_bits_with_nan;

// Refusal 3 has the field's own bits beside its float: as a float a NaN is just a NaN.
#[derive(Clone, Copy, Debug, PartialEq)]
pub enum Refusal {
    Length,
    Word,
    NotFinite { field: u32, value: f64, bits: u64 },
    OutOfRange { field: u32, value: f64 },
    TooClose { distance: f64 },
    Window,
    Step,
    Question,
    Room,
}

// What C and the closing record are told of a refusal.
impl Refusal {
    // The table's number.
    pub fn number(self) -> u32
        ensures { result ≡ number_of self }
    {
        match self {
            Refusal::Length => 1,
            Refusal::Word => 2,
            Refusal::NotFinite { .. } => 3,
            Refusal::OutOfRange { .. } => 4,
            Refusal::TooClose { .. } => 5,
            Refusal::Window => 6,
            Refusal::Step => 7,
            Refusal::Question => 8,
            Refusal::Room => 9,
        }
    }

    // The field that offends, or 0.
    pub fn field(self) -> u32
        ensures { result ≡ field_of self }
    {
        match self {
            Refusal::NotFinite { field, .. } | Refusal::OutOfRange { field, .. } => field,
            _ => 0,
        }
    }

    // The number that is handed back.
    pub fn value(self) -> f64
        ensures { result ≡ value_of self }
    {
        match self {
            Refusal::NotFinite { value, .. } | Refusal::OutOfRange { value, .. } => value,
            Refusal::TooClose { distance } => distance,
            _ => 0.0,
        }
    }

    // The bits of the number that is handed back. Refusal 3 has the field's own; a float gives its own, and a NaN the plain one's.
    pub fn bits(self) -> u64
        ensures { result ≡ bits_of self }
    {
        match self {
            Refusal::NotFinite { bits, .. } => bits,
            Refusal::OutOfRange { value, .. } => f64_to_bits_with_nan(value),
            Refusal::TooClose { distance } => f64_to_bits_with_nan(distance),
            _ => 0,
        }
    }
}

// A row: the refusal is given where the test holds.
pub fn row(test: bool, r: Refusal) -> Result<(), Refusal>
    ensures { result ≡ when test r }
{
    if test {
        return Err(r);
    }
    Ok(())
}

// The refusal of `a`, or else what `b` says.
pub fn then(a: Result<(), Refusal>, b: Result<(), Refusal>) -> Result<(), Refusal>
    ensures { result ≡ (a then b) }
{
    match a {
        Err(_) => a,
        Ok(()) => b,
    }
}
