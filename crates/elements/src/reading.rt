// The orbit record's elements, or why they are turned away.
ghost use Rattle.std.specs.Prelude.{◌≡◌, take, drop};
ghost use Rattle.elements.specs.Reading.{elements_of, word_row, field_rows, close_row, rows_from, reading_of};
ghost use Rattle.refusal.specs.Rows.{first};

use crate::closest::closest;
use crate::fields::{RECORD, field, float};
use refusal::{Refusal, row};
use words::Word;

// The thirteen fields as floats: km, degrees and seconds, as they stand in the record.
#[derive(Clone, Copy, Debug, PartialEq)]
pub struct Elements {
    pub axis: f64,
    pub eccentricity: f64,
    pub inclination: f64,
    pub node: f64,
    pub periapsis: f64,
    pub period: f64,
    pub radius: f64,
    pub ascension: f64,
    pub declination: f64,
    pub latitude: f64,
    pub longitude: f64,
    pub greenwich: f64,
    pub elevation: f64,
}

// The floats, read first.
#[tactic(auto, unfolding(crate::specs::Reading::elements_of))]
fn floats(s: &[u8; RECORD]) -> Elements
    ensures { result ≡ elements_of s.now }
{
    Elements {
        axis: float(s, 1),
        eccentricity: float(s, 2),
        inclination: float(s, 3),
        node: float(s, 4),
        periapsis: float(s, 5),
        period: float(s, 6),
        radius: float(s, 7),
        ascension: float(s, 8),
        declination: float(s, 9),
        latitude: float(s, 10),
        longitude: float(s, 11),
        greenwich: float(s, 12),
        elevation: float(s, 13),
    }
}

// Refusal 2.
fn word_row(s: &[u8; RECORD]) -> Result<(), Refusal>
    ensures { result ≡ word_row s.now }
{
    row(u32::read(s, 4) != 0, Refusal::Word)
}

// Fields 1 to 7, in number order. The bytes go along with their floats for refusal 3 alone, so no type has both.
fn orbit(s: &[u8; RECORD], e: Elements) -> Result<(), Refusal>
    ensures { result ≡ first (take 7 (field_rows s.now e)) }
{
    field(s, 1, e.axis, 100.0..=250_000.0)?;
    field(s, 2, e.eccentricity, 0.0..=0.95)?;
    field(s, 3, e.inclination, 0.0..=180.0)?;
    field(s, 4, e.node, 0.0..360.0)?;
    field(s, 5, e.periapsis, 0.0..360.0)?;
    field(s, 6, e.period, 60.0..=2_000_000.0)?;
    field(s, 7, e.radius, 1.0..=100_000.0)
}

// Fields 8 to 13, in number order.
fn sky(s: &[u8; RECORD], e: Elements) -> Result<(), Refusal>
    ensures { result ≡ first (drop 7 (field_rows s.now e)) }
{
    field(s, 8, e.ascension, 0.0..360.0)?;
    field(s, 9, e.declination, -90.0..=90.0)?;
    field(s, 10, e.latitude, -90.0..=90.0)?;
    field(s, 11, e.longitude, 0.0..360.0)?;
    field(s, 12, e.greenwich, 0.0..360.0)?;
    field(s, 13, e.elevation, 0.0..=90.0)
}

// Refusal 5: the closest distance is not above the planet's radius.
fn close_row(e: Elements) -> Result<(), Refusal>
    ensures { result ≡ close_row e }
{
    let distance = closest(e.axis, e.eccentricity);
    row(!(e.radius < distance), Refusal::TooClose { distance })
}

// Refusals 2 to 5 of a record with the elements e.
fn checked(s: &[u8; RECORD], e: Elements) -> Result<(), Refusal>
    ensures { result ≡ first (rows_from s.now e) }
{
    word_row(s)?;
    orbit(s, e)?;
    sky(s, e)?;
    close_row(e)
}

// The elements, or the first refusal of 1 to 5 that applies.
pub fn read(s: &[u8]) -> Result<Elements, Refusal>
    ensures { result ≡ reading_of s.now }
{
    let Ok(record) = <&[u8; RECORD]>::try_from(s) else {
        return Err(Refusal::Length);
    };
    let e = floats(record);
    checked(record, e)?;
    Ok(e)
}
