// The elements in whole numbers.
ghost use Rattle.std.specs.Prelude.{◌≡◌};
ghost use Rattle.elements.specs.Accepted.{Accepted};
ghost use Rattle.elements.specs.Rounding.{wholes_of};

use crate::reading::Elements;
use angle::Angle;

// Lengths in metres, the period in milliseconds, e in units of 2^-30.
#[derive(Clone, Copy)]
pub struct Wholes {
    pub axis: u32,
    pub eccentricity: u32,
    pub inclination: Angle,
    pub node: Angle,
    pub periapsis: Angle,
    pub period: u32,
    pub radius: u32,
    pub ascension: Angle,
    pub declination: Angle,
    pub latitude: Angle,
    pub longitude: Angle,
    pub greenwich: Angle,
    pub elevation: Angle,
}

// Accepted elements, each to the nearest whole number.
#[tactic(auto, unfolding(crate::specs::Rounding::wholes_of))]
pub fn rounded(e: Elements) -> Wholes
    requires { Accepted e }
    ensures { result ≡ wholes_of e }
{
    Wholes {
        axis: nearest::metres(e.axis),
        eccentricity: nearest::eccentricity(e.eccentricity),
        inclination: Angle::from_degrees(e.inclination),
        node: Angle::from_degrees(e.node),
        periapsis: Angle::from_degrees(e.periapsis),
        period: nearest::milliseconds(e.period),
        radius: nearest::metres(e.radius),
        ascension: Angle::from_degrees(e.ascension),
        declination: Angle::from_degrees(e.declination),
        latitude: Angle::from_degrees(e.latitude),
        longitude: Angle::from_degrees(e.longitude),
        greenwich: Angle::from_degrees(e.greenwich),
        elevation: Angle::from_degrees(e.elevation),
    }
}
