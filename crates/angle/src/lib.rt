// Angles: one turn is 2^32 units, and what passes a turn is taken off.
#![tactic(auto)]

ghost use Rattle.std.specs.Prelude.{◌≡◌};
ghost use Rattle.nearest.specs.Nearest.{UpTo};
ghost use Rattle.angle.specs.Turn.{negate_of, add_of, degrees_of};

#[derive(Clone, Copy)]
pub struct Angle {
    pub units: u32,
}

impl Angle {
    pub const QUARTER: Angle = Angle {
        units: 1_073_741_824,
    };

    pub const HALF: Angle = Angle {
        units: 2_147_483_648,
    };

    // The angle the other way round.
    pub fn negate(self) -> Angle
        ensures { result.units ≡ negate_of self.units }
    {
        Angle {
            units: self.units.wrapping_neg(),
        }
    }

    // One angle further by another.
    pub fn add(self, other: Angle) -> Angle
        ensures { result.units ≡ add_of self.units other.units }
    {
        Angle {
            units: self.units.wrapping_add(other.units),
        }
    }

    // An angle in degrees: its magnitude is rounded, and then negated if it is below 0.
    pub fn from_degrees(x: f64) -> Angle
        requires { UpTo 9 x }
        ensures { result.units ≡ degrees_of x }
    {
        let magnitude = Angle {
            units: (nearest::angle_units(x) % 4_294_967_296) as u32,
        };
        if x < 0.0 {
            magnitude.negate()
        } else {
            magnitude
        }
    }
}
