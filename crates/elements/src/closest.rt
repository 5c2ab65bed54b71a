// The closest distance of an orbit, in floats.
ghost use Rattle.std.specs.Prelude.{◌≡◌};
ghost use Rattle.elements.specs.Closest.{closest_of};

// a × (1 − e). Where an accepted e is 0.5 or more, 1 − e is exact (`read-exact`, proofs/Exactly.antt).
pub fn closest(a: f64, e: f64) -> f64
    ensures { result ≡ closest_of a e }
{
    a * (1.0 - e)
}
