// Turns, directions, and the rotation to the orbit's own axes.
#![tactic(auto)]

ghost use Rattle.std.specs.Prelude.{◌≡◌};
ghost use Rattle.fixed.specs.Scaled.{one, ◌∘◌};
ghost use Rattle.fixed.specs.Within.{Small, Is};
ghost use Rattle.rotation.specs.Rotation.{turn_of, direction_of, row_p, row_q, row_w, rotation_of_of};

use angle::Angle;
use fixed::unit;
use sine::Sines;
use std::marker::Model;

// The cosine and the sine of one angle, in units of 2^-30, each at most one away from 0.
#[derive(Clone, Copy)]
pub struct Turn {
    pub cos: i64,
    pub sin: i64,
}

impl Model for Turn {
    ghost use Rattle.rotation.specs.CosSin.{CosSin, UnitTurn};

    ghost Value = { CosSin };

    ghost view = { λ θ. record { cos = θ.cos; sin = θ.sin } };

    ghost invariant = { λ θ. UnitTurn (record { cos = θ.cos; sin = θ.sin }) };

    ghost inverse = { λ θ. record { cos = θ.cos; sin = θ.sin } };
}

// The turn of an angle: each is read off the table once and used in several products.
pub fn turn_of(sines: Sines, theta: Angle) -> Turn
    ensures { result ≡ turn_of theta.units }
{
    let cos = sines.cosine(theta);
    let sin = sines.sine(theta);
    Turn { cos, sin }
}

// c∘d∘e, taken from the left.
fn triple(c: i64, d: i64, e: i64) -> i64
    requires { (Small c) × (Small d) × (Small e) }
    ensures { Is result (c ∘ d ∘ e) one }
{
    unit(unit(c, d), e)
}

// Row P, toward the periapsis.
fn row_p(peri: Turn, node: Turn, incl: Turn) -> [i64; 3]
    ensures { result ≡ row_p peri node incl }
{
    [
        unit(peri.cos, node.cos) - triple(peri.sin, node.sin, incl.cos),
        unit(peri.cos, node.sin) + triple(peri.sin, node.cos, incl.cos),
        unit(peri.sin, incl.sin),
    ]
}

// Row Q, a quarter turn on in the orbit. It is not P of other turns: a product is floored, so minus stands outside. The three turns stay three
// parameters, since a struct of them would be made for one call.
fn row_q(peri: Turn, node: Turn, incl: Turn) -> [i64; 3]
    ensures { result ≡ row_q peri node incl }
{
    [
        -unit(peri.sin, node.cos) - triple(peri.cos, node.sin, incl.cos),
        -unit(peri.sin, node.sin) + triple(peri.cos, node.cos, incl.cos),
        unit(peri.cos, incl.sin),
    ]
}

// Row W, up from the orbit. The hidden answer does not use it.
fn row_w(node: Turn, incl: Turn) -> [i64; 3]
    ensures { result ≡ row_w node incl }
{
    [
        unit(node.sin, incl.sin),
        -unit(node.cos, incl.sin),
        incl.cos,
    ]
}

// The rotation of the periapsis argument, the node and the inclination, as three rows of three.
pub fn rotation(peri: Turn, node: Turn, incl: Turn) -> [[i64; 3]; 3]
    ensures { result ≡ rotation_of_of peri node incl }
{
    [
        row_p(peri, node, incl),
        row_q(peri, node, incl),
        row_w(node, incl),
    ]
}

// The direction at a right ascension and a declination.
pub fn direction(ascension: Turn, declination: Turn) -> [i64; 3]
    ensures { result ≡ direction_of ascension declination }
{
    [
        unit(declination.cos, ascension.cos),
        unit(declination.cos, ascension.sin),
        declination.sin,
    ]
}
