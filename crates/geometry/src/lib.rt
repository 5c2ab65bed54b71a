// The answer at one instant, from whole numbers to yes or no, and what tells why.
#![tactic(auto)]

ghost use Rattle.std.specs.Prelude.{◌≡◌};
ghost use Rattle.fixed.specs.Within.{Within};
ghost use Rattle.elements.specs.Rounding.{Bounded};
ghost use Rattle.geometry.specs.Prepared.{minor_of, ellipse_of, rotation_for, toward_of, body_of, station_of, orbit_of};
ghost use Rattle.geometry.specs.Sound.{InOrbit, deepest};
ghost use Rattle.geometry.specs.Placed.{anomaly_of, place_of};
ghost use Rattle.geometry.specs.Hidden.{depth_of, behind_of, hidden_at};
ghost use Rattle.geometry.specs.Visible.{term_at, zenith_of, up_at, visible_at, answer_at};
ghost use Rattle.geometry.specs.Sight.{sight_at, Answered};

use angle::Angle;
use elements::rounding::Wholes;
use rotation::Turn;
use sine::Sines;
use std::marker::Model;

// The ellipse, and the planet in it: a, e, a∘q, the period and R².
#[derive(Clone, Copy)]
pub struct Ellipse {
    pub axis: i64,
    pub eccentricity: u32,
    pub minor: i64,
    pub period: u32,
    pub radius2: u64,
}

// The far body: Ep, Eq and E.
#[derive(Clone, Copy)]
pub struct Body {
    pub p: i64,
    pub q: i64,
    pub toward: [i64; 3],
}

// The station: its latitude, its right ascension at the epoch, and the sine of the least elevation.
#[derive(Clone, Copy)]
pub struct Station {
    pub latitude: Turn,
    pub meridian: Angle,
    pub least: i64,
}

// What is fixed for a job.
#[derive(Clone, Copy)]
pub struct Orbit {
    pub ellipse: Ellipse,
    pub body: Body,
    pub station: Station,
}

// X and Y, in metres.
#[derive(Clone, Copy)]
pub struct Place {
    pub x: i64,
    pub y: i64,
}

// What tells why at an instant: whether the planet hides the far body, and whether the planet is up.
#[derive(Clone, Copy)]
pub struct Sight {
    pub hidden: bool,
    pub up: bool,
}

impl Orbit {
    // d: how far a place lies toward the far body. That the place is this orbit's stays a clause, since no type of a place says of which.
    pub fn depth(&self, a: Place) -> i64
        requires { InOrbit self.now a }
        ensures { result ≡ depth_of self.now a }
    {
        let b = self.body;
        fixed::scaled(a.x, b.p) + fixed::scaled(a.y, b.q)
    }
}

// A job's orbit with the sine table that reads it. Its numbers are as small as those of accepted elements.
#[derive(Drop)]
pub struct Sky<'a> {
    pub sines: Sines<'a>,
    pub orbit: Orbit,
}

impl<'a> Model for Sky<'a> {
    ghost use Rattle.geometry.specs.declared.Orbit.{Orbit};
    ghost use Rattle.geometry.specs.Sound.{SoundOrbit};

    ghost Value = { Orbit };

    ghost view = { λ k. k.orbit };

    ghost invariant = { λ k. SoundOrbit k.orbit };
}

// 2^60.
const ONE_SQUARED: u64 = 1_152_921_504_606_846_976;

// In ms: one turn of the station is no whole number of them.
const TEN_TURNS: u32 = 861_640_905;

// a∘q, half the minor axis. `Bounded` stays a clause, here and where it is handed down: a second type beside `Wholes` would be taken apart
// at once, and be no plainer.
fn minor(w: Wholes) -> i64
    requires { Bounded w }
    ensures { result ≡ minor_of w }
{
    let e = u64::from(w.eccentricity);
    let q = fixed::whole_root(ONE_SQUARED - e * e);
    fixed::scaled(i64::from(w.axis), q as i64)
}

// The ellipse and R².
fn ellipse_of(w: Wholes) -> Ellipse
    requires { Bounded w }
    ensures { result ≡ ellipse_of w }
{
    let radius = u64::from(w.radius);
    Ellipse {
        axis: i64::from(w.axis),
        eccentricity: w.eccentricity,
        minor: minor(w),
        period: w.period,
        radius2: radius * radius,
    }
}

// The rotation of the elements, as three rows of three, built once for a job. Table and whole numbers stand beside each other in five functions until
// `Sky::new` is done, and never again, so no type has both.
pub fn rotation_of(sines: Sines, w: Wholes) -> [[i64; 3]; 3]
    ensures { result ≡ rotation_for w }
{
    rotation::rotation(
        rotation::turn_of(sines, w.periapsis),
        rotation::turn_of(sines, w.node),
        rotation::turn_of(sines, w.inclination),
    )
}

// E, the body direction.
fn toward(sines: Sines, w: Wholes) -> [i64; 3]
    ensures { result ≡ toward_of w }
{
    rotation::direction(
        rotation::turn_of(sines, w.ascension),
        rotation::turn_of(sines, w.declination),
    )
}

// Ep, Eq and E.
fn body_of(sines: Sines, w: Wholes) -> Body
    ensures { result ≡ body_of w }
{
    let m = rotation_of(sines, w);
    let e = toward(sines, w);
    Body {
        p: fixed::dot(m[0], e),
        q: fixed::dot(m[1], e),
        toward: e,
    }
}

// The station's turn of latitude, longitude + Greenwich, and the sine of field 13.
fn station_of(sines: Sines, w: Wholes) -> Station
    ensures { result ≡ station_of w }
{
    Station {
        latitude: rotation::turn_of(sines, w.latitude),
        meridian: w.longitude.add(w.greenwich),
        least: sines.sine(w.elevation),
    }
}

// What is fixed for a job, made once.
pub fn prepare(sines: Sines, w: Wholes) -> Orbit
    requires { Bounded w }
    ensures { result ≡ orbit_of w }
{
    Orbit {
        ellipse: ellipse_of(w),
        body: body_of(sines, w),
        station: station_of(sines, w),
    }
}

// The station's term at an instant. Whole tens of turns are left out before the factor ten, so that the product fits 64 bits at any instant.
fn term(at: u64) -> Angle
    ensures { result.units ≡ term_at at }
{
    let rest = at % u64::from(TEN_TURNS);
    kepler::phase(TEN_TURNS, 10 * rest)
}

impl<'a> Sky<'a> {
    // The orbit of whole numbers, with the table.
    pub fn new(sines: Sines<'a>, w: Wholes) -> Sky<'a>
        requires { Bounded w }
        ensures { result ≡ orbit_of w }
    {
        let orbit = prepare(sines, w);
        Sky { sines, orbit }
    }

    // E of Kepler's equation, the eccentric anomaly at an instant, from M.
    fn anomaly(&self, at: u64) -> Angle
        ensures { result.units ≡ anomaly_of self.now at }
    {
        let m = kepler::phase(self.orbit.ellipse.period, at);
        kepler::eccentric(self.sines, self.orbit.ellipse.eccentricity, m)
    }

    // The place at an instant, from which `depth` may be asked.
    pub fn place(&self, at: u64) -> Place
        ensures place { result ≡ place_of self.now at }
        ensures in_orbit { InOrbit self.now result }
    {
        let l = self.orbit.ellipse;
        let e = self.anomaly(at);
        let cos = self.sines.cosine(e);
        let sin = self.sines.sine(e);
        let x = fixed::scaled(l.axis, cos - i64::from(l.eccentricity));
        let y = fixed::scaled(l.minor, sin);
        Place { x, y }
    }

    // Whether a place at depth d is hidden: d² goes to the other side, where it fits 64 bits.
    fn behind(&self, a: Place, d: i64) -> bool
        requires { (InOrbit self.now a) × (Within d deepest) }
        ensures { result ≡ behind_of self.now a d }
    {
        if d < 0 {
            let deep = d.unsigned_abs();
            let square = (a.x * a.x + a.y * a.y) as u64;
            square < self.orbit.ellipse.radius2 + deep * deep
        } else {
            false
        }
    }

    // Whether the planet hides the far body at an instant.
    pub fn hidden(&self, at: u64) -> bool
        ensures { result ≡ hidden_at self.now at }
    {
        let a = self.place(at);
        self.behind(a, self.orbit.depth(a))
    }

    // u, the station's zenith at an instant.
    fn zenith(&self, at: u64) -> [i64; 3]
        ensures { result ≡ zenith_of self.now at }
    {
        let s = &self.orbit.station;
        let tau = s.meridian.add(term(at));
        rotation::direction(rotation::turn_of(self.sines, tau), s.latitude)
    }

    // Whether the planet is up at the station at an instant. It is seen along −E.
    pub fn up(&self, at: u64) -> bool
        ensures { result ≡ up_at self.now at }
    {
        let rise = -fixed::dot(self.zenith(at), self.orbit.body.toward);
        rise >= self.orbit.station.least
    }

    // Up and not hidden. The cheaper of the two is asked first.
    fn visible(&self, at: u64) -> bool
        ensures { result ≡ visible_at self.now at }
    {
        self.up(at) && !self.hidden(at)
    }

    // The answer at an instant: to question 1 hidden, to the other visible. A number and no enum, since `answer_at` answers any.
    pub fn answer(&self, question: u32, at: u64) -> bool
        ensures { result ≡ answer_at self.now question at }
    {
        if question == 1 {
            self.hidden(at)
        } else {
            self.visible(at)
        }
    }

    // What tells why at an instant that answered `told`. Most of it is known from that answer: of a no to question 2 up is worked out
    // again, and hidden only where the planet is down, where `answer` did not ask it.
    pub fn sight(&self, question: u32, at: u64, told: bool) -> Sight
        requires { Answered self.now question at told }
        ensures { result ≡ sight_at self.now question at }
    {
        if question == 1 {
            return Sight {
                hidden: told,
                up: false,
            };
        }
        if told {
            return Sight {
                hidden: false,
                up: true,
            };
        }
        let risen = self.up(at);
        Sight {
            hidden: risen || self.hidden(at),
            up: risen,
        }
    }
}
