// Place in the orbit: the mean anomaly M of an instant, and the eccentric anomaly E of it by Kepler's equation, searched by
// halving. Most of the halvings are left out, since a guess foretells them.
#![tactic(auto)]

ghost use Rattle.std.specs.Prelude.{◌≡◌, true};
ghost use Rattle.halving.specs.Foretold.{YesUpTo, NoFrom};
ghost use Rattle.fixed.specs.Within.{Is};
ghost use Rattle.angle.specs.Turn.{turn};
ghost use Rattle.kepler.specs.Kepler.{Period, phase_of, Eccentricity, UpToATurn, K, most_mean, reached, kepler_of};
ghost use Rattle.kepler.specs.Shortcut.{Halvings, cell_at, GoesOnIn};

use angle::Angle;
use halving::Search;
use sine::Sines;

const TURN: u64 = 4_294_967_296;

// The last unit of a turn.
const LAST: i64 = TURN as i64 - 1;

// The nearest whole number to 2^32/2π.
const RADIAN: i64 = 683_565_276;

// Between two entries of the sine table K is straight, but for its floors.
const SEGMENT: u32 = sine::SEGMENT;

// How often a guess is bettered at most.
const TRIALS: u32 = 8;

// What K falls by at most from any point on (`keeps` in proofs/Keeps.antt).
const FALL: i64 = 2;

// The halvings in the cells that are tried, the smallest first; a whole search has 32.
const TRIED: [u32; 3] = [4, 8, 16];

// The two ends of a search.
#[derive(Clone, Copy)]
struct Bracket {
    low: u64,
    high: u64,
}

// How far an instant lies in a turn that takes `period`: M, and the station's term.
pub fn phase(period: u32, at: u64) -> Angle
    requires { Period period }
    ensures { result.units ≡ phase_of period at }
{
    let p = u64::from(period);
    let units = (at % p * TURN / p) as u32;
    Angle { units }
}

// Kepler's equation for one instant: e and M, with the sine table by which K is read. What K is asked at stays a plain number with the
// clause `UpToATurn`: sums go beyond a turn, so a type of those up to a turn would be left at each step, and be no plainer.
#[derive(Drop)]
struct Equation<'a> {
    sines: Sines<'a>,
    eccentricity: u32,
    mean: Angle,
    ghost bounded: { Eccentricity eccentricity },
}

// Whether the low end moves to E: K(E) ≤ M.
impl Search for Equation<'_> {
    ghost can_ask = { λ q anomaly. UpToATurn anomaly };

    ghost moves = { λ q anomaly. reached q.eccentricity q.mean.units anomaly };

    fn moves(&self, middle: u64) -> bool {
        self.k(middle) <= i64::from(self.mean.units)
    }
}

impl Equation<'_> {
    // The mean anomaly of an eccentric one: K(E).
    fn k(&self, anomaly: u64) -> i64
        requires { UpToATurn anomaly }
        ensures { Is result (K self.now.eccentricity anomaly) most_mean }
    {
        let units = (anomaly % TURN) as u32;
        let es = fixed::unit(
            i64::from(self.eccentricity),
            self.sines.sine(Angle { units }),
        );
        (anomaly as i64) - fixed::unit(es, RADIAN)
    }

    // ---- a guess at E

    // It is not trusted: whatever it is, the search finds the same E, but a good one leaves little of it to be made.

    // An eighth of a turn times e from M, on the side where E is: E is e·sin E radians from M, and this takes one shift.
    fn start(&self) -> u32 {
        let away = self.eccentricity / 2;
        let units = self.mean.units;
        if units < Angle::HALF.units {
            units + away
        } else {
            units - away
        }
    }

    // Where K would be M, if it went on as in the segment that holds `at`; `at` itself if it does not rise there.
    fn nearer(&self, at: u32) -> u32 {
        let low = u64::from(at - at % SEGMENT);
        let here = self.k(low);
        let rise = self.k(low + u64::from(SEGMENT)) - here;
        if rise <= 0 {
            return at;
        }
        let missing = i64::from(self.mean.units) - here;
        in_turn(low as i64 + fixed::floor_div(missing * i64::from(SEGMENT), rise as u64))
    }

    // Nearer and nearer, until it stays in its segment or the trials are over.
    fn guess(&self) -> u32 {
        let mut at = self.start();
        for _ in 0..TRIALS {
            let next = self.nearer(at);
            if next / SEGMENT == at / SEGMENT {
                return next;
            }
            at = next;
        }
        at
    }

    // ---- the cell in which the search goes on

    // K at its ends settles all answers outside, so halvings lead there. A cell that is sure may be told to be not: only speed hangs on that.

    // Whether all that the search may ask up to `low` is surely reached. Up to 0 it asks nothing.
    fn yes_up_to(&self, low: u64) -> bool
        requires { UpToATurn low }
        ensures { result ≡ true → YesUpTo (reached self.now.eccentricity self.now.mean.units) low }
    {
        let mean = i64::from(self.mean.units);
        low == 0 || self.k(low) + FALL <= mean
    }

    // Whether surely nothing that the search may ask from `high` on is reached. From a turn on it asks nothing.
    fn no_from(&self, high: u64) -> bool
        requires { UpToATurn high }
        ensures { result ≡ true → NoFrom (reached self.now.eccentricity self.now.mean.units) high turn }
    {
        let mean = i64::from(self.mean.units);
        high == TURN || mean + FALL < self.k(high)
    }

    // The first cell around the guess g that is sure, or the turn. One that is not has an end too close to E, or does not hold it.
    // A round number ends cells of every length but the turn's, so few are tried.
    fn sure_cell(&self, g: u32) -> Bracket
        ensures { GoesOnIn self.now.eccentricity self.now.mean.units result }
    {
        for s in TRIED {
            let c = cell(g, s);
            if self.yes_up_to(c.low) && self.no_from(c.high) {
                return c;
            }
        }
        Bracket { low: 0, high: TURN }
    }
}

// The anomaly, or the end of the turn beyond which it lies.
fn in_turn(anomaly: i64) -> u32 {
    anomaly.clamp(0, LAST) as u32
}

// The cell of 2^s units that holds g.
fn cell(g: u32, s: u32) -> Bracket
    requires { Halvings s }
    ensures { result ≡ cell_at g s }
{
    let low = (u64::from(g) >> s) << s;
    Bracket {
        low,
        high: low + (1 << s),
    }
}

// The eccentric anomaly E: the low end of the search from 0 and a turn, once its ends are neighbours. Of its 32 halvings those are made
// that are left in the cell.
pub fn eccentric(sines: Sines, e: u32, m: Angle) -> Angle
    requires { Eccentricity e }
    ensures { result.units ≡ kepler_of e m.units }
{
    let equation = Equation {
        sines,
        eccentricity: e,
        mean: m,
    };
    let c = equation.sure_cell(equation.guess());
    let edge = halving::halve(&equation, c.low, c.high);
    let units = edge.low as u32;
    Angle { units }
}
