// The sine of an angle, read between the entries of a quarter-wave table.
#![tactic(auto)]

ghost use Rattle.std.specs.Prelude.{◌≡◌};
ghost use Rattle.sine.specs.Sine.{IsEntry, entry_at, sines, fold_of, OnTheWay, way_of, InQuarter, reading_of, sine_of, cosine_of};

mod entries;

use angle::Angle;
use entries::TABLE;

const SEGMENTS: u32 = 4096;

// The units from one entry to the next.
pub const SEGMENT: u32 = Angle::QUARTER.units / SEGMENTS;

// The table, by its rule, to be made once and lent.
pub fn table() -> [u32; 4097]
    ensures { result ≡ sines }
{
    TABLE
}

// The table as it is lent: any slice that has its entries. An indexed constant would be copied at every read.
#[derive(Clone, Copy)]
pub struct Sines<'a> {
    pub entries: &'a [u32],
    pub ghost whole: { entries.now ≡ sines },
}

// The value at r units of a segment that goes from low to high.
fn way(low: u32, high: u32, r: u32) -> u32
    requires { OnTheWay low high r }
    ensures { result ≡ way_of low high r }
{
    let rise = u64::from(high - low);
    low + (rise * u64::from(r) / u64::from(SEGMENT)) as u32
}

impl Sines<'_> {
    // Entry k.
    fn entry(self, k: u32) -> u32
        requires { IsEntry k }
        ensures { result ≡ entry_at k }
    {
        self.entries[k as usize]
    }

    // The reading at g units of the first quarter turn, before its end.
    fn reading(self, g: u32) -> u32
        requires { InQuarter g }
        ensures { result ≡ reading_of g }
    {
        let k = g / SEGMENT;
        way(self.entry(k), self.entry(k + 1), g % SEGMENT)
    }

    // The sine's size: the reading at the angle folded into the first quarter turn. That an odd quadrant is read backward is a branch, and only
    // there the quarter's end is met: a search that stays in a quadrant has both foreseen.
    fn size(self, theta: Angle) -> u32
        ensures { result ≡ reading_of (fold_of theta.units) }
    {
        let f = theta.units % Angle::QUARTER.units;
        if theta.units / Angle::QUARTER.units % 2 == 0 {
            return self.reading(f);
        }
        if f == 0 {
            return self.entry(SEGMENTS);
        }
        self.reading(Angle::QUARTER.units - f)
    }

    // The sine, in units of 2^-30.
    pub fn sine(self, theta: Angle) -> i64
        ensures { result ≡ sine_of theta.units }
    {
        let s = i64::from(self.size(theta));
        if theta.units < Angle::HALF.units {
            s
        } else {
            -s
        }
    }

    // The cosine, in units of 2^-30.
    pub fn cosine(self, theta: Angle) -> i64
        ensures { result ≡ cosine_of theta.units }
    {
        self.sine(theta.add(Angle::QUARTER))
    }
}
