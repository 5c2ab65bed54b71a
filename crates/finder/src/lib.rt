// The list of a window's intervals: samples, and in each step whose ends differ a search by halving.
#![tactic(auto)]

ghost use Rattle.std.specs.Prelude.{◌≡◌, ◌≤◌, cond, ⊤};
ghost use Rattle.std.specs.Bool.{beq};
ghost use Rattle.geometry.specs.Visible.{answer_at};
ghost use Rattle.geometry.specs.Sight.{sight_at};
ghost use Rattle.finder.specs.Samples.{Good, steps_of};
ghost use Rattle.finder.specs.Spans.{edge, closed_in, ended, list_of};
ghost use Rattle.finder.specs.Flags.{differing};
ghost use Rattle.finder.specs.Records.{written, found_of, HasRoom};
ghost use Rattle.finder.specs.State.{next, Stretch, Along, Turned, RoomFor, Flagged, closed_out, advanced, AtEnd, finished, was_of, first_of};

use geometry::Sky;
use halving::{Edge, Search};
use interval::Interval;

// A job's number, and its window and step in ms. Refusals 6 and 7 are of windows that are not good, so `Good` stays a clause: a second type beside
// this one would be taken apart wherever its numbers are read, and be no plainer.
#[derive(Clone, Copy, Debug, PartialEq, Eq)]
pub struct Window {
    pub job: u32,
    pub t0: u64,
    pub t1: u64,
    pub step: u64,
}

// How many intervals the list has, and how many instants were asked.
#[derive(Clone, Copy, Debug, PartialEq, Eq)]
pub struct Found {
    pub intervals: usize,
    pub asked: u64,
}

// The interval that is open: its first instant, and its flags for that, bits in one number as `first_flags` gives them to the record.
#[derive(Clone, Copy)]
struct Begun {
    pub first: u64,
    pub flags: u32,
}

// The finder has come to the sample `at`; where that answered yes, an interval has begun. So far it wrote `count` intervals into the caller's fixed
// memory and asked `asked` instants.
#[derive(Clone, Copy)]
struct State {
    pub at: u64,
    pub begun: Option<Begun>,
    pub count: usize,
    pub asked: u64,
}

// n, the number of steps; the last may be shorter.
#[tactic(auto, using(crate::proofs::Samples::steps_ceil))]
pub fn steps(w: Window) -> u64
    requires { Good w }
    ensures { result ≡ steps_of w }
{
    (w.t1 - w.t0).div_ceil(w.step)
}

// A bit, where an answer differs. The choice is the definitions' `cond`; a product with `u32::from` would be no plainer.
fn bit(value: u32, differs: bool) -> u32
    ensures { result ≡ cond differs value 0 }
{
    if differs { value } else { 0 }
}

// A question about a sky, asked over a window. The question is a number since `list` answers any.
#[derive(Drop)]
struct Finder<'a> {
    sky: &'a Sky<'a>,
    question: u32,
    window: Window,
    ghost good: { Good window },
}

// The search in a step whose low end answered `was`: it moves where the middle answers so too.
#[derive(Drop)]
struct Steady<'a> {
    finder: &'a Finder<'a>,
    was: bool,
}

impl Search for Steady<'_> {
    ghost use Rattle.finder.specs.Asking.{answers};

    ghost can_ask = { λ s middle. ⊤ };

    ghost moves = { λ s middle. beq (answers s.finder.now middle) s.was };

    fn moves(&self, middle: u64) -> bool {
        self.finder.answer(middle) == self.was
    }
}

impl Finder<'_> {
    ghost use Rattle.finder.specs.Asking.{answers, sights};

    // The answer at an instant.
    fn answer(&self, at: u64) -> bool
        ensures { result ≡ answers self.now at }
    {
        self.sky.answer(self.question, at)
    }

    // The sample after the sample `at`.
    fn sample(&self, at: u64) -> u64
        requires { at ≤ self.now.window.t1 }
        ensures { result ≡ next self.now.window at }
    {
        self.window.t1.min(at + self.window.step)
    }

    // The neighbours at which a step changes whose low end answered `was`.
    fn halve(&self, low: u64, high: u64, was: bool) -> Edge
        requires { Stretch (answers self.now) low high was }
        ensures { result ≡ edge (answers self.now) low high }
    {
        halving::halve(&Steady { finder: self, was }, low, high)
    }

    // Why the answer changes between neighbours, of which the low one answered `was`: 4 where hidden differs, 8 where up does.
    fn why(&self, e: Edge, was: bool) -> u32
        requires { Turned (answers self.now) e was }
        ensures { result ≡ differing 4 8 (sights self.now e.low) (sights self.now e.high) }
    {
        let low = self.sky.sight(self.question, e.low, was);
        let high = self.sky.sight(self.question, e.high, !was);
        bit(4, low.hidden != high.hidden) + bit(8, low.up != high.up)
    }

    // Closes the open interval at `last`, with these flags for it: the record after the `count` that are there.
    fn put(&self, out: &mut [u8], count: usize, begun: Begun, last: u64, flags: u32)
        requires { (RoomFor count 1 out.old) × (Flagged begun flags) }
        ensures { out.new ≡ closed_out self.now.window count begun last flags out.old }
    {
        let r = Interval {
            job: self.window.job,
            flags: begun.flags + flags,
            first: begun.first,
            last,
        };
        interval::write(out, 24 * count, r);
    }

    // One step, to the sample b. From no to yes: the high neighbour is a first. From yes to no: the low one is a last. The flags of a last are
    // four times those of a first.
    fn advance(&self, out: &mut [u8], s: State, b: u64) -> State
        requires { Along (answers self.now) (sights self.now) self.now.window s b out.old }
        ensures value { result ≡ advanced (answers self.now) (sights self.now) self.now.window s b }
        ensures out_after { out.new ≡ written (sights self.now) self.now.window out.old s.count (closed_in (answers self.now) (first_of s) s.at b) }
    {
        let was = s.begun.is_some();
        if self.answer(b) == was {
            return State {
                at: b,
                asked: s.asked + 1,
                ..s
            };
        }
        let e = self.halve(s.at, b, was);
        let asked = s.asked + 1 + e.asked;
        let flags = self.why(e, was);
        match s.begun {
            None => State {
                at: b,
                begun: Some(Begun {
                    first: e.high,
                    flags,
                }),
                asked,
                ..s
            },
            Some(begun) => {
                self.put(out, s.count, begun, e.low, 4 * flags);
                State {
                    at: b,
                    begun: None,
                    count: s.count + 1,
                    asked,
                }
            }
        }
    }

    // The end: a yes at the last sample closes an interval there.
    fn close(&self, out: &mut [u8], s: State) -> Found
        requires { AtEnd (answers self.now) (sights self.now) self.now.window s out.old }
        ensures value { result ≡ finished s }
        ensures out_after { out.new ≡ written (sights self.now) self.now.window out.old s.count (ended (was_of s) (first_of s) s.at) }
    {
        let mut intervals = s.count;
        if let Some(begun) = s.begun {
            self.put(out, s.count, begun, s.at, 2);
            intervals += 1;
        }
        Found {
            intervals,
            asked: s.asked,
        }
    }

    // The list, from byte 0 of `out`, and what was counted.
    fn list(&self, out: &mut [u8]) -> Found
        requires { HasRoom self.now.window out.old }
        ensures value { result ≡ found_of (answers self.now) self.now.window }
        ensures out_after { out.new ≡ written (sights self.now) self.now.window out.old 0 (list_of (answers self.now) self.now.window) }
    {
        let start = self.window.t0;
        let begun = self.answer(start).then_some(Begun {
            first: start,
            flags: 1,
        });
        let mut s = State {
            at: start,
            begun,
            count: 0,
            asked: 1,
        };
        for _ in 0..steps(self.window) {
            s = self.advance(out, s, self.sample(s.at));
        }
        self.close(out, s)
    }
}

// The list of the window's intervals, from byte 0 of `out`, and what was counted.
pub fn list(sky: &Sky, question: u32, w: Window, out: &mut [u8]) -> Found
    requires { (Good w) × (HasRoom w out.old) }
    ensures value { result ≡ found_of (answer_at sky.now question) w }
    ensures out_after { out.new ≡ written (sight_at sky.now question) w out.old 0 (list_of (answer_at sky.now question) w) }
{
    Finder {
        sky,
        question,
        window: w,
    }
    .list(out)
}
