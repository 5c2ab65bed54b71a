// Totals by day: a summary of a list, with a record for each day that the window touches, and its update by one interval more.
#![tactic(auto)]

ghost use Rattle.std.specs.Prelude.{◌*◌, ◌≤◌, ◌≡◌, not, [], length, take, Ok};
ghost use Rattle.std.proofs.lemmas.List.Edits.{sets};
ghost use Rattle.words.specs.Little.{Holds};
ghost use Rattle.finder.specs.Samples.{Good};
ghost use Rattle.days.specs.Days.{days_of, most_days};
ghost use Rattle.days.specs.declared.Fault.TheVariants.{Job};
ghost use Rattle.days.specs.Counts.{instants_under};
ghost use Rattle.days.specs.Summary.{day_bytes, summary_of, updated};
ghost use Rattle.days.specs.Given.{span_at, spans_of, bad_span, bad_list, bad_append};
ghost use Rattle.days.specs.State.{HasRoom, Under, AwaitsSome, Updated, worked_of, SummedUp};
ghost use Rattle.days.specs.Totals.{numbers_of, totals_by, left_by, totals_of, append_of, summary_after_of, append_after};

use finder::Window;
use refusal::Refusal;
use std::marker::Model;
use words::Word;

// Why no day was written: the job's own refusal, 11 or 12.
#[derive(Clone, Copy, Debug, PartialEq)]
pub enum Fault {
    Job(Refusal),
    SummaryRoom,
    BadList,
}

impl From<Refusal> for Fault {
    ghost from_gives = { λ r fault. fault ≡ Job r };

    fn from(r: Refusal) -> Fault {
        Fault::Job(r)
    }
}

// The refusal's number or 0, the field that offends or 0, the bits of the number that is handed back, and how many days were written. It is
// numbers because the door's answer to C is, and the program's record.
#[derive(Clone, Copy)]
pub struct Numbers {
    pub refusal: u32,
    pub field: u32,
    pub bits: u64,
    pub days: usize,
}

// An interval by its first and its last instant, which both belong to it.
#[derive(Clone, Copy)]
struct Span {
    first: u64,
    last: u64,
}

impl Model for Span {
    ghost use Rattle.finder.specs.Spans.{Span, span};

    ghost Value = { Span };

    ghost view = { λ s. span s.first s.last };

    ghost inverse = { λ s. record { first = s.first; last = s.last } };
}

// A day, in ms.
const DAY: u64 = 86_400_000;

// Bytes of an interval's record.
const INTERVAL: usize = 24;

// Bytes of a day's record.
const DAY_RECORD: usize = 16;

// Room for any summary: a window touches at most 32 days.
const ANY_SUMMARY: usize = 512;

// An answer in numbers. A function and no `From`, since it is public and stays what it was.
pub fn told(t: Result<usize, Fault>) -> Numbers
    ensures { result ≡ numbers_of t }
{
    match t {
        Ok(days) => Numbers {
            refusal: 0,
            field: 0,
            bits: 0,
            days,
        },
        Err(Fault::Job(r)) => Numbers {
            refusal: r.number(),
            field: r.field(),
            bits: r.bits(),
            days: 0,
        },
        Err(Fault::SummaryRoom) => Numbers {
            refusal: 11,
            field: 0,
            bits: 0,
            days: 0,
        },
        Err(Fault::BadList) => Numbers {
            refusal: 12,
            field: 0,
            bits: 0,
            days: 0,
        },
    }
}

// ---- days

// How many days the window touches: few enough that 512 bytes are room for any summary.
fn days(w: Window) -> usize
    requires { Good w }
    ensures value { result ≡ days_of w }
    ensures few { result ≤ most_days }
{
    (w.t1 / DAY - w.t0 / DAY + 1) as usize
}

// ---- an interval

impl Span {
    // The one in an interval's record; its job number and flags are not looked at.
    fn read(piece: &[u8]) -> Span
        requires { length piece.now ≡ 24 }
        ensures { result ≡ span_at piece.now 0 }
    {
        Span {
            first: u64::read(piece, 8),
            last: u64::read(piece, 16),
        }
    }

    // Whether it may not stand where `low` is the least first, in a window that ends at `high`.
    fn is_bad(self, low: u64, high: u64) -> bool
        ensures { result ≡ bad_span low high self }
    {
        self.last < self.first || self.first < low || high < self.last
    }

    // How many of its instants are in day d.
    fn inside(self, d: u64) -> u64
        requires { Under self d }
        ensures { result ≡ instants_under self d }
    {
        let begins = d * DAY;
        let end = (self.last + 1).min(begins + DAY);
        end - self.first.max(begins)
    }
}

// ---- a day's record

// The record of a day in the 16 bytes from `at` on.
fn put_day(out: &mut [u8], at: usize, day: u32, intervals: u32, instants: u64)
    requires { Holds 16 out.old at }
    ensures { out.new ≡ sets out.old at (day_bytes day intervals instants) }
{
    day.put(out, at);
    intervals.put(out, at + 4);
    instants.put(out, at + 8);
}

// The summary of no interval.
fn blank(w: Window, out: &mut [u8])
    requires { HasRoom w out.old }
    ensures { out.new ≡ sets out.old 0 (summary_of w []) }
{
    let start = w.t0 / DAY;
    for i in 0..days(w) {
        put_day(out, DAY_RECORD * i, (start + (i as u64)) as u32, 0, 0);
    }
}

// One interval more: the record of each day that it touches has one more, and its instants there.
fn add(w: Window, out: &mut [u8], s: Span)
    requires { AwaitsSome w s out.old }
    ensures { Updated w s out.old out.new }
{
    let start = w.t0 / DAY;
    for d in s.first / DAY..=s.last / DAY {
        let at = DAY_RECORD * ((d - start) as usize);
        let intervals = u32::read(out, at + 4) + 1;
        let instants = u64::read(out, at + 8) + s.inside(d);
        put_day(out, at, d as u32, intervals, instants);
    }
}

// ---- what is given

// The list is gone through once: each interval is looked at, and added to the summary in `own`, which has room for any, since memory is fixed. The
// list is the caller's bytes for this window and may not be one of it, so no type has both. Of a good list it tells where an interval behind it may
// begin.
fn work_out(w: Window, list: &[u8], own: &mut [u8]) -> Option<u64>
    requires { HasRoom w own.old }
    ensures value { result ≡ worked_of w list.now }
    ensures summed_up { SummedUp w list.now own.old own.new }
{
    if list.len() % INTERVAL != 0 {
        return None;
    }
    blank(w, own);
    let mut next = w.t0;
    for piece in list.chunks_exact(INTERVAL) {
        let s = Span::read(piece);
        if s.is_bad(next, w.t1) {
            return None;
        }
        add(w, own, s);
        next = s.last + 2;
    }
    Some(next)
}

// Whether the piece may be appended: the list is good, the summary its own, and the piece one interval behind it.
fn follows(w: Window, list: &[u8], piece: &[u8], summary: &[u8]) -> bool
    requires { Good w }
    ensures { result ≡ not (bad_append w list.now piece.now summary.now) }
{
    let used = DAY_RECORD * days(w);
    let mut own = [0u8; ANY_SUMMARY];
    let Some(next) = work_out(w, list, &mut own) else {
        return false;
    };
    if piece.len() != INTERVAL || Span::read(piece).is_bad(next, w.t1) {
        return false;
    }
    summary == &own[..used]
}

// ---- the summary

// 11 and 12, and then the summary, worked out beside the lent bytes so that a refusal leaves them.
fn summary_in(w: Window, list: &[u8], out: &mut [u8]) -> Result<usize, Fault>
    requires { Good w }
    ensures value { result ≡ totals_by (Ok w) (length out.old) (λ v. bad_list v list.now) }
    ensures out_after { out.new ≡ left_by result (sets out.old 0 (summary_of w (spans_of list.now))) out.old }
{
    let n = days(w);
    let used = DAY_RECORD * n;
    if out.len() < used {
        return Err(Fault::SummaryRoom);
    }
    let mut own = [0u8; ANY_SUMMARY];
    work_out(w, list, &mut own).ok_or(Fault::BadList)?;
    out[..used].copy_from_slice(&own[..used]);
    Ok(n)
}

// The summary of a list, from byte 0 of `out`; or the first refusal that applies, and `out` as it was.
pub fn summary(s: &[u8], list: &[u8], out: &mut [u8]) -> Result<usize, Fault>
    ensures value { result ≡ totals_of s.now list.now (length out.old) }
    ensures out_after { out.new ≡ summary_after_of s.now list.now out.old }
{
    let w = job::admit(s)?;
    summary_in(w, list, out)
}

// 11 and 12, and then the days that the piece touches.
fn append_in(w: Window, list: &[u8], piece: &[u8], out: &mut [u8]) -> Result<usize, Fault>
    requires { Good w }
    ensures value { result ≡ totals_by (Ok w) (length out.old) (λ v. bad_append v list.now piece.now (take (16 * days_of v) out.old)) }
    ensures out_after { out.new ≡ left_by result (updated w (spans_of list.now) (span_at piece.now 0) out.old) out.old }
{
    let n = days(w);
    let used = DAY_RECORD * n;
    if out.len() < used {
        return Err(Fault::SummaryRoom);
    }
    if !follows(w, list, piece, &out[..used]) {
        return Err(Fault::BadList);
    }
    add(w, out, Span::read(piece));
    Ok(n)
}

// One later interval, appended to the list whose summary `out` holds: the days that it touches are rewritten; or the first refusal that applies, and
// `out` as it was.
pub fn append(s: &[u8], list: &[u8], piece: &[u8], out: &mut [u8]) -> Result<usize, Fault>
    ensures value { result ≡ append_of s.now list.now piece.now out.old }
    ensures out_after { out.new ≡ append_after s.now list.now piece.now out.old }
{
    let w = job::admit(s)?;
    append_in(w, list, piece, out)
}
