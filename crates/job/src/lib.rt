// One job whole: a record's bytes and a lent list in, the outcome out; and what the program writes for one record.
#![tactic(auto)]

ghost use Rattle.std.specs.Prelude.{◌≡◌, length};
ghost use Rattle.std.proofs.lemmas.List.Edits.{sets};
ghost use Rattle.refusal.specs.Rows.{first};
ghost use Rattle.elements.specs.Accepted.{Accepted};
ghost use Rattle.elements.specs.Reading.{WholeRecord};
ghost use Rattle.finder.specs.Samples.{Good};
ghost use Rattle.job.specs.Table.{window_of, question_of, bad_window, bad_step, bad_question, no_room_of, room_row, rows_to_question};
ghost use Rattle.job.specs.Outcome.{outcome_by, records_by, outcome_of, list_after_of};
ghost use Rattle.job.specs.Reply.{job_of, closing_of, reply_of};
ghost use Rattle.job.specs.Admission.{admission_of};

use elements::reading::Elements;
use finder::{Found, Window};
use geometry::Sky;
use interval::Interval;
use refusal::{Refusal, row, then};
use sine::Sines;
use words::Word;

// The last end of a window, in ms: 31 days.
const LAST_END: u64 = 2_678_400_000;

// The longest step, in ms.
const LONGEST_STEP: u64 = 1_048_576;

const MOST_STEPS: u64 = 4096;

// A record's question. That the record is whole stays a clause: `read` shows it and answers with the floats alone, so an array would be made anew
// here, and be no plainer.
fn question(s: &[u8]) -> u32
    requires { WholeRecord s.now }
    ensures { result ≡ question_of s.now }
{
    u32::read(s, 132)
}

// A record's job number, window and step.
#[tactic(auto, unfolding(crate::specs::Table::window_of))]
fn window(s: &[u8]) -> Window
    requires { WholeRecord s.now }
    ensures { result ≡ window_of s.now }
{
    Window {
        job: u32::read(s, 0),
        t0: u64::read(s, 112),
        t1: u64::read(s, 120),
        step: u64::from(u32::read(s, 128)),
    }
}

// ---- refusals 6 to 8

// t0 ≥ t1, or t1 past the last end of a window.
#[tactic(auto, unfolding(crate::specs::Table::bad_window))]
fn bad_window(w: Window) -> bool
    ensures { result ≡ bad_window w }
{
    w.t1 <= w.t0 || LAST_END < w.t1
}

// A step of 0, too long a step, or more than 4,096 of them. No division, so that a step of 0 does no harm.
#[tactic(auto, using(crate::proofs::Laws::counts), unfolding(crate::specs::Table::bad_step))]
fn bad_step(w: Window) -> bool
    ensures { result ≡ bad_step w }
{
    w.step == 0 || LONGEST_STEP < w.step || MOST_STEPS * w.step < w.t1.saturating_sub(w.t0)
}

// Neither 1 nor 2. Behind this row the question stays a number, as `finder::list` takes it.
#[tactic(auto, unfolding(crate::specs::Table::bad_question))]
fn bad_question(question: u32) -> bool
    ensures { result ≡ bad_question question }
{
    question != 1 && question != 2
}

// Rows 6 to 8.
#[tactic(auto, using(crate::proofs::Laws::rows))]
fn window_to_question(w: Window, question: u32) -> Result<(), Refusal>
    ensures { result ≡ first (rows_to_question w question) }
{
    row(bad_window(w), Refusal::Window)?;
    then(
        row(bad_step(w), Refusal::Step),
        row(bad_question(question), Refusal::Question),
    )
}

// ---- refusal 9, and the list

// Less than 24·ceil((n+1)/2) bytes, n steps.
#[tactic(auto, using(crate::proofs::Laws::counts), unfolding(crate::specs::Table::no_room_of))]
fn no_room(w: Window, room: usize) -> bool
    requires { Good w }
    ensures { result ≡ no_room_of w room }
{
    (room as u64) < 24 * ((finder::steps(w) + 2) / 2)
}

// Row 9, and then the list. Room is asked behind the others, since only of a good window can the steps be counted. The sine table is made
// here, once, and lent to all that reads it; so a refused job makes none.
#[tactic(auto, using(crate::proofs::Laws::ready), unfolding(crate::specs::Outcome::outcome_from, crate::specs::Outcome::records_from))]
fn from_room(e: Elements, question: u32, w: Window, list: &mut [u8]) -> Result<Found, Refusal>
    requires accepted { Accepted e }
    requires good { Good w }
    ensures value { result ≡ outcome_by (room_row w (length list.old)) e question w }
    ensures list_after { list.new ≡ sets list.old 0 (records_by (room_row w (length list.old)) e question w) }
{
    row(no_room(w, list.len()), Refusal::Room)?;
    let table = sine::table();
    let sky = Sky::new(Sines { entries: &table }, elements::rounding::rounded(e));
    Ok(finder::list(&sky, question, w, list))
}

// ---- the job

// One job: its intervals in `list` from byte 0, or the first refusal that applies and `list` as it was.
#[tactic(auto, using(crate::proofs::Exactly::answers))]
pub fn list(s: &[u8], list: &mut [u8]) -> Result<Found, Refusal>
    ensures value { result ≡ outcome_of s.now (length list.old) }
    ensures list_after { list.new ≡ list_after_of s.now list.old }
{
    let e = elements::reading::read(s)?;
    let w = window(s);
    let asked = question(s);
    window_to_question(w, asked)?;
    from_room(e, asked, w, list)
}

// ---- whether a record is accepted

// A record's window, where every row but 9 lets it through.
#[tactic(auto, using(crate::proofs::Cases::admits), unfolding(crate::specs::Admission::admission_of, crate::specs::Admission::admission_from))]
pub fn admit(s: &[u8]) -> Result<Window, Refusal>
    ensures { result ≡ admission_of s.now }
{
    elements::reading::read(s)?;
    let w = window(s);
    window_to_question(w, question(s))?;
    Ok(w)
}

// ---- what the program writes for a record

// The job number of a whole record; any other piece has none, which the closing record writes as 0.
#[tactic(auto, unfolding(crate::specs::Reply::job_of))]
pub fn job_number(s: &[u8]) -> u32
    ensures { result ≡ job_of s.now }
{
    if s.len() == 136 { u32::read(s, 0) } else { 0 }
}

// The record behind a job's intervals.
pub fn closing(job: u32, o: Result<Found, Refusal>) -> Interval
    ensures { result ≡ closing_of job o }
{
    match o {
        Ok(f) => Interval {
            job,
            flags: 512,
            first: f.intervals as u64,
            last: f.asked,
        },
        Err(r) => Interval {
            job,
            flags: 256 + r.number(),
            first: u64::from(r.field()),
            last: 0,
        },
    }
}

// One record's answer from byte 0 of `out`, and how many bytes it has. The list is lent all of `out` but the closing record's 24 bytes;
// where there are not even those, nothing is written.
pub fn reply(s: &[u8], out: &mut [u8]) -> usize
    ensures value { result ≡ length (reply_of s.now (length out.old)) }
    ensures out_after { out.new ≡ sets out.old 0 (reply_of s.now (length out.old)) }
{
    let room = out.len();
    if room < 24 {
        return 0;
    }
    let o = list(s, &mut out[..room - 24]);
    let at = 24 * o.map_or(0, |f| f.intervals);
    interval::write(out, at, closing(job_number(s), o));
    at + 24
}
