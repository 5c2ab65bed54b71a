// The door for C, Rust and Python: numbers and byte slices only, each function thin over `job` or `days`. The crate `door_c` exports them, and
// include/quechotzal.h says the same to a C programmer.
#![tactic(auto)]

ghost use Rattle.std.specs.Prelude.{◌≡◌};
ghost use Rattle.job.specs.Outcome.{list_after_of};
ghost use Rattle.days.specs.Totals.{summary_after_of, append_after};
ghost use Rattle.door.specs.Answer.{answer_of, totals_answer, answer_bytes, answer_in, AnswerSized};
ghost use Rattle.door.specs.Door.{heard_in, returned_of, list_told, days_told, append_told, behind, answer_behind, ReadsBack};

use days::Fault;
use finder::Found;
use refusal::Refusal;
use words::Word;

// What a call returns where an answer can be told, and where none can: numbers, since C reads them.
const TOLD: u32 = 1;

const UNHEARD: u32 = 0;

// What a caller is told beside the list or the summary: numbers, since C reads their bytes.
#[derive(Clone, Copy)]
pub struct Answer {
    pub refusal: u32,
    pub field: u32,
    pub number: u64,
    pub intervals: u64,
    pub asked: u64,
}

// An outcome in numbers.
impl From<Result<Found, Refusal>> for Answer {
    ghost from_gives = { λ o a. a ≡ answer_of o };

    fn from(o: Result<Found, Refusal>) -> Answer {
        match o {
            Ok(f) => Answer {
                refusal: 0,
                field: 0,
                number: 0,
                intervals: f.intervals as u64,
                asked: f.asked,
            },
            Err(r) => Answer {
                refusal: r.number(),
                field: r.field(),
                number: r.bits(),
                intervals: 0,
                asked: 0,
            },
        }
    }
}

// Totals in numbers: the days written stand where a list's intervals do, and no instant was asked.
impl From<Result<usize, Fault>> for Answer {
    ghost from_gives = { λ t a. a ≡ totals_answer t };

    fn from(t: Result<usize, Fault>) -> Answer {
        let n = days::told(t);
        Answer {
            refusal: n.refusal,
            field: n.field,
            number: n.bits,
            intervals: n.days as u64,
            asked: 0,
        }
    }
}

// Whether as many bytes are lent as an answer has.
fn is_heard(answer: &[u8]) -> bool
    ensures { result ≡ heard_in answer.now }
{
    answer.len() == 32
}

// The five numbers one behind the other, from which they are read back: each is one of its type.
fn write(answer: &mut [u8], a: Answer)
    requires { AnswerSized answer.old }
    ensures answer_after { answer.new ≡ answer_bytes a }
    ensures reads_back { answer_in answer.new ≡ a }
{
    a.refusal.put(answer, 0);
    a.field.put(answer, 4);
    a.number.put(answer, 8);
    a.intervals.put(answer, 16);
    a.asked.put(answer, 24);
}

// Each of the three functions asks, tells and returns in the same words, since C calls them by their names.

// One job: its intervals in `list` from byte 0, or why it is turned away and `list` as it was; what came of it in `answer`, and 1. Where
// `answer` is not 32 bytes nothing is written, and it returns 0.
pub fn quechotzal_list(record: &[u8], list: &mut [u8], answer: &mut [u8]) -> u32
    ensures value { result ≡ returned_of answer.old }
    ensures list_after { list.new ≡ behind answer.old (list_after_of «record».now list.old) list.old }
    ensures answer_after { answer.new ≡ answer_behind answer.old (list_told «record».now list.old) }
    ensures reads_back { ReadsBack answer.old (list_told «record».now list.old) answer.new }
{
    if !is_heard(answer) {
        return UNHEARD;
    }
    write(answer, Answer::from(job::list(record, list)));
    TOLD
}

// The totals of a list by day: the summary in `out` from byte 0, or why it is turned away and `out` as it was; what came of it in `answer`, where
// the days stand for the intervals, and 1. Where `answer` is not 32 bytes nothing is written, and it returns 0.
pub fn quechotzal_days(record: &[u8], list: &[u8], out: &mut [u8], answer: &mut [u8]) -> u32
    ensures value { result ≡ returned_of answer.old }
    ensures out_after { out.new ≡ behind answer.old (summary_after_of «record».now list.now out.old) out.old }
    ensures answer_after { answer.new ≡ answer_behind answer.old (days_told «record».now list.now out.old) }
    ensures reads_back { ReadsBack answer.old (days_told «record».now list.now out.old) answer.new }
{
    if !is_heard(answer) {
        return UNHEARD;
    }
    write(answer, Answer::from(days::summary(record, list, out)));
    TOLD
}

// One later interval, appended to the list whose summary is lent: the days that it touches are rewritten, or `summary` stays as it was; what came
// of it in `answer`, and 1, as of `quechotzal_days`.
pub fn quechotzal_append(
    record: &[u8],
    list: &[u8],
    interval: &[u8],
    summary: &mut [u8],
    answer: &mut [u8],
) -> u32
    ensures value { result ≡ returned_of answer.old }
    ensures summary_after { summary.new ≡ behind answer.old (append_after «record».now list.now interval.now summary.old) summary.old }
    ensures answer_after { answer.new ≡ answer_behind answer.old (append_told «record».now list.now interval.now summary.old) }
    ensures reads_back { ReadsBack answer.old (append_told «record».now list.now interval.now summary.old) answer.new }
{
    if !is_heard(answer) {
        return UNHEARD;
    }
    write(
        answer,
        Answer::from(days::append(record, list, interval, summary)),
    );
    TOLD
}
