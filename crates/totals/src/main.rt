// The program: orbit records on standard input, and for each a head record and the totals of its list by day on standard output (document 02, wish
// 3). No contract can say what the system reads or writes. `streams::run` says which bytes are handed over of an input that is known, and the
// contracts here what stands in the buffer that is written.
#![tactic(auto)]

ghost use Rattle.std.specs.Prelude.{◌≡◌, length};
ghost use Rattle.std.proofs.lemmas.List.Edits.{sets};
ghost use Rattle.io.specs.Counts.{IsPrefixLen};
ghost use Rattle.totals.specs.Reply.{reply_of, HoldsOneRecord};

use finder::Found;
use std::io::Read;
use std::process::ExitCode;
use streams::{Failure, RECORD};

// Bytes of the head record, and of an interval's.
const HEAD: usize = 24;

const INTERVAL: usize = 24;

// Bytes of a day's record.
const DAY_RECORD: usize = 16;

// Bytes of the longest list, which has 2,049 intervals, and of the longest reply, a head and 32 days.
const LIST: usize = 49176;

const REPLY: usize = 536;

// The reply to a piece of the input, from byte 0 of `out`, and how many bytes it has. The list is made in `list`; the days' records are worked out from
// it behind the head, which tells how many they are. A refused job has the record that `lists` writes and no other.
#[tactic(auto, using(crate::proofs::Laws::inside))]
fn reply(s: &[u8], list: &mut [u8; LIST], out: &mut [u8; REPLY]) -> usize
    ensures prefix_len { (IsPrefixLen result out.new) × (result ≡ length (reply_of s.now)) }
    ensures out_after { out.new ≡ sets out.old 0 (reply_of s.now) }
{
    let job = job::job_number(s);
    match job::list(s, list) {
        Err(r) => {
            interval::write(out, 0, job::closing(job, Err(r)));
            HEAD
        }
        Ok(found) => {
            let end = INTERVAL * found.intervals;
            let days = days::summary(s, &list[..end], &mut out[HEAD..]).unwrap();
            let head = Ok(Found {
                intervals: days,
                ..found
            });
            interval::write(out, 0, job::closing(job, head));
            HEAD + DAY_RECORD * days
        }
    }
}

// Writes the reply to a piece, by way of `list` and `out`.
fn answer(
    rt: &impl Print,
    s: &[u8],
    list: &mut [u8; LIST],
    out: &mut [u8; REPLY],
) -> Result<(), Failure> {
    let n = reply(s, list, out);
    rt.write_all(&out[..n]).map_err(Failure::Output)
}

// Answers each record before the next is read: the buffer has room for one alone, and no piece that is handed over is longer than the buffer.
fn run(
    rt: &impl Print,
    input: &mut impl Read,
    record: &mut [u8],
    list: &mut [u8; LIST],
    out: &mut [u8; REPLY],
) -> Result<(), Failure>
    requires one_record { HoldsOneRecord «record».old }
{
    streams::run(input, record, |s| answer(rt, s, list, out))
}

// The buffers: a record, its list and the reply.
fn main(rt: HostRuntime) -> ExitCode {
    let mut record = [0u8; RECORD];
    let mut list = [0u8; LIST];
    let mut out = [0u8; REPLY];
    match run(&rt, &mut rt.stdin(), &mut record, &mut list, &mut out) {
        Ok(()) => ExitCode::SUCCESS,
        Err(failure) => failure.told(&rt, "totals"),
    }
}
