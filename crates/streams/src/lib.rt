// What the programs share: records read from a stream, and what is said of a stream that fails.
// No contract can say what the system's read and write do. Of a reader whose bytes are known, the contracts say which bytes it gave.
#![tactic(auto)]

ghost use Rattle.std.specs.Prelude.{◌≡◌, ◌-◌, ◌%◌, ◌^◌, ◌≤◌, ◌<◌, length, take, IfOk, OnOk, IfSome};
ghost use Rattle.std.specs.Process.{exit_status};
ghost use Rattle.std.specs.Io.KnownBytes.{Consumes, IsAtEnd};
ghost use Rattle.std.proofs.lemmas.List.Edits.{sets};
ghost use Rattle.streams.specs.Buffer.{tail_of, Filled, HoldsARecord};
ghost use Rattle.streams.specs.Answered.{Answered};
ghost use Rattle.streams.specs.Status.{status_of};

use std::io;
use std::io::{ErrorKind, Read};
use std::process::ExitCode;

// Bytes of a record.
pub const RECORD: usize = 136;

// The status that a shell gives a program which the system ended because nobody reads what it writes: 128, and SIGPIPE, 13.
const READER_GONE: u8 = 141;

// What ends a run before its input has ended.
#[derive(Clone, Copy)]
pub enum Failure {
    Input(io::Error),
    Output(io::Error),
}

impl Failure {
    // Says on standard error what failed and how; the program's status. Where nobody reads the output any more, nothing is said.
    pub fn told(self, rt: &impl Eprint, program: &str) -> ExitCode
        ensures { exit_status result ≡ status_of self }
    {
        if let Failure::Output(e) = self {
            if e.kind() == ErrorKind::BrokenPipe {
                return ExitCode::from(READER_GONE);
            }
        }
        let _ = match self {
            Failure::Input(e) => eprintln!(rt; "{program}: standard input: {e}"),
            Failure::Output(e) => eprintln!(rt; "{program}: standard output: {e}"),
        };
        ExitCode::SUCCESS
    }
}

// Reads until `buf` is full or the input ends; how many bytes it has then. Each turn goes on by what the read gave, so it is a `while`: std's
// `read_exact` says nothing of a short input.
pub fn fill<R: Read>(input: &mut R, buf: &mut [u8]) -> io::Result<usize>
    ensures within { IfOk result (λ n. n ≤ length buf.new) }
    ensures bytes { IfOk result (λ n. Consumes (R.remaining input.old) (R.remaining input.new) (take n buf.new)) }
    ensures end { IfOk result (λ n. n < length buf.new → IsAtEnd (R.remaining input.new)) }
{
    let mut n = 0;
    while n < buf.len() {
        let got = input.read(&mut buf[n..])?;
        if got == 0 {
            break;
        }
        n += got;
    }
    Ok(n)
}

// Moves the last of the first `filled` bytes of `buf`, those of a record that has not come whole, to its start; how many they are.
fn keep(buf: &mut [u8], filled: usize) -> usize
    requires { Filled filled buf.old }
    ensures value { result ≡ filled % 136 }
    ensures buf_after { buf.new ≡ sets buf.old 0 (tail_of filled buf.old) }
{
    let tail = filled % RECORD;
    let from = filled - tail;
    buf.copy_within(from..filled, 0);
    tail
}

// Reads `input` to its end by way of `buf`, and hands its records over as they come: after each read the whole ones that stand in `buf`, and at the
// end the short piece, if there is one. A proved loop has to end, so it counts its turns, up to a number that no run comes to. How many bytes are
// kept stands beside `buf`: the memory is fixed and the caller's.
pub fn run<R: Read, F: FnMut(&[u8]) -> Result<(), Failure>>(
    input: &mut R,
    buf: &mut [u8],
    mut answer: F,
) -> Result<(), Failure>
    requires room { HoldsARecord buf.old }
    requires callable { F.IsAlwaysCallable answer }
    ensures { OnOk result (IfSome (R.remaining input.old) (λ xs. length xs < 2 ^ 64 - 1 → Answered (length buf.old) F.FnMut answer xs)) }
{
    let mut kept = 0;
    for _turn in 0..u64::MAX {
        let got = input.read(&mut buf[kept..]).map_err(Failure::Input)?;
        if got == 0 {
            if kept > 0 {
                answer(&buf[..kept])?;
            }
            return Ok(());
        }
        let filled = kept + got;
        let whole = filled - filled % RECORD;
        if whole == 0 {
            kept = filled;
            continue;
        }
        answer(&buf[..whole])?;
        kept = keep(buf, filled);
    }
    Ok(())
}
