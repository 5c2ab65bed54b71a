// The program: orbit records on standard input, and for each its intervals and a closing record on standard output (document 01, "One job whole"). No
// contract can say what the system reads or writes. `streams::run` says which bytes are handed over of an input that is known, and the contracts here
// what stands in the buffer that is written.
#![tactic(auto)]

ghost use Rattle.std.specs.Prelude.{◌≡◌, length};
ghost use Rattle.std.proofs.lemmas.List.Edits.{sets};
ghost use Rattle.io.specs.Counts.{IsPrefixLen};
ghost use Rattle.lists.specs.Replies.{replies_of, Begins, Pieces};

use std::process::ExitCode;
use streams::{Failure, RECORD};

// 2,049 intervals and the closing record: the longest reply to a record
const ROOM: usize = 49200;

// Bytes of the buffer that replies are written from: room for the longest, and for many short ones.
const OUT: usize = 65536;

// How many pieces were replied to, and in how many bytes: beside `out` and not with it, since its memory is fixed and `job::reply` writes into bytes
// that are lent.
#[derive(Clone, Copy)]
struct Batch {
    pieces: usize,
    used: usize,
}

// The replies to the first pieces of `src`, one behind the other from byte 0 of `out`, while there is room for any reply.
fn replies(src: &[u8], out: &mut [u8; OUT]) -> Batch
    requires { Begins 0 src.now }
    ensures pieces { (Pieces result.pieces src.now) × (IsPrefixLen result.used out.new) }
    ensures used_value { result.used ≡ length (replies_of result.pieces src.now) }
    ensures out_after { out.new ≡ sets out.old 0 (replies_of result.pieces src.now) }
{
    let mut pieces = 0;
    let mut used = 0;
    for piece in src.chunks(RECORD) {
        if out.len() - used < ROOM {
            break;
        }
        used += job::reply(piece, &mut out[used..]);
        pieces += 1;
    }
    Batch { pieces, used }
}

// Writes the replies to all pieces of `src`, by way of `out`. A `while`, since each turn goes on by as many pieces as the batch had room for.
fn reply_all(rt: &impl Print, src: &[u8], out: &mut [u8; OUT]) -> Result<(), Failure> {
    let mut at = 0;
    while at < src.len() {
        let batch = replies(&src[at..], out);
        rt.write_all(&out[..batch.used]).map_err(Failure::Output)?;
        at += RECORD * batch.pieces;
    }
    Ok(())
}

// The buffers: 480 records, and the replies.
fn main(rt: HostRuntime) -> ExitCode {
    let mut buf = [0u8; 65280];
    let mut out = [0u8; OUT];
    let done = streams::run(&mut rt.stdin(), &mut buf, |src| {
        reply_all(&rt, src, &mut out)
    });
    match done {
        Ok(()) => ExitCode::SUCCESS,
        Err(failure) => failure.told(&rt, "lists"),
    }
}
