// Prints where the craft of three orbit records on standard input are at twelve instants each, t0 + k·step: X, Y, d, hidden and up.
#![tactic(auto)]

ghost use Rattle.elements.specs.Reading.{WholeRecord};

use geometry::{Place, Sky};
use sine::Sines;
use std::io;
use std::io::Read;
use streams::RECORD;
use words::Word;

// The rest of a line: the time, X, Y, d, hidden or seen, up or down.
fn line(rt: &impl Print, sky: &Sky, at: u64) -> io::Result<()> {
    let place = sky.place(at);
    let Place { x, y } = place;
    let depth = sky.orbit.depth(place);
    let seen = if sky.hidden(at) { "hidden" } else { "seen" };
    let up = if sky.up(at) { "up" } else { "down" };
    println!(rt; "{at} {x} {y} {depth} {seen} {up}")
}

// Twelve lines from t0 on, a step apart, under the record's job number. That the record is whole stays a clause, as in `job`.
fn lines(rt: &impl Print, sky: &Sky, s: &[u8]) -> io::Result<()>
    requires { WholeRecord s.now }
{
    let job = u32::read(s, 0);
    let mut at = u64::read(s, 112);
    let step = u64::from(u32::read(s, 128));
    for _ in 0..12u32 {
        print!(rt; "{job} ")?;
        line(rt, sky, at)?;
        at = at.wrapping_add(step);
    }
    Ok(())
}

// The lines of one record.
fn show(rt: &impl Print, sines: Sines, s: &[u8]) -> io::Result<()> {
    match elements::reading::read(s) {
        Ok(e) => {
            let sky = Sky::new(sines, elements::rounding::rounded(e));
            lines(rt, &sky, s)
        }
        Err(_) => println!(rt; "refused"),
    }
}

// The next record's lines.
fn next(rt: &impl Print, input: &mut impl Read, sines: Sines) -> io::Result<()> {
    let mut s = [0u8; RECORD];
    let n = streams::fill(input, &mut s)?;
    show(rt, sines, &s[..n])
}

// The table is made once and lent to each of the three records.
fn main(rt: HostRuntime) -> io::Result<()> {
    let table = sine::table();
    let sines = Sines { entries: &table };
    let mut input = rt.stdin();
    for _ in 0..3u32 {
        next(&rt, &mut input, sines)?;
    }
    Ok(())
}
