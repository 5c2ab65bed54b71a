// A room one byte short (document 01, "On both sides"): the job on standard input is answered twice, with just enough room for job 7's list and with
// one byte less. For each it prints what came back and then every byte of the list in hex. The lists hold A5 in every byte beforehand.
#![tactic(auto)]

use finder::Found;
use refusal::Refusal;
use std::io;
use streams::RECORD;

// The intervals and the instants asked, or the refusal's number and field.
fn print_outcome(rt: &impl Print, o: Result<Found, Refusal>) -> io::Result<()> {
    match o {
        Ok(Found { intervals, asked }) => print!(rt; "listed {intervals} {asked} "),
        Err(r) => {
            let number = r.number();
            let field = r.field();
            print!(rt; "refused {number} {field} ")
        }
    }
}

// A line of bytes, two digits each.
fn print_bytes(rt: &impl Print, list: &[u8]) -> io::Result<()> {
    for b in list {
        print!(rt; "{b:02x}")?;
    }
    println!(rt)
}

// One job's outcome, and its list afterwards.
fn show(rt: &impl Print, s: &[u8], list: &mut [u8]) -> io::Result<()> {
    let room = list.len();
    print!(rt; "{room} ")?;
    print_outcome(rt, job::list(s, list))?;
    print_bytes(rt, list)
}

// 12 steps ask for 24·7 bytes.
fn main(rt: HostRuntime) -> io::Result<()> {
    let mut s = [0u8; RECORD];
    let n = streams::fill(&mut rt.stdin(), &mut s)?;
    show(&rt, &s[..n], &mut [0xA5u8; 168])?;
    show(&rt, &s[..n], &mut [0xA5u8; 167])
}
