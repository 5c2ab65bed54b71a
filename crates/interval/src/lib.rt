// The interval record: 24 bytes, job, flags, first and last, each with its least byte first.
#![tactic(auto)]

ghost use Rattle.std.specs.Prelude.{◌≡◌};
ghost use Rattle.words.specs.Little.{Holds};
ghost use Rattle.interval.specs.Record.{write_of, parsed_of};

use words::Word;

// An interval of a list, both of whose instants belong to it; or what closes a job's intervals. Its flags stay one number of bits: they are the
// record's, which C reads.
#[derive(Clone, Copy, Debug, PartialEq, Eq)]
pub struct Interval {
    pub job: u32,
    pub flags: u32,
    pub first: u64,
    pub last: u64,
}

// The record in the 24 bytes from `at` on; the other bytes stay.
#[tactic(auto, using(crate::proofs::Laws::record_puts))]
pub fn write(s: &mut [u8], at: usize, r: Interval)
    requires { Holds 24 s.old at }
    ensures { s.new ≡ write_of s.old at r }
{
    r.job.put(s, at);
    r.flags.put(s, at + 4);
    r.first.put(s, at + 8);
    r.last.put(s, at + 16);
}

// The record that 24 bytes are; any other number of bytes is none.
#[tactic(auto, unfolding(crate::specs::Record::parsed_of, crate::specs::Record::record_of))]
pub fn read(s: &[u8]) -> Option<Interval>
    ensures { result ≡ parsed_of s.now }
{
    if s.len() != 24 {
        return None;
    }
    Some(Interval {
        job: u32::read(s, 0),
        flags: u32::read(s, 4),
        first: u64::read(s, 8),
        last: u64::read(s, 16),
    })
}
