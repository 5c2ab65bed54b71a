// The door's functions under their names for C: each calls `door`'s and promises the same. Its archive is the static library that
// include/quechotzal.h declares.
#![tactic(auto)]

ghost use Rattle.std.specs.Prelude.{◌≡◌};
ghost use Rattle.job.specs.Outcome.{list_after_of};
ghost use Rattle.days.specs.Totals.{summary_after_of, append_after};
ghost use Rattle.door.specs.Door.{heard_in, returned_of, list_told, days_told, append_told, behind, answer_behind, ReadsBack};

// As `door::quechotzal_list`.
#[unsafe(no_mangle)]
pub extern "C" fn quechotzal_list(record: &[u8], list: &mut [u8], answer: &mut [u8]) -> u32
    ensures value { result ≡ returned_of answer.old }
    ensures list_after { list.new ≡ behind answer.old (list_after_of «record».now list.old) list.old }
    ensures answer_after { answer.new ≡ answer_behind answer.old (list_told «record».now list.old) }
    ensures reads_back { ReadsBack answer.old (list_told «record».now list.old) answer.new }
{
    door::quechotzal_list(record, list, answer)
}

// As `door::quechotzal_days`.
#[unsafe(no_mangle)]
pub extern "C" fn quechotzal_days(
    record: &[u8],
    list: &[u8],
    out: &mut [u8],
    answer: &mut [u8],
) -> u32
    ensures value { result ≡ returned_of answer.old }
    ensures out_after { out.new ≡ behind answer.old (summary_after_of «record».now list.now out.old) out.old }
    ensures answer_after { answer.new ≡ answer_behind answer.old (days_told «record».now list.now out.old) }
    ensures reads_back { ReadsBack answer.old (days_told «record».now list.now out.old) answer.new }
{
    door::quechotzal_days(record, list, out, answer)
}

// As `door::quechotzal_append`.
#[unsafe(no_mangle)]
pub extern "C" fn quechotzal_append(
    record: &[u8],
    list: &[u8],
    interval: &[u8],
    summary: &mut [u8],
    answer: &mut [u8],
) -> u32
    ensures value { result ≡ returned_of answer.old }
    ensures summary_after { summary.new ≡ behind answer.old (append_after «record».now list.now interval.now summary.old) summary.old }
    ensures answer_after { answer.new ≡ answer_behind answer.old (append_told «record».now list.now interval.now summary.old) }
    ensures reads_back { ReadsBack answer.old (append_told «record».now list.now interval.now summary.old) answer.new }
{
    door::quechotzal_append(record, list, interval, summary, answer)
}
