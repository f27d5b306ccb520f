// Reads a sheet file from standard input, settles it, and writes the report or the line that tells its refusal.
#![tactic(auto)]

use program::answer_input;
use report::reporting::write_report;

// One byte more than the longest file has.
const MOST_INPUT: u64 = 36_873;

// Longer than any report: two lines, with at most 256 values.
const MOST_TEXT: usize = 1_000;

fn main(rt: HostRuntime) -> anyhow::Result<()> {
    answer_input(&rt, MOST_INPUT, MOST_TEXT, write_report)
}
