// Reads a sheet file from standard input, and writes the sheet in DIMACS CNF or the line that tells its refusal.
#![tactic(auto)]

use cnf::convert::convert;
use program::answer_input;

// One byte more than the longest file has.
const MOST_INPUT: u64 = 36_873;

// The longest text: a head, and 1,024 lines of parity rules of 16 switches.
const MOST_TEXT: usize = 70_000;

fn main(rt: HostRuntime) -> anyhow::Result<()> {
    answer_input(&rt, MOST_INPUT, MOST_TEXT, convert)
}
