// Checks and reads each of the files that standard input holds, and prints what came of it.
#![tactic(auto)]

use anyhow::{Context, Result};
use files::any::{check_any, read_any};
use sheets::sheet::Sheet;
use std::io::Read;

// The number that the bytes begin with, and what follows it.
fn take_number(bytes: &[u8]) -> Option<(u16, &[u8])> {
    let (number, rest) = bytes.split_first_chunk::<2>()?;
    Some((u16::from_le_bytes(*number), rest))
}

// Prints the refusal of the file, or the switches and rules of its sheet.
fn print_case(rt: &(impl Print + AllocGlobal), file: &[u8]) -> Result<()> {
    match check_any(file) {
        Ok(()) => {
            let table = read_any(rt.alloc(), file)?;
            println!(rt; "sheet {} {}", table.switches(), table.count())?;
        }
        Err(fault) => println!(rt; "{fault}")?,
    }
    Ok(())
}

fn main(rt: HostRuntime) -> Result<()> {
    let mut input = Vec::new(rt.alloc());
    rt.stdin().read_to_end(&mut input)?;
    let (count, mut rest) = take_number(input.as_slice()).context("no cases")?;
    // Each case tells its own size.
    for _ in 0..count {
        let (size, after) = take_number(rest).context("cut short")?;
        let (file, others) = after.split_at_checked(size as usize).context("cut short")?;
        print_case(&rt, file)?;
        rest = others;
    }
    Ok(())
}
