#![tactic(auto)]

mod help;

use anyhow::anyhow;
use books::ShippedBooks;
use help::HELP;
use logs::ShippedLog;
use std::env;
use std::io::{Read, Write};
use week::{LONGEST_FILE, run_week};

// One byte more than the longest file that is run: with it, a file is known to be too long.
const ENOUGH: usize = LONGEST_FILE + 1;

// The bytes of standard input, and no more of them than tell whether the file is too long.
fn read_file(rt: &HostRuntime) -> anyhow::Result<Vec<u8>> {
    // All its memory at once, with a byte to spare, so that the reading never asks for more.
    let mut file = Vec::with_capacity(rt.alloc(), ENOUGH + 1)?;
    rt.stdin().take(ENOUGH as u64).read_to_end(&mut file)?;
    Ok(file)
}

// Runs the week file on standard input, and writes its report.
fn report(rt: &HostRuntime) -> anyhow::Result<()> {
    let file = read_file(rt)?;
    let report = run_week::<ShippedBooks, ShippedLog>(rt.alloc(), file.as_slice())?;
    let mut output = rt.stdout();
    output.write_all(report.as_slice())?;
    output.flush()?;
    Ok(())
}

fn run(rt: &HostRuntime) -> anyhow::Result<()> {
    let mut words = env::args(rt)?;
    let _ = words.next();
    let Some(word) = words.next() else {
        return report(rt);
    };
    if word.as_str() == "help" {
        rt.print(HELP)?;
        return Ok(());
    }
    Err(anyhow!("unknown argument: there is only help"))
}

fn main(rt: HostRuntime) -> anyhow::Result<()> {
    run(&rt)
}
