// Times the calls of a sheet over the rows of a file, for bench/: it prints the least time of each, and what the calls answered.
#![tactic(auto)]

mod input;
mod report;
mod rounds;

use anyhow::bail;
use input::read_rows;
use report::write_report;
use rounds::{Memory, time_rounds};
use std::env;
use std::io::BufWriter;
use std::process::ExitCode;

const USAGE: &str = "usage: timing FILE ROUNDS";

fn time_file(rt: &HostRuntime) -> anyhow::Result<()> {
    let mut args = env::args(rt)?;
    let _ = args.next();
    let (Some(file), Some(rounds)) = (args.next(), args.next()) else {
        println!(rt; "{USAGE}")?;
        return Ok(());
    };
    let Ok(rounds) = rounds.as_str().parse::<u32>() else {
        bail!("{USAGE}");
    };
    let alignment = read_rows(rt, file.as_str())?;
    let mut memory = Memory::new(rt.alloc())?;
    let times = time_rounds(rt, &alignment, &mut memory, rounds)?;
    let mut out = BufWriter::new(rt.alloc(), rt.stdout())?;
    write_report(&mut out, &times, &memory)?;
    Ok(())
}

fn main(rt: HostRuntime) -> ExitCode {
    if let Err(e) = time_file(&rt) {
        let _ = eprintln!(rt; "timing: {e}");
        return ExitCode::FAILURE;
    }
    ExitCode::SUCCESS
}
