//! The program: it answers commands on roads, a line each, from a file or from standard input.
#![tactic(auto)]

ghost use Rattle.std.specs.Prelude.{◌≡◌, ◌⊎◌, List, ℕ, IfOk, IfSome, OnOk, MatchResult};
ghost use Rattle.std.specs.Io.KnownBytes.{Appends};
ghost use Rattle.std.specs.Process.{exit_status};
ghost use Rattle.session.specs.declared.faults.Faults.{Faults};
ghost use Rattle.session.specs.Faults.{status_of};
ghost use Rattle.session.specs.Inputs.{InputAnswered};
ghost use Rattle.clothoid.specs.StandardError.{said_of};

use session::Faults;
use std::fmt::Display;
use std::io::{BufWriter, ErrorKind, Read, Write};
use std::process::ExitCode;
use std::{env, fs, io};
use text::Shown;

mod help;
pub mod reader;

use help::{Help, USAGE};
use reader::{Failed, answer_all};

// Says on standard error why the program ends.
fn fail<D: Display + Drop>(rt: &HostRuntime, why: D) -> ExitCode
    ensures { exit_status result ≡ 1 }
{
    // nothing is left to do where not even this can be said
    let _ = eprintln!(rt; "clothoid: {why}");
    ExitCode::from(1)
}

// Says how many lines were wrong or refused, where any were.
fn write_faults<W: Write>(err: &mut W, faults: Faults) -> io::Result<()>
    ensures { OnOk result (Appends (W.contents err.old) (W.contents err.new) (said_of faults)) }
{
    if faults.any() {
        writeln!(err, "clothoid: {faults}")?;
    }
    Ok(())
}

// The exit status, once an input is answered or not; a reader of the answers that goes away is no news to whoever stopped it.
fn end(rt: &HostRuntime, name: &str, answered: Result<Faults, Failed>) -> ExitCode
    ensures { MatchResult answered (λ faults. exit_status result ≡ status_of faults) (λ _. exit_status result ≡ 1) }
{
    match answered {
        Ok(faults) => {
            let _ = write_faults(&mut rt.stderr(), faults);
            faults.status()
        }
        Err(Failed::Reading(why)) => {
            let name = Shown(name);
            fail(rt, format_args!("cannot read \"{name}\": {why}"))
        }
        Err(Failed::Writing(why)) => {
            if why.kind() == ErrorKind::BrokenPipe {
                return ExitCode::from(1);
            }
            fail(rt, why)
        }
    }
}

// Answers an input on an output.
fn answer<R: Read, W: Write + Drop>(
    rt: &HostRuntime,
    stop: bool,
    input: &mut R,
    out: W,
) -> Result<Faults, Failed>
    ensures { IfOk result (λ faults. IfSome (R.remaining input.old) (λ bytes. (text : List ℕ) × InputAnswered stop bytes text faults)) }
{
    let mut out = BufWriter::new(rt.alloc(), out)?;
    answer_all(rt, stop, input, &mut out)
}

// Answers an input of that name on standard output, and tells the exit status.
fn answer_input<R: Read>(rt: &HostRuntime, stop: bool, name: &str, input: &mut R) -> ExitCode
    ensures { (exit_status result ≡ 1) ⊎ IfSome (R.remaining input.old) (λ bytes. (text : List ℕ) × (faults : Faults) × InputAnswered stop bytes text faults × (exit_status result ≡ status_of faults)) }
{
    let answered = answer(rt, stop, input, rt.stdout());
    end(rt, name, answered)
}

// Answers a file.
fn answer_file(rt: &HostRuntime, stop: bool, name: &str) -> ExitCode {
    match fs::open(rt, name) {
        Ok(mut file) => answer_input(rt, stop, name, &mut file),
        Err(why) => {
            let name = Shown(name);
            fail(rt, format_args!("cannot open \"{name}\": {why}"))
        }
    }
}

// Prints the commands.
fn print_help(rt: &HostRuntime) -> ExitCode {
    let help = Help;
    match print!(rt; "{USAGE}\n\n{help}") {
        Ok(()) => ExitCode::from(0),
        Err(why) => end(rt, "", Err(Failed::Writing(why))),
    }
}

// Does what the arguments ask.
fn answer_arguments(rt: &HostRuntime) -> io::Result<ExitCode> {
    let mut args = env::args(rt)?;
    let _ = args.next();
    let mut stop = false;
    let mut file = None;
    for word in args {
        match word.as_str() {
            "--help" | "-h" => return Ok(print_help(rt)),
            "--stop" => stop = true,
            option if option.starts_with('-') => {
                let option = Shown(option);
                return Ok(fail(rt, format_args!("unknown option \"{option}\"; {USAGE}")));
            }
            _ if file.is_some() => {
                return Ok(fail(rt, format_args!("more than one file; {USAGE}")));
            }
            _ => file = Some(word),
        }
    }
    Ok(match file {
        Some(name) => answer_file(rt, stop, name.as_str()),
        None => answer_input(rt, stop, "standard input", &mut rt.stdin()),
    })
}

fn main(rt: HostRuntime) -> ExitCode {
    match answer_arguments(&rt) {
        Ok(status) => status,
        Err(why) => fail(&rt, why),
    }
}
