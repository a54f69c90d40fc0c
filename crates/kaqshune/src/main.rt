// kaqshune FILE..: prints each line of the files that isn't understood, with a mark under the place, and how many there are.
// All that it says of a line comes from the library; here is only what reads arguments and files, and prints.
#![tactic(auto)]

mod check;
mod lines;
mod options;

use check::Totals;
use options::Task;
use std::io::{BufWriter, Write};
use std::process::ExitCode;

const HELP: &str = "usage: kaqshune [--exit-zero] [--help] FILE..

Prints each line of the files that isn't understood, as FILE:LINE:COLUMN, with
a mark under the place, and at the end how many files, lines and faults there are.

  --exit-zero  status 0 also where there are faults
  --help       this text
  --           what follows are files, also if it begins with -

Status 1 where there is a fault, a file that can't be read, or wrong usage.
";

fn check_files(rt: &HostRuntime, files: &[String], faults_count: bool) -> anyhow::Result<ExitCode> {
    let mut out = BufWriter::new(rt.alloc(), rt.stdout())?;
    let mut totals = Totals::new(rt.alloc());
    for path in files {
        totals.check_file(rt, path.as_str(), &mut out)?;
    }
    totals.print(rt, &mut out)?;
    out.flush()?;
    Ok(if totals.is_fine(faults_count) {
        ExitCode::SUCCESS
    } else {
        ExitCode::FAILURE
    })
}

fn run(rt: &HostRuntime, task: &Task) -> anyhow::Result<ExitCode> {
    match task {
        Task::Help => {
            print!(rt; "{HELP}")?;
            Ok(ExitCode::SUCCESS)
        }
        Task::Check {
            files,
            faults_count,
        } => check_files(rt, &files[..], *faults_count),
    }
}

// Where something was wrong, what it was has been said, and the status is 1.
fn main(rt: HostRuntime) -> ExitCode {
    let task = match Task::from_args(&rt) {
        Ok(task) => task,
        Err(e) => {
            let _ = eprintln!(rt; "kaqshune: {e}");
            let _ = eprint!(rt; "{HELP}");
            return ExitCode::FAILURE;
        }
    };
    match run(&rt, &task) {
        Ok(code) => code,
        Err(e) => {
            let _ = eprintln!(rt; "kaqshune: {e}");
            ExitCode::FAILURE
        }
    }
}
