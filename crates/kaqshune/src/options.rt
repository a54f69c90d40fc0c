// What the program is asked to do.
use anyhow::anyhow;
use std::env;

// Files are gone over, and faults count for the status or don't; or it is said how the program is used.
#[derive(Drop)]
pub enum Task {
    Help,
    Check {
        files: Vec<String>,
        faults_count: bool,
    },
}

impl Task {
    // The task of the command line; an error that says what is wrong with it.
    pub fn from_args(rt: &HostRuntime) -> anyhow::Result<Task> {
        let mut faults_count = true;
        let mut help = false;
        let mut only_files = false;
        let mut files = Vec::new(rt.alloc());
        for arg in env::args(rt)?.skip(1) {
            if only_files || !arg.as_str().starts_with("-") {
                files.push(arg)?;
                continue;
            }
            match arg.as_str() {
                "--" => only_files = true,
                "--exit-zero" => faults_count = false,
                "--help" => help = true,
                other => return Err(anyhow!(format!(in rt.alloc(); "there is no option {other}")?)),
            }
        }
        if help {
            return Ok(Task::Help);
        }
        if files.is_empty() {
            return Err(anyhow!("no file is named"));
        }
        Ok(Task::Check {
            files,
            faults_count,
        })
    }
}
