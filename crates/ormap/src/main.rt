// Runs a trace from standard input to standard output, and ends with the status of what came of it.
#![tactic(auto)]

use std::process::ExitCode;
use trace_cli::{Watched, run_to_status};

fn main(rt: HostRuntime) -> ExitCode {
    let mut reader = Watched::new(rt.stdin());
    let mut writer = Watched::new(rt.stdout());
    let status = run_to_status(rt.alloc(), &mut reader, &mut writer);
    ExitCode::from(status)
}
