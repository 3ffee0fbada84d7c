//! `caltool` answers each line of standard input by one line on standard output.
#![tactic(auto)]

use caltool_dates::run;
use std::process::ExitCode;

fn main(rt: HostRuntime) -> ExitCode {
    match run(&mut rt.stdin(), &mut rt.stdout()) {
        Ok(()) => ExitCode::SUCCESS,
        Err(fault) => {
            let _ = eprintln!(rt; "{fault}");
            ExitCode::from(fault.status())
        }
    }
}
