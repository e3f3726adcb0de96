//! The program m4r: the runtime, handed to `m4_tool`.
#![tactic(auto)]

use m4_tool::program::exit_status;
use std::process::ExitCode;

fn main(rt: HostRuntime) -> ExitCode {
    ExitCode::from(exit_status(&rt, rt.stdin(), rt.stderr()))
}
