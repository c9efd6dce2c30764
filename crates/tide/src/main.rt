//! The program, with the arguments, files, streams, clock and port of the machine.
#![tactic(auto)]

mod arguments;
mod given;
mod help;
mod machine;
mod responding;
mod sheets;

use machine::respond_here;
use std::env;
use std::process::ExitCode;

fn main(rt: HostRuntime) -> ExitCode {
    ExitCode::from(respond_here(rt, env::args(&rt), rt.stdout(), rt.stderr()).number())
}
