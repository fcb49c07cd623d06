//! The program: its word, standard input and standard output, and the call that does all the rest.
#![tactic(auto)]

use sdh_retime_cli::retime;
use sdh_shell::run_program;
use std::process::ExitCode;

fn main(rt: HostRuntime) -> ExitCode {
    run_program(&rt, |words, source, sink| {
        retime(rt.alloc(), words, source, sink)
    })
}
