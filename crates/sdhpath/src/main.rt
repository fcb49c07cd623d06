//! The program: its word, standard input and standard output, and the call that does all the rest.
#![tactic(auto)]

use sdh_plant::FibrePlant;
use sdh_shell::run_program;
use sdh_sncp_cli::sdhpath;
use std::process::ExitCode;

fn main(rt: HostRuntime) -> ExitCode {
    run_program(&rt, |words, source, sink| {
        let mut plant = FibrePlant::new();
        sdhpath(rt.alloc(), words, source, sink, &mut plant)
    })
}
