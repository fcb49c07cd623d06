//! The program: its words, standard input and standard output, and the call that does all the rest.
#![tactic(auto)]

use sdh_aps_cli::sdhaps;
use sdh_plant::FibrePlant;
use sdh_shell::run_program;
use std::process::ExitCode;

fn main(rt: HostRuntime) -> ExitCode {
    run_program(&rt, |words, source, sink| {
        let mut plant = FibrePlant::new();
        sdhaps(rt.alloc(), words, source, sink, &mut plant).number()
    })
}
