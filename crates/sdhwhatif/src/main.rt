//! The program: its words, standard input and standard output, and the call that does all the rest.
#![tactic(auto)]

use sdh_shell::run_program;
use sdh_whatif_cli::whatif;
use std::process::ExitCode;

fn main(rt: HostRuntime) -> ExitCode {
    run_program(&rt, |words, source, sink| {
        whatif(rt.alloc(), words, source, sink).number()
    })
}
