//! The program: its words, standard input and standard output, and the call that does all the rest.
#![tactic(auto)]

use sdh_node_cli::sdhnode;
use sdh_shell::run_program;
use std::process::ExitCode;

fn main(rt: HostRuntime) -> ExitCode {
    run_program(&rt, |words, source, sink| {
        sdhnode(rt.alloc(), words, source, sink).number()
    })
}
