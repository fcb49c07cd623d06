//! What the system gives a program.

use sdh_outside::{StdSink, StdSource, words};
use std::io::{Stdin, Stdout};
use std::process::ExitCode;

/// Calls a program with the words of the command line, standard input and standard output, and returns the number with
/// which it ends. Without words the program isn't called, and the number is that of `words` of `sdh_outside`.
pub fn run_program<F: FnOnce(&[String], &mut StdSource<Stdin>, &mut StdSink<Stdout>) -> u8>(
    rt: &HostRuntime,
    program: F,
) -> ExitCode
    requires { F.IsAlwaysCallable program }
{
    match words(rt) {
        Ok(words) => {
            let mut source = StdSource::new(rt.stdin());
            let mut sink = StdSink::new(rt.stdout());
            ExitCode::from(program(&words, &mut source, &mut sink))
        }
        Err(number) => ExitCode::from(number),
    }
}
