//! The words by which a program is called.

use std::{env, io};

/// The number with which a program ends where memory runs out for its words.
const NO_MEMORY: u8 = 70;

/// The number with which a program ends where a word isn't UTF-8, or the system gives no words.
const NO_WORDS: u8 = 71;

/// Returns the words of the command line after the program's name, or the number with which the program ends without
/// them: 70 where memory runs out, and 71 where a word isn't UTF-8, or the system gives none.
pub fn words(rt: &HostRuntime) -> Result<Vec<String>, u8> {
    let args = match env::args(rt) {
        Ok(args) => args,
        Err(error) if error.kind() == io::ErrorKind::OutOfMemory => return Err(NO_MEMORY),
        Err(_) => return Err(NO_WORDS),
    };
    match args.skip(1).collect(rt.alloc()) {
        Ok(words) => Ok(words),
        Err(_) => Err(NO_MEMORY),
    }
}
