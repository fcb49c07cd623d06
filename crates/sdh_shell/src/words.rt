//! The words of a command line.
ghost use Rattle.std.specs.Prelude.{◌≡◌};
ghost use Rattle.sdh_shell.specs.Calls.{words_of, is_run, end_lettered};

use sdh_circuits::End;

/// Returns whether the words are the one word `run`.
pub fn is_run(words: &[String]) -> bool
    ensures { result ≡ is_run (words_of words.now) }
{
    match words {
        [word] => word.as_str() == "run",
        _ => false,
    }
}

/// Returns the end of a circuit that a letter names, `a` or `b`, and `None` for any other text.
pub fn end_lettered(letter: &str) -> Option<End>
    ensures { result ≡ end_lettered letter.now }
{
    if letter == "a" {
        Some(End::A)
    } else if letter == "b" {
        Some(End::B)
    } else {
        None
    }
}
