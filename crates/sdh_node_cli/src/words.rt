//! What the words of the command line ask for.
ghost use Rattle.std.specs.Prelude.{◌≡◌};
ghost use Rattle.sdh_shell.specs.Calls.{words_of};
ghost use Rattle.sdh_node_cli.specs.Words.{mode_named, asked_as, asked_with, asked};

use sdh_plan::numeral_in;

/// What is written for a round.
#[derive(Clone, Copy)]
pub enum Mode {
    /// Lines alone.
    Lines,
    /// Lines, and the frames that leave the node.
    Frames,
}

/// What is asked for.
#[derive(Clone, Copy)]
pub struct Ask {
    /// The identifier of the node.
    pub id: u8,
    /// What is written for a round.
    pub mode: Mode,
}

// Returns the mode that a word names.
fn mode_named(word: &str) -> Option<Mode>
    ensures { result ≡ mode_named word.now }
{
    if word == "lines" {
        Some(Mode::Lines)
    } else if word == "frames" {
        Some(Mode::Frames)
    } else {
        None
    }
}

// Returns what an identifier and a mode ask for.
fn asked_as(id: &str, mode: Mode) -> Option<Ask>
    ensures { result ≡ asked_as id.now mode }
{
    match numeral_in(id.as_bytes(), 0, 15) {
        Some(id) => Some(Ask { id: id as u8, mode }),
        None => None,
    }
}

// Returns what an identifier and the word of a mode ask for.
fn asked_in(id: &str, mode: &str) -> Option<Ask>
    ensures { result ≡ asked_with id.now mode.now }
{
    match mode_named(mode) {
        Some(mode) => asked_as(id, mode),
        None => None,
    }
}

/// Returns what the words ask for: an identifier from 0 to 15, and perhaps the word `lines` or `frames` after it.
/// Returns `None` for all other words.
pub fn asked(words: &[String]) -> Option<Ask>
    ensures { result ≡ asked (words_of words.now) }
{
    match words {
        [id] => asked_as(id, Mode::Lines),
        [id, mode] => asked_in(id, mode),
        _ => None,
    }
}
