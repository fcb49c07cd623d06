//! What the words of the command line ask for.
ghost use Rattle.std.specs.Prelude.{◌≡◌, option_map};
ghost use Rattle.sdh_shell.specs.Calls.{words_of};
ghost use Rattle.sdh_cli.specs.Words.{ask_of, asked_alone, asked_with_number, asked_with_port, asked};

use sdh_circuits::End;
use sdh_plan::numeral_in;
use sdh_shell::end_lettered;

/// What the program is asked for.
#[derive(Clone, Copy, Debug)]
pub enum Command<'a> {
    /// Run the plan and report every settle step.
    Run,
    /// Write the squelch tables of the plan.
    Check,
    /// Run the plan and write all that one port delivers.
    Drop(&'a str, End),
    /// Run the large plan of a number, and write for each settle step how many ports show bytes and how many AIS.
    Big(u32),
}

// Returns what one word asks for.
fn asked_alone<'a>(word: &str) -> Option<Command<'a>>
    ensures { option_map ask_of result ≡ asked_alone word.now }
{
    if word == "run" {
        Some(Command::Run)
    } else if word == "check" {
        Some(Command::Check)
    } else {
        None
    }
}

// Returns what a word and a number ask for.
fn asked_with_number<'a>(word: &str, number: &str) -> Option<Command<'a>>
    ensures { option_map ask_of result ≡ asked_with_number word.now number.now }
{
    if word != "big" {
        return None;
    }
    let number = numeral_in(number.as_bytes(), 0, u32::MAX)?;
    Some(Command::Big(number))
}

// Returns what a word, a name and a letter ask for.
fn asked_with_port<'a>(word: &str, name: &'a str, letter: &str) -> Option<Command<'a>>
    ensures { option_map ask_of result ≡ asked_with_port word.now name.now letter.now }
{
    if word != "drop" {
        return None;
    }
    let end = end_lettered(letter)?;
    Some(Command::Drop(name, end))
}

/// Returns what the words ask for, or `None` where they have no form that the program knows.
pub fn command_of(words: &[String]) -> Option<Command<'_>>
    ensures { option_map ask_of result ≡ asked (words_of words.now) }
{
    match words {
        [word] => asked_alone(word),
        [word, number] => asked_with_number(word, number),
        [word, name, letter] => asked_with_port(word, name, letter),
        _ => None,
    }
}
