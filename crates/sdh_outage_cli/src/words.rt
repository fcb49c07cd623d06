//! What the words of the command line ask for.
ghost use Rattle.std.specs.Prelude.{◌≡◌, option_map, IfSome, length};
ghost use Rattle.sdh_shell.specs.Calls.{words_of};
ghost use Rattle.sdh_outage_cli.specs.Running.{MayListOutages};
ghost use Rattle.sdh_outage_cli.specs.Words.{outage_ask_of, asked_alone, outage_asked_with_port, asked, listing_of};

use crate::listing::OutageListing;
use sdh_circuits::{End, PortId};
use sdh_plan::Plan;
use sdh_shell::end_lettered;

/// What the program is asked for.
#[derive(Clone, Copy, Debug)]
pub enum Command<'a> {
    /// Run the plan and list the outages of all ports.
    Run,
    /// Run the plan and list the changes of one port.
    Trace(&'a str, End),
}

// Returns what one word asks for.
fn asked_alone<'a>(word: &str) -> Option<Command<'a>>
    ensures { option_map outage_ask_of result ≡ asked_alone word.now }
{
    if word == "run" {
        Some(Command::Run)
    } else {
        None
    }
}

// Returns what a word, a name and a letter ask for.
fn asked_with_port<'a>(word: &str, name: &'a str, letter: &str) -> Option<Command<'a>>
    ensures { option_map outage_ask_of result ≡ outage_asked_with_port word.now name.now letter.now }
{
    if word != "trace" {
        return None;
    }
    let end = end_lettered(letter)?;
    Some(Command::Trace(name, end))
}

/// Returns what the words ask for, or `None` where they have no form that the program knows.
pub fn command_of(words: &[String]) -> Option<Command<'_>>
    ensures { option_map outage_ask_of result ≡ asked (words_of words.now) }
{
    match words {
        [word] => asked_alone(word),
        [word, name, letter] => asked_with_port(word, name, letter),
        _ => None,
    }
}

/// Returns what is listed of each settle step of a plan, or `None` where the plan has no such port.
pub fn listing_of(command: Command<'_>, plan: &Plan) -> Option<OutageListing>
    ensures listing { result ≡ listing_of (outage_ask_of command.entry) plan.now }
    ensures may { IfSome result (λ listing. MayListOutages (length plan.now.circuits) listing) }
{
    match command {
        Command::Run => Some(OutageListing::Ports),
        Command::Trace(name, end) => {
            let circuit = plan.circuits().at_port(name)?;
            Some(OutageListing::Trace(PortId { circuit, end }))
        }
    }
}
