//! What the words of the command line ask for.
ghost use Rattle.std.specs.Prelude.{◌≡◌};
ghost use Rattle.sdh_shell.specs.Calls.{words_of};
ghost use Rattle.sdh_aps_cli.specs.Words.{asked_alone, asked_of_node, frames_asked, asked_of_frames, asked, has_node, listing_of};

use crate::listing::{PlanListing, SignalAsk, SignalListing};
use crate::window::{FrameAsk, FrameWindow};
use sdh_plan::{numeral_in, side_at};
use sdh_ringmap::RingMap;

// Returns what one word asks for.
fn asked_alone(word: &str) -> Option<SignalAsk>
    ensures { result ≡ asked_alone word.now }
{
    if word == "run" {
        Some(SignalAsk::Lines(SignalListing::All))
    } else {
        None
    }
}

// Returns what a word and an identifier ask for.
fn asked_of_node(word: &str, id: &str) -> Option<SignalAsk>
    ensures { result ≡ asked_of_node word.now id.now }
{
    if word != "node" {
        return None;
    }
    let id = numeral_in(id.as_bytes(), 0, 15)?;
    Some(SignalAsk::Lines(SignalListing::Node(id as u8)))
}

// Returns the frames of a node and a side, in a number of rounds from a first one on.
fn frames_asked(id: &str, side: &str, first: &str, count: &str) -> Option<SignalAsk>
    ensures { result ≡ frames_asked id.now side.now first.now count.now }
{
    let id = numeral_in(id.as_bytes(), 0, 15)?;
    let side = side_at(side.as_bytes())?;
    let first = numeral_in(first.as_bytes(), 0, 4294967295)?;
    let count = numeral_in(count.as_bytes(), 1, 4294967295)?;
    Some(SignalAsk::Frames(FrameAsk {
        id: id as u8,
        side,
        first,
        count,
    }))
}

// Returns what a word, a node, a side and rounds ask for.
fn asked_of_frames(word: &str, id: &str, side: &str, first: &str, count: &str) -> Option<SignalAsk>
    ensures { result ≡ asked_of_frames word.now id.now side.now first.now count.now }
{
    if word == "frames" {
        frames_asked(id, side, first, count)
    } else {
        None
    }
}

/// Returns what the words ask for, or `None` where they have no form that the program knows.
pub fn asked(words: &[String]) -> Option<SignalAsk>
    ensures { result ≡ asked (words_of words.now) }
{
    match words {
        [word] => asked_alone(word),
        [word, id] => asked_of_node(word, id),
        [word, id, side, first, count] => asked_of_frames(word, id, side, first, count),
        _ => None,
    }
}

// Returns whether a ring has the node whose lines are asked for.
fn has_node(lines: SignalListing, map: &RingMap) -> bool
    ensures { result ≡ has_node lines map.now }
{
    match lines {
        SignalListing::All => true,
        SignalListing::Node(id) => map.find(id).is_some(),
    }
}

/// Returns what is written of a run over a ring, or `None` where the ring has no node of the identifier.
pub fn listing_of(ask: SignalAsk, map: &RingMap) -> Option<PlanListing>
    ensures { result ≡ listing_of ask map.now }
{
    match ask {
        SignalAsk::Lines(lines) => {
            if has_node(lines, map) {
                Some(PlanListing::Lines(lines))
            } else {
                None
            }
        }
        SignalAsk::Frames(frames) => {
            let at = map.find(frames.id)?;
            Some(PlanListing::Frames(FrameWindow {
                at,
                side: frames.side,
                first: frames.first,
                count: frames.count,
            }))
        }
    }
}
