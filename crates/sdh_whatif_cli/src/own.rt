//! The failures of the user's own, as the words name them.
ghost use Rattle.std.specs.Prelude.{◌≡◌, ◌<◌, ◌≤◌, ◌∷◌, [], All, None, Some, IfOk, IfSome, IfErr, OnOk, length, option_map, position};
ghost use Rattle.std.specs.Prelude.{slice_index_or};
ghost use Rattle.std.specs.List.{slice_split};
ghost use Rattle.std.specs.Option.{option_map_or};
ghost use Rattle.std.specs.Str.{bytes_eq};
ghost use Rattle.sdh_shell.specs.Calls.{words_of};
ghost use Rattle.sdh_verdicts.specs.Failures.{IsFailureIn};
ghost use Rattle.sdh_whatif_cli.specs.Words.{own_texts};
ghost use Rattle.sdh_whatif_cli.specs.Cases.{AreOwn};
ghost use Rattle.sdh_whatif_cli.specs.Lines.{failure_text};
ghost use Rattle.sdh_whatif_cli.specs.Own.{unspaced, is_semicolon, failure_named, together, own_failures, first_unknown, IsUnknown, IsNone};

use crate::line::Line;
use crate::names::put_failure_name;
use sdh_ringmap::RingMap;
use sdh_verdicts::{Failure, failure_at};
use std::alloc::{AllocFailed, Global};
use std::marker::Model;

/// The user's own failures: for each the failures of the ring that come together in it.
#[derive(Drop)]
pub struct OwnFailures {
    lists: Vec<Vec<Failure>>,
}

impl Model for OwnFailures {
    ghost use Rattle.std.specs.Prelude.{List, map};
    ghost use Rattle.sdh_verdicts.specs.declared.failure.Failure.{Failure};

    ghost Value = { List (List Failure) };

    ghost view = { λ o. map (λ list. list.items) o.lists.items };
}

impl OwnFailures {
    /// Returns the number of failures of the user's own.
    pub fn len(&self) -> usize
        ensures { result ≡ length self.now }
    {
        self.lists.len()
    }

    /// Returns the failures of the ring in the user's own failure of this number, counted from 0, or none where there
    /// is no such one.
    pub fn list(&self, number: usize) -> &[Failure]
        ensures { result.now ≡ slice_index_or self.now number [] }
    {
        if number < self.lists.len() {
            &self.lists[number]
        } else {
            &[]
        }
    }
}

/// Why there are no failures of the user's own.
#[derive(Clone, Copy)]
pub enum OwnError {
    /// Memory ran out.
    Memory,
    /// The text at this place, counted from 1, has more than 16 names or a name of no failure of the ring, or is the
    /// 17th.
    Unknown(u32),
}

impl<T: Drop> From<AllocFailed<T>> for OwnError {
    ghost use Rattle.sdh_whatif_cli.specs.declared.own.OwnError.TheVariants.{Memory};

    ghost from_gives = { λ _ error. error ≡ Memory };

    fn from(_failed: AllocFailed<T>) -> OwnError {
        OwnError::Memory
    }
}

// Returns whether a failure has this name.
fn is_named(line: &mut Line, map: &RingMap, failure: Failure, name: &[u8]) -> bool
    requires failure { IsFailureIn (length map.now) failure }
    ensures { result ≡ bytes_eq (failure_text map.now failure) name.now }
{
    line.clear();
    put_failure_name(line, map, failure);
    line.bytes() == name
}

// Returns the first failure of the ring with this name.
fn failure_named(line: &mut Line, map: &RingMap, name: &[u8]) -> Option<Failure>
    ensures is { result ≡ failure_named map.now name.now }
    ensures within { IfSome result (IsFailureIn (length map.now)) }
{
    let nodes = map.len();
    for number in 0..10 * nodes {
        let failure = failure_at(nodes, number);
        if is_named(line, map, failure, name) {
            return Some(failure);
        }
    }
    None
}

// Returns a text without the space that it begins with, if it does.
fn unspaced(text: &[u8]) -> &[u8]
    ensures { result.now ≡ unspaced text.now }
{
    match text {
        [b' ', more @ ..] => more,
        _ => text,
    }
}

// Returns the place of the first semicolon.
fn first_semicolon(text: &[u8]) -> Option<usize>
    ensures place { result ≡ position is_semicolon text.now }
    ensures within { IfSome result (λ at. at < length text.now) }
{
    text.iter().position(|byte| *byte == b';')
}

// Returns the text up to its first semicolon, and what comes after that, if there is one.
fn cut(text: &[u8]) -> (&[u8], Option<&[u8]>)
    ensures cut { slice_split is_semicolon text.now
        ≡ result.0.now ∷ option_map_or (λ rest. slice_split is_semicolon rest.now) result.1 [] }
    ensures shorter { IfSome result.1 (λ rest. length rest.now < length text.now) }
{
    match first_semicolon(text) {
        Some(at) => (&text[..at], Some(&text[at + 1..])),
        None => (text, None),
    }
}

// Returns the failures that a text names, or `None` where it has more than 16 names, or a name of no failure.
fn together(
    alloc: Global,
    line: &mut Line,
    map: &RingMap,
    text: &[u8],
) -> Result<Option<Vec<Failure>>, OwnError>
    ensures is { IfOk result (λ found. option_map (λ list. list.items) found ≡ together map.now text.now) }
    ensures short { IfOk result (λ found. IfSome found (λ list. length list.items ≤ 16)) }
    ensures within { IfOk result (λ found. IfSome found (λ list. All (IsFailureIn (length map.now)) list.items)) }
{
    let mut list = Vec::new(alloc);
    let mut rest = Some(text);
    while let Some(text) = rest {
        let (name, behind) = cut(text);
        if list.len() == 16 {
            return Ok(None);
        }
        match failure_named(line, map, unspaced(name)) {
            Some(failure) => list.push(failure)?,
            None => return Ok(None),
        }
        rest = behind;
    }
    Ok(Some(list))
}

// Returns the failures that the text at a place names, or the error where it names none.
fn next_own(
    alloc: Global,
    line: &mut Line,
    map: &RingMap,
    place: u32,
    text: &[u8],
) -> Result<Vec<Failure>, OwnError>
    ensures is { IfOk result (λ list. Some list.items ≡ together map.now text.now) }
    ensures place { OnOk result (place ≤ 16) }
    ensures short { IfOk result (λ list. length list.items ≤ 16) }
    ensures within { IfOk result (λ list. All (IsFailureIn (length map.now)) list.items) }
    ensures unknown { IfErr result (IsNone place (together map.now text.now)) }
{
    if place > 16 {
        return Err(OwnError::Unknown(place));
    }
    match together(alloc, line, map, text) {
        Ok(Some(list)) => Ok(list),
        Ok(None) => Err(OwnError::Unknown(place)),
        Err(_) => Err(OwnError::Memory),
    }
}

/// Returns the user's own failures in this ring, by the words of a command line, or why there are none: the place of
/// the first unknown text, or out of memory.
pub fn own_failures(
    alloc: Global,
    line: &mut Line,
    map: &RingMap,
    words: &[String],
) -> Result<OwnFailures, OwnError>
    ensures are { IfOk result (λ own. own ≡ own_failures map.now (own_texts (words_of words.now))) }
    ensures own { IfOk result (AreOwn (length map.now)) }
    ensures known { OnOk result (first_unknown map.now (own_texts (words_of words.now)) ≡ None) }
    ensures unknown { IfErr result (IsUnknown (first_unknown map.now (own_texts (words_of words.now)))) }
{
    let mut lists = Vec::new(alloc);
    let mut behind = false;
    for word in words {
        if behind {
            let place = lists.len() as u32 + 1;
            match next_own(alloc, line, map, place, word.as_bytes()) {
                Ok(list) => lists.push(list)?,
                Err(why) => return Err(why),
            }
            behind = false;
        } else {
            behind = word.as_str() == "own";
        }
    }
    Ok(OwnFailures { lists })
}
