//! What a pointer interpreter keeps, and how a word changes it.
ghost use Rattle.std.specs.Prelude.{◌≡◌, ◌≤◌};
ghost use Rattle.sdh_pointer.specs.Words.{one_up, one_down};
ghost use Rattle.sdh_pointer.specs.Reading.{IsBounded, event_value, later, nothing_counted, with_ais, with_bad, with_new, news_with, goes_up};
ghost use Rattle.sdh_pointer.specs.Reading.{goes_down, normal_event, event_of, after_in, action_in, after_event, action_on_event};
ghost use Rattle.sdh_pointer.specs.Reading.{same_mode, same_reading};
ghost use Rattle.sdh_pointer.specs.declared.reading.Mode.TheVariants as mode;
ghost use Rattle.sdh_pointer.specs.declared.reading.Event.TheVariants as event;

use crate::word::{Word, d_changes, i_changes, is_enabled, is_normal};

/// The mode of an interpreter: it has a pointer, it reads AIS, or it has lost the pointer.
#[derive(Clone, Copy, Debug, PartialEq, Eq)]
pub enum Mode {
    Norm,
    Ais,
    Lop,
}

/// What a word means to an interpreter: AIS, an invalid word, a new data flag with a value, the value
/// that is kept, a justification by one step up or down, another value.
#[derive(Clone, Copy, Debug, PartialEq, Eq)]
pub enum Event {
    Ais,
    Bad,
    Ndf(u16),
    Same,
    Up,
    Down,
    New(u16),
}

/// What a step of an interpreter asks of the generator after it: the value goes on, is taken anew, moves by one step up
/// or down, or there is none.
#[derive(Clone, Copy, Debug, PartialEq, Eq)]
pub enum Action {
    Normal,
    New,
    Up,
    Down,
    Ais,
}

/// What an interpreter keeps. `value` is not used in the modes `Ais` and `Lop`. `ais`, `bad` and `news` are the numbers
/// of AIS words, of invalid words and of equal new values that were read in a row. `candidate` is that new value, or 0
/// where none is counted. `since` is the number of steps, up to 3, after the last new data flag or justification, or
/// after mode `Norm` was entered.
#[derive(Clone, Copy, Debug, PartialEq, Eq)]
pub struct Reading {
    pub mode: Mode,
    pub value: u16,
    pub ais: u8,
    pub bad: u8,
    pub candidate: u16,
    pub news: u8,
    pub since: u8,
}

// The largest pointer value.
const LAST: u16 = 782;

// The number of values that the last ten bits of a word can hold.
const VALUE_END: u16 = 1024;

// The numbers of AIS words, of equal new values and of invalid words in a row that change the mode or the value.
const AIS_NEEDED: u8 = 3;

const NEWS_NEEDED: u8 = 3;

const BAD_NEEDED: u8 = 8;

// The number of steps that must lie between a new data flag or a justification and the next justification.
const STEADY: u8 = 3;

// Returns a state in which nothing is counted.
fn settled(mode: Mode, value: u16, since: u8) -> Reading
    ensures { result ≡ nothing_counted mode value since }
{
    Reading {
        mode,
        value,
        ais: 0,
        bad: 0,
        candidate: 0,
        news: 0,
        since,
    }
}

// Returns the reading with one more AIS word in a row.
fn with_ais(reading: Reading, since: u8) -> Reading
    requires { IsBounded reading }
    ensures { result ≡ with_ais reading since }
{
    Reading {
        ais: reading.ais + 1,
        ..settled(reading.mode, reading.value, since)
    }
}

// Returns the reading with one more invalid word in a row.
fn with_bad(reading: Reading, since: u8) -> Reading
    requires { IsBounded reading }
    ensures { result ≡ with_bad reading since }
{
    Reading {
        bad: reading.bad + 1,
        ..settled(reading.mode, reading.value, since)
    }
}

// Returns the number of equal new values in a row, this one included.
fn news_with(reading: &Reading, value: u16) -> u8
    requires { IsBounded reading.now }
    ensures { result ≡ news_with reading.now value }
{
    if reading.news == 0 || reading.candidate != value {
        1
    } else {
        reading.news + 1
    }
}

// Returns the state with a new value that came `news` times in a row.
fn with_new(reading: Reading, value: u16, news: u8, since: u8) -> Reading
    requires { news ≡ news_with reading value }
    ensures { result ≡ with_new reading value since }
{
    Reading {
        candidate: value,
        news,
        ..settled(reading.mode, reading.value, since)
    }
}

// Returns `since` one step later.
fn later(since: u8) -> u8
    requires { since ≤ 3 }
    ensures { result ≡ later since }
{
    if since < STEADY { since + 1 } else { STEADY }
}

/// Returns the value one step on.
pub fn one_up(value: u16) -> u16
    requires { value ≤ 782 }
    ensures { result ≡ one_up value }
{
    if value < LAST { value + 1 } else { 0 }
}

/// Returns the value one step back.
pub fn one_down(value: u16) -> u16
    requires { value ≤ 782 }
    ensures { result ≡ one_down value }
{
    if value > 0 { value - 1 } else { LAST }
}

#[tactic(auto, unfolding(crate::specs::Reading::goes_up))]
fn goes_up(value: u16, kept: u16) -> bool
    ensures { result ≡ goes_up value kept }
{
    i_changes(value, kept) >= 3 && d_changes(value, kept) <= 2
}

#[tactic(auto, unfolding(crate::specs::Reading::goes_down))]
fn goes_down(value: u16, kept: u16) -> bool
    ensures { result ≡ goes_down value kept }
{
    d_changes(value, kept) >= 3 && i_changes(value, kept) <= 2
}

// Returns the event of a normal word with a value.
#[tactic(auto, unfolding(crate::specs::Reading::normal_event))]
fn normal_event(reading: &Reading, value: u16) -> Event
    ensures event { result ≡ normal_event reading.now value }
    ensures fits { event_value result ≤ 782 }
{
    let norm = matches!(reading.mode, Mode::Norm);
    if norm && value == reading.value {
        return Event::Same;
    }
    if norm && reading.since >= STEADY && goes_up(value, reading.value) {
        return Event::Up;
    }
    if norm && reading.since >= STEADY && goes_down(value, reading.value) {
        return Event::Down;
    }
    if value <= LAST {
        Event::New(value)
    } else {
        Event::Bad
    }
}

// Returns the event of a word.
#[tactic(auto, unfolding(crate::specs::Reading::event_of))]
pub fn event_of(reading: &Reading, word: Word) -> Event
    ensures event { result ≡ event_of reading.now word.0 }
    ensures fits { event_value result ≤ 782 }
{
    let value = word.0 % VALUE_END;
    if word.0 == 0xFFFF {
        Event::Ais
    } else if is_enabled(word) {
        if value <= LAST {
            Event::Ndf(value)
        } else {
            Event::Bad
        }
    } else if is_normal(word) {
        normal_event(reading, value)
    } else {
        Event::Bad
    }
}

// Returns what is kept after an event in mode Norm, and the action: the table's rows of that mode.
#[tactic(auto, unfolding(crate::specs::Reading::after_in, crate::specs::Reading::action_in, crate::specs::Reading::reading_row_of, crate::specs::Reading::reading_table))]
fn step_in_norm(reading: Reading, event: Event) -> (Reading, Action)
    requires bounded { IsBounded reading }
    requires fits { event_value event ≤ 782 }
    ensures next { result.0 ≡ after_in mode.Norm event reading }
    ensures action { result.1 ≡ action_in mode.Norm event reading }
    ensures bounded { IsBounded result.0 }
{
    let value = reading.value;
    let since = later(reading.since);
    match event {
        Event::Same => (settled(Mode::Norm, value, since), Action::Normal),
        Event::Ndf(new) => (settled(Mode::Norm, new, 0), Action::New),
        Event::Up => (settled(Mode::Norm, one_up(value), 0), Action::Up),
        Event::Down => (settled(Mode::Norm, one_down(value), 0), Action::Down),
        Event::New(new) => {
            let news = news_with(&reading, new);
            if news >= NEWS_NEEDED {
                (settled(Mode::Norm, new, since), Action::New)
            } else {
                (with_new(reading, new, news, since), Action::Normal)
            }
        }
        Event::Ais if reading.ais + 1 >= AIS_NEEDED => (settled(Mode::Ais, value, 0), Action::Ais),
        Event::Ais => (with_ais(reading, since), Action::Normal),
        Event::Bad if reading.bad + 1 >= BAD_NEEDED => (settled(Mode::Lop, value, 0), Action::Ais),
        Event::Bad => (with_bad(reading, since), Action::Normal),
    }
}

// Returns what is kept after a new value in mode Ais or Lop, and the action. The third equal value in a row is taken.
#[tactic(auto, unfolding(crate::specs::Reading::after_in, crate::specs::Reading::action_in, crate::specs::Reading::reading_row_of, crate::specs::Reading::reading_table))]
fn step_at_new(reading: Reading, value: u16) -> (Reading, Action)
    requires bounded { IsBounded reading }
    requires fits { value ≤ 782 }
    ensures next_in_ais { result.0 ≡ after_in mode.Ais (event.New value) reading }
    ensures next_in_lop { result.0 ≡ after_in mode.Lop (event.New value) reading }
    ensures action_in_ais { result.1 ≡ action_in mode.Ais (event.New value) reading }
    ensures action_in_lop { result.1 ≡ action_in mode.Lop (event.New value) reading }
    ensures bounded { IsBounded result.0 }
{
    let news = news_with(&reading, value);
    if news >= NEWS_NEEDED {
        (settled(Mode::Norm, value, 0), Action::New)
    } else {
        (with_new(reading, value, news, 0), Action::Ais)
    }
}

// Returns what is kept after an event in mode Ais, and the action: the table's rows of that mode.
#[tactic(auto, unfolding(crate::specs::Reading::after_in, crate::specs::Reading::action_in, crate::specs::Reading::reading_row_of, crate::specs::Reading::reading_table))]
fn step_in_ais(reading: Reading, event: Event) -> (Reading, Action)
    requires bounded { IsBounded reading }
    requires fits { event_value event ≤ 782 }
    ensures next { result.0 ≡ after_in mode.Ais event reading }
    ensures action { result.1 ≡ action_in mode.Ais event reading }
    ensures bounded { IsBounded result.0 }
{
    let value = reading.value;
    match event {
        Event::Ais => (settled(Mode::Ais, value, 0), Action::Ais),
        Event::Ndf(new) => (settled(Mode::Norm, new, 0), Action::New),
        Event::New(new) => step_at_new(reading, new),
        Event::Bad if reading.bad + 1 >= BAD_NEEDED => (settled(Mode::Lop, value, 0), Action::Ais),
        Event::Bad => (with_bad(reading, 0), Action::Ais),
        Event::Same | Event::Up | Event::Down => (reading, Action::Ais),
    }
}

// Returns what is kept after an event in mode Lop, and the action: the table's rows of that mode.
#[tactic(auto, unfolding(crate::specs::Reading::after_in, crate::specs::Reading::action_in, crate::specs::Reading::reading_row_of, crate::specs::Reading::reading_table))]
fn step_in_lop(reading: Reading, event: Event) -> (Reading, Action)
    requires bounded { IsBounded reading }
    requires fits { event_value event ≤ 782 }
    ensures next { result.0 ≡ after_in mode.Lop event reading }
    ensures action { result.1 ≡ action_in mode.Lop event reading }
    ensures bounded { IsBounded result.0 }
{
    let value = reading.value;
    match event {
        Event::Ais if reading.ais + 1 >= AIS_NEEDED => (settled(Mode::Ais, value, 0), Action::Ais),
        Event::Ais => (with_ais(reading, 0), Action::Ais),
        Event::New(new) => step_at_new(reading, new),
        Event::Ndf(_) | Event::Bad => (settled(Mode::Lop, value, 0), Action::Ais),
        Event::Same | Event::Up | Event::Down => (reading, Action::Ais),
    }
}

// Returns what is kept after an event, and the action.
#[tactic(auto, unfolding(crate::specs::Reading::after_event, crate::specs::Reading::action_on_event))]
pub fn step_at(reading: Reading, event: Event) -> (Reading, Action)
    requires bounded { IsBounded reading }
    requires fits { event_value event ≤ 782 }
    ensures next { result.0 ≡ after_event reading event }
    ensures action { result.1 ≡ action_on_event reading event }
    ensures bounded { IsBounded result.0 }
{
    match reading.mode {
        Mode::Norm => step_in_norm(reading, event),
        Mode::Ais => step_in_ais(reading, event),
        Mode::Lop => step_in_lop(reading, event),
    }
}

// Returns whether two modes are the same.
fn same_mode(left: Mode, right: Mode) -> bool
    ensures { result ≡ same_mode left right }
{
    match (left, right) {
        (Mode::Norm, Mode::Norm) | (Mode::Ais, Mode::Ais) | (Mode::Lop, Mode::Lop) => true,
        _ => false,
    }
}

// Returns whether two interpreters keep equal readings.
#[tactic(auto, unfolding(crate::specs::Reading::same_reading))]
pub fn same_reading(left: &Reading, right: &Reading) -> bool
    ensures { result ≡ same_reading left.now right.now }
{
    same_mode(left.mode, right.mode)
        && left.value == right.value
        && left.ais == right.ais
        && left.bad == right.bad
        && left.candidate == right.candidate
        && left.news == right.news
        && left.since == right.since
}
