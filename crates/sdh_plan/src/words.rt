//! The words of a step, and the numbers among them.
ghost use Rattle.std.specs.Prelude.{◌≡◌, ◌<◌, ◌≤◌, ◌^◌, ◌⊎◌, ◌∷◌, [], true, false, IfSome, IfNone, Some, None, map, length, take, position};
ghost use Rattle.std.specs.Prelude.{◌==◌};
ghost use Rattle.std.specs.Option.{option_map_or};
ghost use Rattle.std.specs.List.{list_all, list_any};
ghost use Rattle.std.specs.Str.{bytes_eq};
ghost use Rattle.sdh_plan.specs.Words.{words, is_empty, is_digit, is_led, decimal_from, numeral_in};

use arrayvec::ArrayVec;

/// Returns whether the word is this text.
pub fn is_word(word: &[u8], text: &str) -> bool
    ensures { result ≡ bytes_eq word.now text.now }
{
    word == text.as_bytes()
}

// Returns the place of the first space.
fn first_space(text: &[u8]) -> Option<usize>
    ensures place { result ≡ position (λ byte. byte == 32) text.now }
    ensures within { IfSome result (λ at. at < length text.now) }
{
    text.iter().position(|byte| *byte == b' ')
}

// Returns the text up to its first space, and the text after that space, if there is one.
fn cut(text: &[u8]) -> (&[u8], Option<&[u8]>)
    ensures cut { words text.now ≡ result.0.now ∷ option_map_or (λ rest. words rest.now) result.1 [] }
    ensures shorter { IfSome result.1 (λ rest. length rest.now < length text.now) }
{
    match first_space(text) {
        Some(at) => (&text[..at], Some(&text[at + 1..])),
        None => (text, None),
    }
}

/// Returns the first six words of a text, or `None` where one of its words is empty.
pub fn words_of(text: &[u8]) -> Option<ArrayVec<&[u8], 6>>
    ensures words { IfSome result (λ kept. map (λ word. word.now) kept.items ≡ take 6 (words text.now)) }
    ensures whole { IfSome result (λ _. list_any is_empty (words text.now) ≡ false) }
    ensures empty { IfNone result (list_any is_empty (words text.now) ≡ true) }
{
    let mut words = ArrayVec::new();
    let mut rest = Some(text);
    while let Some(text) = rest {
        let (word, behind) = cut(text);
        if word.is_empty() {
            return None;
        }
        if words.len() < 6 {
            words.push(word);
        }
        rest = behind;
    }
    Some(words)
}

// Returns the number that these bytes are as decimal digits, or `None` where one of them is no digit. It may be `None`
// too for a number that isn't below 2 ^ 32.
fn decimal(digits: &[u8]) -> Option<u64>
    ensures number { IfSome result (λ number. (list_all is_digit digits.now ≡ true) × (number ≡ decimal_from 0 digits.now)) }
    ensures none { IfNone result ((list_all is_digit digits.now ≡ false) ⊎ (2 ^ 32 ≤ decimal_from 0 digits.now)) }
{
    let mut number: u64 = 0;
    for digit in digits {
        if !digit.is_ascii_digit() {
            return None;
        }
        if number > 429_496_729 {
            return None;
        }
        number = 10 * number + u64::from(*digit - b'0');
    }
    Some(number)
}

// Returns whether the word begins as a number does: with no `0` before other bytes.
fn is_led(word: &[u8]) -> bool
    ensures { result ≡ is_led word.now }
{
    match word {
        [] => false,
        [_] => true,
        [first, ..] => *first != b'0',
    }
}

/// Returns the number that the word is, where it is one from `low` to `high`: decimal digits that don't begin with `0`,
/// or `0` alone.
#[tactic(auto, unfolding(crate::specs::Words::numeral_in))]
pub fn numeral_in(word: &[u8], low: u32, high: u32) -> Option<u32>
    ensures number { result ≡ numeral_in low high word.now }
    ensures range { IfSome result (λ number. (low ≤ number) × (number ≤ high)) }
{
    if !is_led(word) {
        return None;
    }
    match decimal(word) {
        Some(number) if u64::from(low) <= number && number <= u64::from(high) => Some(
            number as u32,
        ),
        _ => None,
    }
}
