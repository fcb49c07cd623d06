//! The program's word: digits that give the lengths of chunks.
ghost use Rattle.std.specs.Prelude.{◌≡◌, ◌↔◌, [], ◌∷◌, IsTrue, MatchOption};
ghost use Rattle.sdh_elastic.specs.Turns.{IsChunk};
ghost use Rattle.sdh_shell.specs.Calls.{words_of};
ghost use Rattle.sdh_retime_cli.specs.Digits.{IsDigits, AreDigits, size_at};

/// The most digits of a word.
const DIGITS_MAX: usize = 64;

/// The fewest bytes of a chunk.
pub const CHUNK_MIN: usize = 2346;

// Returns whether a word is 1 to 64 digits from 0 to 6.
fn is_digits(word: &[u8]) -> bool
    ensures { IsTrue result ↔ IsDigits word.now }
{
    if word.is_empty() || word.len() > DIGITS_MAX {
        return false;
    }
    word.iter().all(|digit| b'0' <= *digit && *digit <= b'6')
}

/// Returns the digits, or `None` where the words aren't one word of 1 to 64 digits from 0 to 6.
pub fn digits_of(words: &[String]) -> Option<&[u8]>
    ensures { MatchOption result (¬ AreDigits (words_of words.now))
        (λ digits. (words_of words.now ≡ digits.now ∷ []) × IsDigits digits.now) }
{
    match words {
        [word] if is_digits(word.as_bytes()) => Some(word.as_bytes()),
        _ => None,
    }
}

/// Returns the number of bytes of a chunk, 2346 to 2352, by the chunk's number, counted from 0.
pub fn size_at(digits: &[u8], number: usize) -> usize
    requires { IsDigits digits.now }
    ensures size { result ≡ size_at digits.now number }
    ensures chunk { IsChunk result }
{
    CHUNK_MIN + usize::from(digits[number % digits.len()] - b'0')
}
