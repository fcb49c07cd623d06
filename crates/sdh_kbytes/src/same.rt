//! Whether two words are the same, or agree.
ghost use Rattle.std.specs.Prelude.{◌≡◌, ◌↔◌, ◌==◌, IsTrue};
ghost use Rattle.sdh_kbytes.specs.Same.{same_code, same_word, agrees, same_heard};
ghost use Rattle.sdh_kbytes.specs.KBytes.{path_number};

use crate::{Code, K, Path};

/// Returns whether two codes are the same.
pub fn same_code(left: Code, right: Code) -> bool
    ensures { result ≡ same_code left right }
{
    left.number() == right.number()
}

fn is_word(left: K, right: K) -> bool
    ensures { IsTrue result ↔ (left ≡ right) }
{
    left == right
}

/// Returns whether two words are the same in all parts.
pub fn same_word(left: K, right: K) -> bool
    ensures same { result ≡ same_word left right }
    ensures tells { IsTrue result ↔ (left ≡ right) }
{
    is_word(left, right)
}

fn is_path(left: Path, right: Path) -> bool
    ensures { result ≡ (path_number left == path_number right) }
{
    match (left, right) {
        (Path::Short, Path::Short) | (Path::Long, Path::Long) => true,
        (Path::Short, Path::Long) | (Path::Long, Path::Short) => false,
    }
}

/// Returns whether two words agree: code, destination, source and path are the same, whatever their marks.
#[tactic(auto, unfolding(crate::specs::Same::agrees))]
pub fn agrees(left: K, right: K) -> bool
    ensures { result ≡ agrees left right }
{
    same_code(left.code, right.code)
        && left.to == right.to
        && left.from == right.from
        && is_path(left.path, right.path)
}

/// Returns whether the same was heard twice: the same word, or no word.
pub fn same_heard(left: Option<K>, right: Option<K>) -> bool
    ensures { result ≡ same_heard left right }
{
    match (left, right) {
        (Some(left), Some(right)) => same_word(left, right),
        (None, None) => true,
        (Some(_), None) | (None, Some(_)) => false,
    }
}
