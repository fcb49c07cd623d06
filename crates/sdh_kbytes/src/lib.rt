//! The words of the automatic protection switching channel and their two bytes, K1 and K2, of the multiplex section
//! overhead (ITU-T G.707 clause 9.2). The codes and marks are this project's own tables, after ITU-T G.841.
#![tactic(auto)]

ghost use Rattle.std.specs.Prelude.{◌≡◌, ◌↔◌, ◌≤◌, Some, IfSome};
ghost use Rattle.sdh_kbytes.specs.KBytes.{path_number, mark_number, code_at, mark_at, decoded, Spells, IsUnlisted};

mod same;

pub use same::{agrees, same_code, same_heard, same_word};
pub use sdh_ringmap::Code;

/// Which way round the ring a word goes to its destination.
#[derive(Clone, Copy, Debug, PartialEq, Eq)]
pub enum Path {
    /// Over the one span that the word is about.
    Short,
    /// The other way, over all other spans.
    Long,
}

/// The state that the source of a word reports: the first of `Rdi`, `BridgedSwitched`, `Bridged` and `Idle` that
/// applies.
#[derive(Clone, Copy, Debug, PartialEq, Eq)]
pub enum Mark {
    /// Neither side is switched, or both are.
    Idle,
    /// One side is switched, and its far end (the node that switches towards this one) isn't known.
    Bridged,
    /// One side is switched, and its far end is known.
    BridgedSwitched,
    /// Remote defect indication: the side on which the source sends the word fails.
    Rdi,
    /// Alarm indication of the multiplex section. No node sends it; a side that receives it fails.
    MsAis,
}

/// A word: `from` asks `to` for `code`. Both identifiers are from 0 to 15 in every word that two bytes spell.
#[derive(Clone, Copy, Debug, PartialEq, Eq)]
pub struct K {
    pub code: Code,
    pub to: u8,
    pub from: u8,
    pub path: Path,
    pub mark: Mark,
}

// Returns the code of four bits, if the table has it.
fn code_of(bits: u8) -> Option<Code>
    ensures { result ≡ code_at bits }
{
    Some(match bits {
        0 => Code::Nr,
        1 => Code::Rr,
        5 => Code::Wtr,
        6 => Code::Ms,
        8 => Code::Sd,
        11 => Code::Sf,
        13 => Code::Fs,
        _ => return None,
    })
}

impl Path {
    fn number(self) -> u8
        ensures { result ≡ path_number self }
    {
        match self {
            Path::Short => 0,
            Path::Long => 1,
        }
    }
}

impl Mark {
    fn number(self) -> u8
        ensures { result ≡ mark_number self }
    {
        match self {
            Mark::Idle => 0,
            Mark::Bridged => 1,
            Mark::BridgedSwitched => 2,
            Mark::Rdi => 6,
            Mark::MsAis => 7,
        }
    }

    fn of(bits: u8) -> Option<Mark>
        ensures { result ≡ mark_at bits }
    {
        Some(match bits {
            0 => Mark::Idle,
            1 => Mark::Bridged,
            2 => Mark::BridgedSwitched,
            6 => Mark::Rdi,
            7 => Mark::MsAis,
            _ => return None,
        })
    }
}

/// Returns the bytes K1 and K2 of a word.
#[tactic(auto, using(crate::proofs::Tables::decoded_spelled))]
pub fn encode(k: K) -> (u8, u8)
    requires to { k.to ≤ 15 }
    requires from { k.from ≤ 15 }
    ensures bytes { Spells k result.0 result.1 }
    ensures decodes { decoded result.0 result.1 ≡ Some k }
{
    (
        16 * k.code.number() + k.to,
        16 * k.from + 8 * k.path.number() + k.mark.number(),
    )
}

/// Returns the word that the bytes K1 and K2 spell; None at a code or a mark that the tables don't list.
pub fn decode(k1: u8, k2: u8) -> Option<K>
    ensures word { result ≡ decoded k1 k2 }
    ensures encodes { IfSome result (λ k. Spells k k1 k2) }
    ensures unlisted { (result ≡ None) ↔ IsUnlisted k1 k2 }
{
    Some(K {
        code: code_of(k1 >> 4)?,
        to: k1 & 15,
        from: k2 >> 4,
        path: if (k2 >> 3) & 1 == 0 {
            Path::Short
        } else {
            Path::Long
        },
        mark: Mark::of(k2 & 7)?,
    })
}
