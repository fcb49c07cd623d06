//! K words and their bytes.
ghost use Rattle.std.specs.Prelude.{◌≤◌};

use sdh_kbytes::{K, Mark, Path, decode, encode};
use sdh_ringmap::Code;

// Returns whether a word and two bytes belong together, both ways.
fn are_one(k: K, k1: u8, k2: u8) -> bool
    requires to { k.to ≤ 15 }
    requires from { k.from ≤ 15 }
{
    encode(k) == (k1, k2) && decode(k1, k2) == Some(k)
}

const NUMBERS: &[(Code, u8)] = &[
    (Code::Nr, 0),
    (Code::Rr, 1),
    (Code::Wtr, 5),
    (Code::Ms, 6),
    (Code::Sd, 8),
    (Code::Sf, 11),
    (Code::Fs, 13),
];

#[test]
fn codes_have_their_numbers(rt: HostRuntime) {
    for (code, number) in NUMBERS {
        assert!(rt; code.number() == *number, "{number}");
    }
}

// A word by its parts, and its two bytes.
const WORDS: &[(Code, u8, u8, Path, Mark, u8, u8)] = &[
    (Code::Sf, 3, 2, Path::Short, Mark::Rdi, 0xb3, 0x26),
    (
        Code::Sf,
        3,
        2,
        Path::Long,
        Mark::BridgedSwitched,
        0xb3,
        0x2a,
    ),
    (
        Code::Rr,
        3,
        2,
        Path::Short,
        Mark::BridgedSwitched,
        0x13,
        0x22,
    ),
    (Code::Wtr, 2, 3, Path::Long, Mark::Bridged, 0x52, 0x39),
    (Code::Nr, 15, 0, Path::Short, Mark::Idle, 0x0f, 0x00),
    (Code::Fs, 0, 15, Path::Long, Mark::MsAis, 0xd0, 0xff),
];

#[test]
fn words_and_their_bytes(rt: HostRuntime) {
    for (code, to, from, path, mark, k1, k2) in WORDS {
        let word = K {
            code: *code,
            to: *to,
            from: *from,
            path: *path,
            mark: *mark,
        };
        assert!(rt;
            *to <= 15 && *from <= 15 && are_one(word, *k1, *k2),
            "{k1:02x} {k2:02x}"
        );
    }
}

const UNLISTED: &[(u8, u8)] = &[(0x42, 0x10), (0x02, 0x13), (0xff, 0xff)];

#[test]
fn unlisted_codes_and_marks(rt: HostRuntime) {
    for (k1, k2) in UNLISTED {
        assert!(rt; decode(*k1, *k2).is_none(), "{k1:02x} {k2:02x}");
    }
}
