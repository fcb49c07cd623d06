//! Words, steps of interpreters and of generators, worked by hand from the tables.
use sdh_pointer::{Action, Form, Gen, Interp, Word, read_word, word_of, write_word};

const WORDS: &[(Form, u16, u16)] = &[
    (Form::Normal, 0, 0x6800),
    (Form::Normal, 522, 0x6A0A),
    (Form::Normal, 782, 0x6B0E),
    (Form::Enabled, 0, 0x9800),
    (Form::Up, 0, 0x6AAA),
    (Form::Down, 0, 0x6955),
    (Form::Ais, 0, 0xFFFF),
];

#[test]
fn words(rt: HostRuntime) {
    for (form, value, word) in WORDS {
        assert!(rt;
            *value <= 782 && word_of(*form, *value) == Word(*word),
            "{word:04x}"
        );
    }
    let mut bytes = [0u8; 2];
    write_word(Word(0x6A0A), &mut bytes);
    assert!(rt; bytes == [0x6A, 0x0A] && read_word(&[0x98, 0x01]) == Word(0x9801));
}

// Returns an interpreter that has read these words, each the number of times beside it.
fn after(runs: &[(u16, usize)]) -> Interp {
    let mut interp = Interp::new();
    for (word, count) in runs {
        for _ in 0..*count {
            let _ = interp.step(Word(*word));
        }
    }
    interp
}

// Words that lead an interpreter to Norm with value 0, and then words after which it is ready for a justification.
const NORM: (u16, usize) = (0x9800, 1);

const READY: (u16, usize) = (0x6800, 3);

// What was read before, the word, the answer, the value after it, and whether it moved.
type Read = (&'static [(u16, usize)], u16, Action, u16, bool);

const READ: &[Read] = &[
    // a word of the value it has, and a new data flag
    (&[NORM, READY], 0x6800, Action::Normal, 0, false),
    (&[NORM, READY], 0x9A0A, Action::New, 522, true),
    // Up and Down, and Up too early: a new value, counted once
    (&[NORM, READY], 0x6AAA, Action::Up, 1, true),
    (&[NORM, READY], 0x6955, Action::Down, 782, true),
    (&[NORM, (0x6800, 1)], 0x6AAA, Action::Normal, 0, true),
    // a new value and AIS count at the third word, an invalid one at the eighth
    (&[NORM, READY, (0x6803, 2)], 0x6803, Action::New, 3, true),
    (&[NORM, READY, (0xFFFF, 2)], 0xFFFF, Action::Ais, 0, true),
    (&[NORM, READY, (0, 6)], 0, Action::Normal, 0, true),
    (&[NORM, READY, (0, 7)], 0, Action::Ais, 0, true),
];

#[test]
fn rows_of_the_interpreter(rt: HostRuntime) {
    for (before, word, action, value, moved) in READ {
        let mut interp = after(before);
        let found = (interp.step(Word(*word)), interp.value(), interp.moved());
        assert!(rt;
            found == (*action, *value, *moved),
            "the word {word:04x} after {before:?}"
        );
    }
}

// A stream that starts, justifies once and then has a word that is a new value.
const STREAM: &[(u16, Action, u16)] = &[
    (0x9A0A, Action::New, 522),
    (0x6A0A, Action::Normal, 522),
    (0x6A0A, Action::Normal, 522),
    (0x6A0A, Action::Normal, 522),
    (0x68A0, Action::Up, 523),
    (0x68A1, Action::Normal, 523),
];

#[test]
fn streams(rt: HostRuntime) {
    let mut interp = Interp::new();
    assert!(rt; !interp.moved());
    for (word, action, value) in STREAM {
        let found = (interp.step(Word(*word)), interp.value());
        assert!(rt; found == (*action, *value), "{word:04x}");
    }
    let mut lost = Interp::new();
    for _ in 0..8 {
        assert!(rt; lost.step(Word(0)) == Action::Ais);
    }
}

// In this order: the input, the form and the word of the answer, whether it moved, and the value sent.
type Made = (Action, u16, Form, u16, bool, Option<u16>);

const MADE: &[Made] = &[
    (Action::Ais, 0, Form::Ais, 0xFFFF, false, None),
    (Action::Normal, 522, Form::Enabled, 0x9A0A, true, Some(522)),
    (Action::Normal, 522, Form::Normal, 0x6A0A, false, Some(522)),
    (Action::Up, 523, Form::Up, 0x68A0, true, Some(523)),
    (Action::Down, 522, Form::Down, 0x6B5E, true, Some(522)),
    (Action::Up, 522, Form::Enabled, 0x9A0A, false, Some(522)),
    (Action::Down, 522, Form::Enabled, 0x9A0A, false, Some(522)),
    (Action::New, 700, Form::Enabled, 0x9ABC, true, Some(700)),
    (Action::Ais, 5, Form::Ais, 0xFFFF, true, None),
];

#[test]
fn rows_of_the_generator(rt: HostRuntime) {
    let mut generator = Gen::new();
    assert!(rt; generator.word() == Word(0xFFFF) && !generator.moved());
    for (action, value, form, word, moved, sending) in MADE {
        assert!(rt; *value <= 782);
        let made = generator.step(*action, *value);
        let found = (made, generator.word().0, generator.moved());
        assert!(rt; found == (*form, *word, *moved), "{action:?} {value}");
        assert!(rt; generator.sending() == *sending, "{action:?} {value}");
    }
}
