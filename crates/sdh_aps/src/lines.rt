//! The line of a node in a round.
ghost use Rattle.std.specs.Prelude.{◌≡◌, ℕ, ◌+◌, ◌^◌, ◌<◌, ◌≤◌, ◌++◌, Some, IfSome, length};
ghost use Rattle.sdh_kbytes.specs.KBytes.{IsSpellable};
ghost use Rattle.sdh_report.specs.Written.{with_part};
ghost use Rattle.sdh_aps.specs.Shown.{HasWords};
ghost use Rattle.sdh_aps.specs.Lines.{code_text, far_text, heard_text, sent_text, heard_and_asked_text, node_place_text, signal_line};

use crate::shown::Shown;
use sdh_kbytes::K;
use sdh_report::Text;
use sdh_ringmap::Code;

/// Room for any line of a node in a round, in bytes.
pub const LINE_MAX: usize = 128;

// Returns the letters of a code.
fn letters(code: Code) -> &'static [u8]
    ensures { result.now ≡ code_text code }
{
    match code {
        Code::Nr => b"nr",
        Code::Rr => b"rr",
        Code::Wtr => b"wtr",
        Code::Ms => b"ms",
        Code::Sd => b"sd",
        Code::Sf => b"sf",
        Code::Fs => b"fs",
    }
}

// Appends the far end.
fn put_far(text: &mut Text, far: Option<u8>)
    requires { length (far_text far) ≤ text.old.room }
    ensures { text.new ≡ with_part text.old (far_text far) }
{
    match far {
        Some(id) => text.put_number(u64::from(id)),
        None => text.put(b"-"),
    }
}

// Appends a word that is heard, or none.
fn put_heard(text: &mut Text, word: Option<K>)
    requires room { length (heard_text word) ≤ text.old.room }
    requires word { IfSome word IsSpellable }
    ensures { text.new ≡ with_part text.old (heard_text word) }
{
    match word {
        Some(word) => text.put_word(word),
        None => text.put(b"- -"),
    }
}

// Appends the state, the far end and the words sent.
fn put_sent(text: &mut Text, shown: &Shown)
    requires room { length (sent_text shown.now) ≤ text.old.room }
    requires words { HasWords shown.now }
    ensures { text.new ≡ with_part text.old (sent_text shown.now) }
{
    text.put(shown.state.letters());
    text.put(b" far ");
    put_far(text, shown.far);
    text.put(b" west ");
    text.put_word(shown.sent.west);
    text.put(b" east ");
    text.put_word(shown.sent.east);
}

// Appends the words heard and the requests.
fn put_heard_and_asked(text: &mut Text, shown: &Shown)
    requires room { length (heard_and_asked_text shown.now) ≤ text.old.room }
    requires words { HasWords shown.now }
    ensures { text.new ≡ with_part text.old (heard_and_asked_text shown.now) }
{
    text.put(b" heard ");
    put_heard(text, shown.heard_west);
    text.put(b" ");
    put_heard(text, shown.heard_east);
    text.put(b" asks ");
    text.put(letters(shown.asks_west));
    text.put(b" ");
    text.put(letters(shown.asks_east));
}

// Appends the round, and the identifier of the node.
fn put_place(text: &mut Text, round: u64, id: u8)
    requires { length (node_place_text round id) ≤ text.old.room }
    ensures { text.new ≡ with_part text.old (node_place_text round id) }
{
    text.put(b"round ");
    text.put_number(round);
    text.put(b" node ");
    text.put_number(u64::from(id));
    text.put(b" ");
}

// Appends the line, where there is room for it.
fn put_line(text: &mut Text, round: u64, id: u8, shown: &Shown)
    requires room { length (signal_line round id shown.now) ≤ text.old.room }
    requires words { HasWords shown.now }
    ensures { text.new ≡ with_part text.old (signal_line round id shown.now) }
{
    put_place(text, round, id);
    put_sent(text, shown);
    put_heard_and_asked(text, shown);
    text.put(b"\n");
}

// Identifiers are held in 8 bits, and rounds in 64.
fn numbers_are_small(round: u64, id: u8)
    ensures round { round < 2 ^ 64 }
    ensures id { id < 2 ^ 8 }
{
    let _ = (round, id);
}

fn far_is_small(far: Option<u8>)
    ensures { (id : ℕ) → far ≡ Some id → id < 2 ^ 8 }
{
    if let Some(id) = far {
        numbers_are_small(0, id);
    }
}

/// Appends the line of the node with identifier `id` in round `round`. It has at most 128 bytes.
pub fn signal_line(text: &mut Text, round: u64, id: u8, shown: &Shown)
    requires room { 128 ≤ text.old.room }
    requires words { HasWords shown.now }
    ensures bytes { text.new.bytes ≡ text.old.bytes ++ signal_line round id shown.now }
    ensures room { text.old.room ≤ text.new.room + 128 }
    ensures kept { text.new.room + length text.new.bytes ≡ text.old.room + length text.old.bytes }
{
    numbers_are_small(round, id);
    far_is_small(shown.far);
    put_line(text, round, id, shown);
}
