//! The rows of a frame that is written or read row by row: the scrambler, the parities so far, and what was found in
//! the rows that were read.
ghost use Rattle.std.specs.Prelude.{◌≡◌, ℕ, ◌+◌, ◌*◌, ◌-◌, ◌≤◌, ◌⊎◌, ◌==◌, true, false, List, [], ◌++◌, length, take, drop};
ghost use Rattle.std.specs.Prelude.{if◌then◌else◌};
ghost use Rattle.sdh_basics.specs.Parity.{bip8 as parity_of};
ghost use Rattle.sdh_parity.specs.Pieces.{scrambled_from, after_bytes};
ghost use Rattle.sdh_parity.specs.Violations.{differing_bits, violations_of};
ghost use Rattle.sdh_overhead.specs.Rows.{skipped};

use sdh_parity::{Bip8, BipSection, Rate9, Scrambler, receive_piece, send_piece, violations};

// Returns the number of bytes at the head of a row that B2 does not cover.
fn head_len(n: usize, row: u16) -> usize
    requires { n ≤ 16 }
    ensures { result ≡ skipped n row }
{
    if row <= 3 { 9 * n } else { 0 }
}

/// What is kept of the rows of a frame so far: their number `passed`, the scrambler, and both parities. `line` is the
/// BIP-8 of the bytes on the line, and `clear` is the BIP-24N of the unscrambled bytes that B2 covers. Of a frame that
/// is read, it also keeps whether the frame is framed, K1 and K2, and the numbers of bits in which B1 and B2 differ.
#[derive(Debug, Drop)]
pub struct Rows {
    pub passed: u16,
    pub scrambler: Scrambler,
    pub line: Bip8,
    pub clear: BipSection,
    /// Whether the frame is one that is written, and not one that is read.
    pub written: bool,
    pub framed: bool,
    pub k1: u8,
    pub k2: u8,
    pub b1: u32,
    pub b2: u32,
}

impl Rows {
    /// Returns the state before the first row.
    pub fn new(n: usize) -> Rows
        requires { (n ≡ 4) ⊎ (n ≡ 16) }
        ensures passed { result.passed ≡ 0 }
        ensures scrambler { result.scrambler ≡ record { clear = 9 * n; at = 0 } }
        ensures line { result.line ≡ parity_of [] }
        ensures clear { result.clear ≡ after_bytes n [] }
        ensures rate { result.clear.n ≡ n }
    {
        Rows {
            passed: 0,
            scrambler: Scrambler::new(Rate9(9 * n)),
            line: Bip8::new(),
            clear: BipSection::new(n),
            written: false,
            framed: true,
            k1: 0,
            k2: 0,
            b1: 0,
            b2: 0,
        }
    }

    /// Takes the next row of a sent frame: adds it to B2, scrambles it, and adds it to B1.
    pub fn send(&mut self, n: usize, row: u16, bytes: &mut [u8])
        requires few { n ≤ 16 }
        requires rate { self.old.clear.n ≡ n }
        requires first { 1 ≤ row }
        requires last { row ≤ 9 }
        requires bytes { length bytes.old ≡ 270 * n }
        requires place { self.old.scrambler ≡ record { clear = 9 * n; at = (row - 1) * (270 * n) } }
        ensures passed { self.new.passed ≡ row }
        ensures written { self.new.written ≡ true }
        ensures place { self.new.scrambler ≡ record { clear = 9 * n; at = row * (270 * n) } }
        ensures rate { self.new.clear.n ≡ n }
        ensures bytes { bytes.new ≡ scrambled_from (9 * n) ((row - 1) * (270 * n)) bytes.old }
        ensures line { (before : List ℕ) → self.old.line ≡ parity_of before → self.new.line ≡ parity_of (before ++ bytes.new) }
        ensures clear { (before : List ℕ) → self.old.clear ≡ after_bytes n before
            → self.new.clear ≡ after_bytes n (before ++ drop (skipped n row) bytes.old) }
    {
        let (head, rest) = bytes.split_at_mut(head_len(n, row));
        self.scrambler.apply(head);
        self.line.add(head);
        send_piece(&mut self.clear, &mut self.scrambler, &mut self.line, rest);
        self.passed = row;
        self.written = true;
    }

    /// Takes the next row of a framed frame that is received: adds it to B1, descrambles it, and adds it to B2.
    pub fn receive(&mut self, n: usize, row: u16, bytes: &mut [u8])
        requires few { n ≤ 16 }
        requires rate { self.old.clear.n ≡ n }
        requires first { 1 ≤ row }
        requires last { row ≤ 9 }
        requires bytes { length bytes.old ≡ 270 * n }
        requires place { self.old.scrambler ≡ record { clear = 9 * n; at = (row - 1) * (270 * n) } }
        ensures passed { self.new.passed ≡ row }
        ensures written { self.new.written ≡ false }
        ensures place { self.new.scrambler ≡ record { clear = 9 * n; at = row * (270 * n) } }
        ensures rate { self.new.clear.n ≡ n }
        ensures bytes { bytes.new ≡ scrambled_from (9 * n) ((row - 1) * (270 * n)) bytes.old }
        ensures line { (before : List ℕ) → self.old.line ≡ parity_of before → self.new.line ≡ parity_of (before ++ bytes.old) }
        ensures clear { (before : List ℕ) → self.old.clear ≡ after_bytes n before
            → self.new.clear ≡ after_bytes n (before ++ drop (skipped n row) bytes.new) }
        ensures k1 { self.new.k1 ≡ self.old.k1 }
        ensures k2 { self.new.k2 ≡ self.old.k2 }
        ensures b1 { self.new.b1 ≡ self.old.b1 }
        ensures b2 { self.new.b2 ≡ self.old.b2 }
    {
        let (head, rest) = bytes.split_at_mut(head_len(n, row));
        self.line.add(head);
        self.scrambler.apply(head);
        receive_piece(&mut self.line, &mut self.scrambler, &mut self.clear, rest);
        self.passed = row;
        self.written = false;
    }

    /// Takes the next row of an unframed frame, which stays as it came.
    pub fn pass_over(&mut self, n: usize, row: u16)
        requires few { n ≤ 16 }
        requires first { 1 ≤ row }
        requires last { row ≤ 9 }
        requires place { self.old.scrambler ≡ record { clear = 9 * n; at = (row - 1) * (270 * n) } }
        ensures passed { self.new.passed ≡ row }
        ensures place { self.new.scrambler ≡ record { clear = 9 * n; at = row * (270 * n) } }
        ensures written { self.new.written ≡ false }
        ensures framed { self.new.framed ≡ false }
        ensures clear { self.new.clear ≡ self.old.clear }
    {
        self.scrambler.skip(270 * n);
        self.written = false;
        self.framed = false;
        self.passed = row;
    }
}

/// Returns the BIP-24N of the rows so far, in the first 3N bytes. `n` is N, 4 or 16.
pub fn parity_of_rows(n: usize, clear: &BipSection) -> [u8; 48]
    requires few { n ≤ 16 }
    requires rate { clear.now.n ≡ n }
    ensures { take (3 * n) result ≡ clear.now.sums }
{
    let mut parity = [0; 48];
    clear.write_value(&mut parity[..3 * n]);
    parity
}

/// Returns a K byte as known after a row: `byte` after row 5, which carries it, and `before` after any other row.
pub fn k_after(row: u16, before: u8, byte: u8) -> u8
    ensures { result ≡ (if row == 5 then byte else before) }
{
    if row == 5 { byte } else { before }
}

/// Returns the number of bits in which B1 differs, as known after a row. After row 2, which carries B1, it counts the
/// bits in which `byte` differs from `b1`, or is 0 where no parities are known. After any other row it is `before`.
pub fn b1_after(row: u16, before: u32, known: bool, b1: u8, byte: u8) -> u32
    ensures { result ≡ (if row == 2 then (if known then differing_bits b1 byte else 0) else before) }
{
    if row != 2 {
        return before;
    }
    if known { violations(&[b1], &[byte]) } else { 0 }
}

/// Returns the number of bits in which B2 differs, as known after a row. After row 5, which carries B2, it counts the
/// bits in which `bytes` differ from `b2`, or is 0 where no parities are known. After any other row it is `before`.
pub fn b2_after(row: u16, before: u32, known: bool, b2: &[u8], bytes: &[u8]) -> u32
    requires same_length { length b2.now ≡ length bytes.now }
    requires few { length b2.now ≤ 48 }
    ensures { result ≡ (if row == 5 then (if known then violations_of b2.now bytes.now else 0) else before) }
{
    if row != 5 {
        return before;
    }
    if known { violations(b2, bytes) } else { 0 }
}
