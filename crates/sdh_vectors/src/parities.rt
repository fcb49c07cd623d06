//! Parities and scrambling bytes that are known from outside.
ghost use Rattle.std.specs.Prelude.{◌≡◌, ◌*◌, ◌<◌, ◌≤◌, IfOk, vec_len, length};

use sdh_parity::{Bip8, BipSection, Rate9, bip_section, bip8, scramble, violations};
use std::alloc::{AllocError, Global};
use std::test::Fail;

// Some bytes, and their parity.
const PARITIES: &[(&[u8], u8)] = &[(&[], 0), (&[0xF6, 0x28], 0xDE)];

// Two lists of bytes, and how many of their bits differ.
const DIFFERENT: &[(&[u8], &[u8], u32)] = &[
    (&[0xF6], &[0x28], 6),
    (&[0x80, 0, 0xFF], &[0, 0, 0xFE], 2),
];

#[test]
fn parities_of_bytes(rt: HostRuntime) {
    for (bytes, parity) in PARITIES {
        assert!(rt; bip8(bytes) == *parity, "{bytes:?}");
    }
    for (sent, found, count) in DIFFERENT {
        assert!(rt;
            sent.len() == found.len() && sent.len() < 9 && violations(sent, found) == *count
        );
    }
}

fn frame(alloc: Global, n: usize) -> Result<Vec<u8>, AllocError>
    requires { n ≤ 16 }
    ensures { IfOk result (λ v. vec_len v ≡ 2430 * n) }
{
    vec![in alloc; 0; 2430 * n]
}

// The bytes of a frame of zeros from the first that is scrambled on, behind the first 9N bytes of row 1.
fn scrambled(alloc: Global, n: usize) -> Result<Vec<u8>, AllocError>
    requires { n ≤ 16 }
    ensures { IfOk result (λ v. vec_len v ≡ 2430 * n) }
{
    let mut bytes = frame(alloc, n)?;
    scramble(Rate9(9 * n), bytes.as_mut_slice());
    Ok(bytes)
}

// The sequence starts so, and repeats after 127 bytes.
const SEQUENCE: [u8; 8] = [0xFE, 0x04, 0x18, 0x51, 0xE4, 0x59, 0xD4, 0xFA];

#[test]
fn the_sequence(rt: HostRuntime) -> Result<(), Fail> {
    let four = scrambled(rt.alloc(), 4)?;
    assert!(rt; four[35] == 0 && four[36 + 127] == 0xFE);
    assert!(rt; &four.as_slice()[36..44] == SEQUENCE.as_slice());
    let sixteen = scrambled(rt.alloc(), 16)?;
    assert!(rt; sixteen[143] == 0 && &sixteen.as_slice()[144..152] == SEQUENCE.as_slice());
    Ok(())
}

// The first 9N columns of rows 1 to 3 are left out: of STM-4 the bytes 0 to 35, 1080 to 1115 and 2160 to 2195. Of the
// bytes that count, those of the first row start at lane 0, as do those of the other rows.
fn of_four(four: &mut [u8]) -> [u8; 12]
    requires { length four.old ≡ 9720 }
{
    let mut out = [0xFF; 12];
    four[0] = 0x01;
    four[1115] = 0x02;
    four[36] = 0x10;
    four[1116 + 13] = 0x20;
    four[9719] = 0x40;
    bip_section(4, four, &mut out);
    out
}

fn of_sixteen(sixteen: &mut [u8]) -> [u8; 48]
    requires { length sixteen.old ≡ 38880 }
{
    let mut wide = [0xFF; 48];
    sixteen[143] = 0x01;
    sixteen[144 + 47] = 0x10;
    sixteen[12960 + 48] = 0x20;
    bip_section(16, sixteen, &mut wide);
    wide
}

#[test]
fn section_parities(rt: HostRuntime) -> Result<(), Fail> {
    let mut four = frame(rt.alloc(), 4)?;
    let lanes = of_four(four.as_mut_slice());
    assert!(rt; lanes == [0x10, 0x20, 0, 0, 0, 0, 0, 0, 0, 0, 0, 0x40]);
    let mut sixteen = frame(rt.alloc(), 16)?;
    let wide = of_sixteen(sixteen.as_mut_slice());
    assert!(rt; wide[0] == 0x20 && wide[46] == 0 && wide[47] == 0x10);
    Ok(())
}

// The value of byte i of a frame that is cut.
fn mixed(i: usize) -> u8
    requires { i < 38880 }
{
    (i * 7 % 251) as u8
}

// An STM-16 frame of mixed bytes.
fn mixed_frame(alloc: Global) -> Result<Vec<u8>, AllocError>
    ensures { IfOk result (λ v. vec_len v ≡ 38880) }
{
    let mut bytes = frame(alloc, 16)?;
    for i in 0..38880 {
        bytes[i] = mixed(i);
    }
    Ok(bytes)
}

// Both parities of two pieces, one after the other.
fn of_pieces(bytes: &[u8], cut: usize, wide: &mut [u8]) -> u8
    requires bytes { cut ≤ length bytes.now }
    requires wide { length wide.old ≡ 48 }
{
    let (first, second) = bytes.split_at(cut);
    let mut sum = Bip8::new();
    sum.add(first);
    sum.add(second);
    let mut sums = BipSection::new(16);
    sums.add(first);
    sums.add(second);
    sums.write_value(wide);
    sum.value()
}

// However a frame is cut, the parities are those of its bytes, added one by one.
#[test]
fn a_frame_cut_after_each_of_its_first_bytes(rt: HostRuntime) -> Result<(), Fail> {
    let bytes = mixed_frame(rt.alloc())?;
    let mut parity = 0;
    let mut lanes = [0; 48];
    for i in 0..38880 {
        parity ^= mixed(i);
        lanes[i % 48] ^= mixed(i);
    }
    for cut in 0..201 {
        let mut wide = [0xFF; 48];
        assert_eq!(rt;
            of_pieces(bytes.as_slice(), cut, &mut wide),
            parity,
            "{cut}"
        );
        assert_eq!(rt; wide, lanes, "{cut}");
    }
    Ok(())
}
