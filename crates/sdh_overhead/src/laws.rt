//! Laws of sections. The functions change nothing: their contracts are the laws.
ghost use Rattle.std.specs.Prelude.{◌≡◌, ◌⊎◌, None};
ghost use Rattle.sdh_overhead.specs.Laws.{ComesBack, FieldsAreFound};

use crate::Section;
use sdh_frame::FrameBuf;

/// A receiving section that has the sending section's parities, or no parities, reads back what was written: the K
/// bytes, the pointers and the payload. It finds no violation, and both sections then hold the same parities.
pub fn what_is_written_is_read(
    sending: &Section,
    receiving: &Section,
    k1: u8,
    k2: u8,
    frame: &FrameBuf,
)
    requires rate { frame.now.rate ≡ sending.now.rate }
    requires held { (receiving.now.last ≡ sending.now.last) ⊎ (receiving.now.last ≡ None) }
    ensures { ComesBack sending.now.rate sending.now.last receiving.now.last k1 k2 frame.now.bytes }
{
    sending.parities_are_whole();
    prove!(frame.bytes().len() == 2430 * frame.rate().n());
}

/// `read_section` reads exactly the bytes of the fields A1, A2, B1, B2, K1 and K2, at their rows and columns. A frame
/// is framed exactly where each byte A1 is F6 and each byte A2 is 28 (hexadecimal).
pub fn fields_are_found()
    ensures { FieldsAreFound }
{}
