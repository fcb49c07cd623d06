//! Putting a frame together from the AU-4s of two other frames and from payloads of a node's own ports.
ghost use Rattle.std.specs.Prelude.{◌≡◌, ℕ, ◌+◌, ◌%◌, ◌<◌, ◌≤◌, [], length, slice_index, slice_index_or};
ghost use Rattle.sdh_frame.specs.Sizes.{size_of};
ghost use Rattle.sdh_ringmap.specs.Rates.{n_of};
ghost use Rattle.sdh_frame.specs.Aus.{with_aus, pointer_byte};
ghost use Rattle.sdh_interchange.specs.Assembled.{assembled};

use crate::choice::Choice;
use crate::own::Payloads;
use crate::pass::Inputs;
use sdh_frame::FrameBuf;

// Sets the pointer bytes of all AU-4s, in the order of their numbers.
fn point_all(frame: &mut FrameBuf, pointers: &[[u8; 9]])
    requires len { length pointers.now ≡ n_of frame.old.rate }
    requires few { n_of frame.old.rate ≤ 16 }
    requires long { length frame.old.bytes ≡ size_of frame.old.rate }
    ensures rate { frame.new.rate ≡ frame.old.rate }
    ensures long { length frame.new.bytes ≡ size_of frame.old.rate }
    ensures pointed { let n = n_of frame.old.rate in (i : ℕ) → i < size_of frame.old.rate → slice_index frame.new.bytes i ≡ pointer_byte n
        (i % n + 1) (slice_index_or pointers.now (i % n) []) i (slice_index frame.old.bytes i) }
{
    for k in 0..pointers.len() {
        frame.put_pointers(k as u16 + 1, &pointers[k]);
    }
}

/// Sets the payload of each AU-4 of a frame to that of its source, and its nine pointer bytes to `pointers`, in the
/// order of the numbers of the AU-4s. Overhead stays.
pub fn assemble(
    frame: &mut FrameBuf,
    choice: &Choice,
    pointers: &[[u8; 9]],
    first: &FrameBuf,
    second: &FrameBuf,
    own: &Payloads,
)
    requires choice { choice.now.rate ≡ frame.old.rate }
    requires pointers { length pointers.now ≡ n_of frame.old.rate }
    requires first { first.now.rate ≡ frame.old.rate }
    requires second { second.now.rate ≡ frame.old.rate }
    ensures { let n = n_of frame.old.rate in frame.new ≡ record frame.old {
      bytes = with_aus n 1 (assembled n first.now.bytes second.now.bytes own.now choice.now.sources pointers.now) frame.old.bytes;
    } }
{
    // Reading the rate gives the prover the frame's invariant.
    let _ = frame.rate();
    let first = first.bytes();
    let second = second.bytes();
    let inputs = Inputs { first, second, own };
    choice.choose(frame.bytes_mut(), &inputs);
    point_all(frame, pointers);
}
