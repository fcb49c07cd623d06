//! A text in memory as an output.
ghost use Rattle.std.specs.Prelude.{Some, true, ◌≤◌};
ghost use Rattle.std.proofs.Common.{le_trans};

use crate::text::Text;
use sdh_outside::{Output, WriteFault};
use std::alloc::AllocError;

// A text is kept in memory, in room that was reserved, until it is written whole. No write to it fails.
impl Output for Text {
    ghost written = { λ t. Some t.bytes };

    ghost faults = { λ t. 0 };

    ghost exact = { true };

    ghost Takes = { λ many t. many ≤ t.room };

    fn reserve(&mut self, room: usize) -> Result<(), AllocError> {
        self.make_room(room)
    }

    fn put(&mut self, piece: &[u8]) -> Result<(), WriteFault> {
        Text::put(self, piece);
        Ok(())
    }

    ghost fewer = { λ few many t low takes. le_trans low takes };
}
