//! The destination of a frame that comes out of a fibre.
ghost use Rattle.std.specs.Prelude.{◌≡◌, Some};

use crate::FrameBuf;

/// Room for an arriving frame: a buffer that the frame is copied into, or one that also inspects the bytes while it
/// copies them.
pub trait Landing {
    ghost use Rattle.std.specs.Prelude.{ℕ, List, Option};
    ghost use Rattle.sdh_ringmap.specs.declared.terms.Rate.{Rate};

    /// The rate of the frames that fit.
    ghost rate: { Self → Rate };

    /// The bytes of the last frame that landed, as they arrived, or `None` where they are no longer there.
    ghost landed: { Self → Option (List ℕ) };

    /// Takes a frame in place of the one before.
    fn land(&mut self, frame: &FrameBuf)
        requires { frame.now.rate ≡ rate self.old }
        ensures landed { landed self.new ≡ Some frame.now.bytes }
        ensures rate { rate self.new ≡ rate self.old };
}

impl Landing for FrameBuf {
    ghost rate = { λ f. f.rate };

    ghost landed = { λ f. Some f.bytes };

    fn land(&mut self, frame: &FrameBuf)
        requires { frame.now.rate ≡ self.old.rate }
        ensures landed { Some self.new.bytes ≡ Some frame.now.bytes }
        ensures rate { self.new.rate ≡ self.old.rate }
    {
        self.copy_from(frame);
    }
}
