//! Frames that are descrambled while they land, with their parities computed in the same pass. A section then reads
//! them without going over their bytes again.
ghost use Rattle.std.specs.Prelude.{◌≡◌, ◌≢◌, ℕ, ◌*◌, List, Some, None, IfOk, length, replicate};
ghost use Rattle.sdh_frame.specs.Sizes.{size_of};
ghost use Rattle.sdh_ringmap.specs.Rates.{n_of};
ghost use Rattle.sdh_parity.specs.Scrambling.{scrambled};
ghost use Rattle.sdh_overhead.specs.Landing.{emptied};
ghost use Rattle.sdh_overhead.specs.Sections.{holding, received_in, kept_after};

use crate::Received;
use crate::section::{Section, is_framed};
use sdh_frame::{FrameBuf, Landing};
use sdh_parity::open_frame;
use sdh_ringmap::Rate;
use std::alloc::{AllocError, Global};
use std::marker::Model;

/// Room for an arriving frame, which is descrambled while it lands. Its parities are kept with it: BIP-8 of its bytes
/// as they arrived, and BIP-24N of the descrambled ones that B2 covers.
#[derive(Debug, Drop)]
pub struct Landed {
    frame: FrameBuf,
    here: bool,
    line: u8,
    clear: [u8; 48],
}

impl Model for Landed {
    ghost use Rattle.std.specs.Prelude.{◌≡◌, length};
    ghost use Rattle.sdh_frame.specs.Sizes.{size_of};
    ghost use Rattle.sdh_ringmap.specs.Rates.{n_of};
    ghost use Rattle.sdh_overhead.specs.Landing.{LandedFrame, landed_of, AreSummed};

    ghost Value = { LandedFrame };

    ghost view = { λ a. record { rate = a.frame.rate; landed = landed_of (n_of a.frame.rate) a.here a.frame.bytes; buffer = a.frame.bytes } };

    ghost invariant = { λ a. record {
      wide : length a.clear ≡ 48;
      size : length a.frame.bytes ≡ size_of a.frame.rate;
      summed : AreSummed (n_of a.frame.rate) a.here a.line a.clear a.frame.bytes;
    } };
}

impl Landed {
    /// Returns room for a frame of this rate, in which nothing has landed. All memory is taken here: frames that land
    /// take none.
    pub fn try_new(alloc: Global, rate: Rate) -> Result<Landed, AllocError>
        ensures { IfOk result (λ l. l ≡ emptied rate (replicate (size_of rate) 0)) }
    {
        let frame = FrameBuf::try_new(alloc, rate)?;
        prove!(frame.bytes().len() == 2430 * rate.n());
        Ok(Landed {
            frame,
            here: false,
            line: 0,
            clear: [0; 48],
        })
    }

    /// Exchanges the buffer for another frame of the same rate. Where a frame has landed, `frame` gets it, descrambled.
    /// Afterwards the room counts as empty.
    pub fn swap_frame(&mut self, frame: &mut FrameBuf)
        requires { frame.old.rate ≡ self.old.rate }
        ensures rate { frame.new.rate ≡ frame.old.rate }
        ensures buffer { frame.new ≡ record { rate = self.old.rate; bytes = self.old.buffer } }
        ensures frame { (bytes : List ℕ) → self.old.landed ≡ Some bytes
            → frame.new ≡ record { rate = self.old.rate; bytes = scrambled (9 * n_of self.old.rate) bytes } }
        ensures none { self.new ≡ emptied self.old.rate frame.old.bytes }
    {
        prove!(frame.bytes().len() == 2430 * frame.rate().n());
        std::mem::swap(&mut self.frame, frame);
        self.here = false;
    }

    /// Takes the bytes of a frame in place of the frame before. There are as many bytes as the rate's frames have.
    pub fn land_bytes(&mut self, bytes: &[u8])
        requires { length bytes.now ≡ size_of self.old.rate }
        ensures landed { self.new.landed ≡ Some bytes.now }
        ensures rate { self.new.rate ≡ self.old.rate }
        ensures buffer { self.new.buffer ≡ scrambled (9 * n_of self.old.rate) bytes.now }
    {
        let n = self.frame.rate().n();
        let parities = open_frame(n, bytes, self.frame.bytes_mut());
        let clear = parities.clear;
        self.line = parities.line;
        self.clear = clear;
        self.here = true;
    }

    /// Forgets the frame that landed, if there is one. The buffer stays.
    pub fn forget(&mut self)
        ensures { self.new ≡ emptied self.old.rate self.old.buffer }
    {
        self.here = false;
    }
}

impl Landing for Landed {
    ghost rate = { λ l. l.rate };

    ghost landed = { λ l. l.landed };

    fn land(&mut self, frame: &FrameBuf)
        requires { frame.now.rate ≡ self.old.rate }
        ensures landed { self.new.landed ≡ Some frame.now.bytes }
        ensures rate { self.new.rate ≡ self.old.rate }

        ensures buffer { self.new.buffer ≡ scrambled (9 * n_of self.old.rate) frame.now.bytes }
    {
        self.land_bytes(frame.bytes());
    }
}

/// Returns what the overhead of the frame that landed says, against the parities of the frame read before. It does not
/// go over all bytes of the frame again. Afterwards the section keeps the parities of this frame, or none where it is
/// unframed, and forgets the rows of a frame that is under way.
pub fn read_landed(section: &mut Section, landed: &Landed) -> Received
    requires rate { landed.now.rate ≡ section.old.rate }
    requires landed { landed.now.landed ≢ None }
    ensures result { (bytes : List ℕ) → landed.now.landed ≡ Some bytes
        → result ≡ received_in (n_of section.old.rate) section.old.last bytes }
    ensures section { (bytes : List ℕ) → landed.now.landed ≡ Some bytes
        → section.new ≡ holding section.old.rate (kept_after (n_of section.old.rate) bytes) }
{
    let frame = &landed.frame;
    if !is_framed(frame.rate().n(), frame.bytes()) {
        section.forget();
        return Received::Unframed;
    }
    let received = section.find(frame.bytes());
    section.keep(landed.line, landed.clear);
    received
}
