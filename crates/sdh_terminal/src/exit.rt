//! Where the frames of a node are scrambled to.
ghost use Rattle.std.specs.Prelude.{◌≡◌, Some};
ghost use Rattle.sdh_ringmap.specs.Rates.{n_of};
ghost use Rattle.sdh_ringmap.specs.Places.{opposite};
ghost use Rattle.sdh_frame.specs.Sizes.{Frame};
ghost use Rattle.sdh_overhead.specs.Sections.{holding, clear_frame, line_frame, parities_of};

use sdh_frame::FrameBuf;
use sdh_overhead::{Section, write_section};
use sdh_ringmap::Side;

/// Where the frames of both sides of a node are scrambled to when they leave: in place, in the buffers in which they
/// were put together, or to other bytes.
pub trait Exit {
    ghost use Rattle.sdh_ringmap.specs.declared.terms.Rate.{Rate};
    ghost use Rattle.sdh_ringmap.specs.declared.Side.{Side};
    ghost use Rattle.sdh_frame.specs.Sizes.{Frame};

    /// Frames of this rate have room.
    ghost Fits: { Rate → Self → Type 0 };

    /// The frame that leaves on a side, by what the side's buffer holds.
    ghost sent: { Side → Self → Frame → Frame };

    /// Sets all section overhead of the frame that is in the buffer of a side, as `write_section` does, and scrambles
    /// it to where it leaves. What leaves on the other side stays.
    fn seal(&mut self, side: Side, section: &mut Section, k1: u8, k2: u8, frame: &mut FrameBuf)
        requires rate { frame.old.rate ≡ section.old.rate }
        requires fits { Fits section.old.rate self.old }
        ensures sent { sent side self.new frame.new ≡ record frame.old {
          bytes = line_frame (n_of section.old.rate) section.old.last k1 k2 frame.old.bytes;
        } }
        ensures other { (buffer : Frame) → sent (opposite side) self.new buffer ≡ sent (opposite side) self.old buffer }
        ensures section { section.new ≡ holding section.old.rate (Some (parities_of (n_of section.old.rate)
            (clear_frame (n_of section.old.rate) section.old.last k1 k2 frame.old.bytes) (sent side self.new frame.new).bytes)) }
        ensures rate { frame.new.rate ≡ frame.old.rate }
        ensures fits { Fits section.old.rate self.new };
}

/// Frames are scrambled in place, in the buffers in which they were put together.
#[derive(Drop)]
pub struct InPlace;

impl Exit for InPlace {
    ghost Fits = { λ rate exit. Unit {0} };

    ghost sent = { λ side exit buffer. buffer };

    fn seal(&mut self, side: Side, section: &mut Section, k1: u8, k2: u8, frame: &mut FrameBuf) {
        write_section(section, k1, k2, frame);
    }
}
