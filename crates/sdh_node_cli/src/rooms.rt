//! Room for what is read and written for one record.
ghost use Rattle.std.specs.Prelude.{◌≡◌, IfOk};
ghost use Rattle.sdh_report.specs.Written.{room_in};

use crate::answer::Answer;
use sdh_overhead::Landed;
use sdh_report::Text;
use sdh_ringmap::Rate;
use std::alloc::{AllocError, Global};

/// The most bytes that are read of a line: 64, and one more, which has to be its newline byte.
const LINE_READ: usize = 65;

/// Room for the line of a record, for a frame that lands, and for an answer. Frames are read to where those of the answer
/// will be.
#[derive(Drop)]
pub struct Rooms {
    pub line: Text,
    pub inbox: Landed,
    pub answer: Answer,
    pub ghost line_room: { room_in line ≡ 65 },
    pub ghost same_rate: { answer.frames.rate ≡ inbox.rate },
}

impl Rooms {
    /// Returns room for the line of a record, and for rounds with frames of this rate. It takes all its memory here.
    pub fn try_new(alloc: Global, rate: Rate) -> Result<Rooms, AllocError>
        ensures { IfOk result (λ rooms. rooms.inbox.rate ≡ rate) }
    {
        let line = Text::try_new(alloc, LINE_READ)?;
        let inbox = Landed::try_new(alloc, rate)?;
        let answer = Answer::try_new(alloc, rate)?;
        Ok(Rooms {
            line,
            inbox,
            answer,
        })
    }
}
