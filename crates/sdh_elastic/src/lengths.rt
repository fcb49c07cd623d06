//! The lengths of the last chunks that a store took in.
ghost use Rattle.std.specs.Prelude.{◌≡◌, ◌≤◌};
ghost use Rattle.sdh_elastic.specs.Lengths.{with_length, keeps_steady};
ghost use Rattle.sdh_elastic.specs.Store.{AreChunks};

/// The fewest bytes that four chunks in a row have together in a steady run.
const FOUR_LEAST: u16 = 9393;

/// The most bytes that four chunks in a row have together in a steady run.
const FOUR_MOST: u16 = 9399;

/// The lengths of the last three chunks, the last one first; fewer where there were fewer.
#[derive(Clone, Copy, Debug, PartialEq, Eq)]
pub enum Lengths {
    Empty,
    One(u16),
    Two(u16, u16),
    Three(u16, u16, u16),
}

impl Lengths {
    /// Returns the lengths of the last three chunks after one more chunk of this length.
    pub(crate) fn with(self, length: u16) -> Lengths
        ensures { result ≡ with_length length self }
    {
        match self {
            Lengths::Empty => Lengths::One(length),
            Lengths::One(last) => Lengths::Two(length, last),
            Lengths::Two(last, before) | Lengths::Three(last, before, _) => {
                Lengths::Three(length, last, before)
            }
        }
    }

    /// Returns whether a run stays steady with one more chunk of this length.
    pub(crate) fn keeps_steady(self, length: u16) -> bool
        requires chunks { AreChunks self }
        requires short { length ≤ 2352 }
        ensures { result ≡ keeps_steady length self }
    {
        match self {
            Lengths::Three(last, before, earlier) => {
                let four = length + last + before + earlier;
                FOUR_LEAST <= four && four <= FOUR_MOST
            }
            _ => true,
        }
    }
}
