//! Where the AU-4s of a frame come from.
ghost use Rattle.std.specs.Prelude.{◌≡◌};
ghost use Rattle.std.specs.List.{list_any};
ghost use Rattle.sdh_interchange.specs.Choosing.{is_passed, is_own};

/// Where an AU-4 comes from.
#[derive(Clone, Copy, Debug, PartialEq, Eq)]
pub enum Source {
    /// The AU-4 of this number, 1 to N, of the first frame.
    First(u16),
    /// The AU-4 of this number of the second frame.
    Second(u16),
    /// The payload that a node's own port sends. The number has to be that of the AU-4 itself.
    Own(u16),
    /// No source: all bytes of the AU-4 become ones.
    Ones,
}

impl Source {
    fn is_passed(self) -> bool
        ensures { result ≡ is_passed self }
    {
        match self {
            Source::First(_) | Source::Second(_) => true,
            Source::Own(_) | Source::Ones => false,
        }
    }

    fn is_own(self) -> bool
        ensures { result ≡ is_own self }
    {
        match self {
            Source::Own(_) => true,
            Source::First(_) | Source::Second(_) | Source::Ones => false,
        }
    }
}

pub(crate) fn any_passed(sources: &[Source]) -> bool
    ensures { result ≡ list_any is_passed sources.now }
{
    sources.iter().any(|source| source.is_passed())
}

pub(crate) fn any_own(sources: &[Source]) -> bool
    ensures { result ≡ list_any is_own sources.now }
{
    sources.iter().any(|source| source.is_own())
}
