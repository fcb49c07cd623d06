//! Where all AU-4s of a frame come from, prepared once for all its bytes.
ghost use Rattle.std.specs.Prelude.{◌≡◌, ℕ, ◌<◌, length, slice_index};
ghost use Rattle.std.specs.List.{list_any};
ghost use Rattle.sdh_frame.specs.Sizes.{size_of};
ghost use Rattle.sdh_ringmap.specs.Rates.{n_of};
ghost use Rattle.sdh_interchange.specs.Choosing.{assembled_frame, AreSources, is_passed, is_own};
ghost use Rattle.sdh_interchange.specs.Lanes.{AreLanes};
ghost use Rattle.sdh_interchange.specs.Passes.{IsPass};

use crate::choose::{Source, any_own, any_passed};
use crate::lanes::{Lanes, lanes_of};
use crate::pass::{Inputs, Pass};
use sdh_ringmap::Rate;
use std::fmt;
use std::marker::Model;

/// The sources of the AU-4s of a frame, in the order of their numbers, with what is derived from them for the pass over
/// the frame.
#[derive(Drop)]
pub struct Choice<'a> {
    rate: Rate,
    sources: &'a [Source],
    lanes: Lanes,
    passed: bool,
    owned: bool,
}

impl<'a> Model for Choice<'a> {
    ghost use Rattle.std.specs.Prelude.{◌≡◌};
    ghost use Rattle.std.specs.List.{list_any};
    ghost use Rattle.sdh_ringmap.specs.Rates.{n_of};
    ghost use Rattle.sdh_interchange.specs.Choosing.{AreSources, is_passed, is_own};
    ghost use Rattle.sdh_interchange.specs.Lanes.{AreLanes};
    ghost use Rattle.sdh_interchange.specs.Assembled.{Origins};

    ghost Value = { Origins };

    ghost view = { λ c. record { rate = c.rate; sources = c.sources.now } };

    ghost invariant = { λ c. record {
      sources : AreSources (n_of c.rate) c.sources.now;
      lanes : AreLanes (n_of c.rate) c.sources.now c.lanes;
      passed : c.passed ≡ list_any is_passed c.sources.now;
      owned : c.owned ≡ list_any is_own c.sources.now;
    } };
}

impl<'a> fmt::Debug for Choice<'a> {
    fn fmt<W: fmt::Write>(&self, f: &mut fmt::Formatter<W>) -> fmt::Result {
        write!(f, "Choice({} AU-4s)", self.sources.len())
    }
}

// Returns the lanes, by the code that is compiled for the rate, with N as a constant.
fn lanes_at(rate: Rate, sources: &[Source]) -> Lanes
    requires { AreSources (n_of rate) sources.now }
    ensures { AreLanes (n_of rate) sources.now result }
{
    match rate {
        Rate::Four => lanes_of::<4>(sources),
        Rate::Sixteen => lanes_of::<16>(sources),
    }
}

impl<'a> Choice<'a> {
    /// Returns a choice by which each AU-4 comes from its source. `sources` has N sources, in the order of the numbers
    /// of the AU-4s.
    pub fn new(rate: Rate, sources: &'a [Source]) -> Choice<'a>
        requires { AreSources (n_of rate) sources.now }
        ensures { result ≡ record { rate = rate; sources = sources.now } }
    {
        Choice {
            rate,
            sources,
            lanes: lanes_at(rate, sources),
            passed: any_passed(sources),
            owned: any_own(sources),
        }
    }

    // Returns the pass by this choice over these inputs.
    #[inline(always)]
    fn pass<'b, const N: usize>(&'b self, inputs: &'b Inputs<'b>) -> Pass<'b, N>
        requires rate { n_of self.now.rate ≡ N }
        requires first { length inputs.now.first.now ≡ size_of self.now.rate }
        requires second { length inputs.now.second.now ≡ size_of self.now.rate }
        ensures pass { IsPass N result }
        ensures sources { result.sources.now ≡ self.now.sources }
        ensures inputs { result.inputs.now ≡ inputs.now }
    {
        Pass {
            inputs,
            sources: self.sources,
            lanes: &self.lanes,
            passed: self.passed,
            owned: self.owned,
        }
    }

    // Copies each AU-4 from its source, and leaves all other bytes. It runs the code that is compiled for the rate,
    // with N as a constant.
    pub(crate) fn choose(&self, bytes: &mut [u8], inputs: &Inputs<'_>)
        requires size { length bytes.old ≡ size_of self.now.rate }
        requires first { length inputs.now.first.now ≡ size_of self.now.rate }
        requires second { length inputs.now.second.now ≡ size_of self.now.rate }
        ensures chosen { (i : ℕ) → i < size_of self.now.rate → slice_index bytes.new i ≡ slice_index
            (assembled_frame (n_of self.now.rate) self.now.sources inputs.now.first.now inputs.now.second.now inputs.now.own.now bytes.old) i }
        ensures many { length self.now.sources ≡ n_of self.now.rate }
    {
        match self.rate {
            Rate::Four => {
                let pass = self.pass::<4>(inputs);
                pass.choose(bytes);
            }
            Rate::Sixteen => {
                let pass = self.pass::<16>(inputs);
                pass.choose(bytes);
            }
        }
    }
}
