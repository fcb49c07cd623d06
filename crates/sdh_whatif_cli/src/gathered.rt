//! The failures of a case, gathered one by one.
ghost use Rattle.std.specs.Prelude.{◌≡◌, ◌+◌, ◌<◌, ◌≤◌, ◌∷◌, ◌++◌, [], length};
ghost use Rattle.sdh_whatif_cli.specs.Cases.{severity, of_severity, worst_last};

use sdh_ringmap::Pos;
use sdh_verdicts::Failure;
use std::marker::Model;

/// The failures of a case, one after the other: up to 48. No memory is taken for them.
#[derive(Drop)]
pub struct Gathered {
    list: [Failure; 48],
    many: usize,
}

impl Model for Gathered {
    ghost use Rattle.std.specs.Prelude.{◌≤◌, List, take};
    ghost use Rattle.sdh_verdicts.specs.declared.failure.Failure.{Failure};

    ghost Value = { List Failure };

    ghost view = { λ g. take g.many g.list };

    ghost invariant = { λ g. g.many ≤ 48 };
}

impl Gathered {
    /// Returns no failures.
    pub fn new() -> Gathered
        ensures { result ≡ [] }
    {
        Gathered {
            list: [Failure::Node(Pos(0)); 48],
            many: 0,
        }
    }

    /// Appends a failure.
    pub fn push(&mut self, failure: Failure)
        requires { length self.old < 48 }
        ensures { self.new ≡ self.old ++ failure ∷ [] }
    {
        self.list[self.many] = failure;
        self.many += 1;
    }

    /// Returns the failures so far.
    pub fn as_slice(&self) -> &[Failure]
        ensures { result.now ≡ self.now }
    {
        &self.list[..self.many]
    }
}

// Returns how severe a failure is beside others about the same fibre or side.
fn severity(failure: Failure) -> u8
    ensures { result ≡ severity failure }
{
    match failure {
        Failure::Degraded(..) => 0,
        Failure::Cut(..) | Failure::Span(_) | Failure::Node(_) | Failure::Manual(..) => 1,
        Failure::Forced(..) => 2,
    }
}

// Appends those of some failures that are so severe.
fn push_severe(case: &mut Gathered, failures: &[Failure], grade: u8)
    requires room { length case.old + length (of_severity grade failures.now) ≤ 48 }
    ensures { case.new ≡ case.old ++ of_severity grade failures.now }
{
    for failure in failures {
        if severity(*failure) == grade {
            case.push(*failure);
        }
    }
}

/// Returns failures in an order in which no worse one is followed by a lesser one about the same fibre or side.
pub fn worst_last(failures: &[Failure]) -> Gathered
    requires few { length failures.now ≤ 48 }
    ensures { result ≡ worst_last failures.now }
{
    let mut case = Gathered::new();
    push_severe(&mut case, failures, 0);
    push_severe(&mut case, failures, 1);
    push_severe(&mut case, failures, 2);
    case
}
