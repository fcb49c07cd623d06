//! What a program that runs plans is: what its words ask for, what it makes of a plan, what it reports of the steps of a
//! script to an output, and how it ends.
ghost use Rattle.std.specs.Prelude.{ℕ, ◌≡◌, ◌≤◌, ◌++◌, IfOk, length, List, option_map};
ghost use Rattle.sdh_plan.specs.Planned.{Planned};
ghost use Rattle.sdh_status.specs.declared.Status.{Status};
ghost use Rattle.sdh_shell.specs.Calls.{words_of};
ghost use Rattle.sdh_scripts.specs.declared.run.NewRun.{NewRun};
ghost use Rattle.sdh_programs.specs.Programs.{Program};
ghost use Rattle.sdh_programs.specs.Calls.{CutRun};
ghost use Rattle.sdh_programs.specs.Deeds.{IsDeed, TakesDeed};
ghost use Rattle.sdh_programs.specs.Laws.{StepsAreReported, CutsAreReported, SettledRunsAreDone, FaultsAreReported};

use sdh_outside::Output;
use sdh_plan::Plan;
use sdh_plant::Plant;
use sdh_report::{Status, Text};
use sdh_scripts::{NewRun, Teller};
use sdh_shell::Ends;
use std::alloc::{AllocError, Global};

/// What is done with a plan.
pub enum Deed<L, R, E> {
    /// It is refused with this ending.
    Refuse(E),
    /// This text is written of it, and no round is run.
    Write(Text),
    /// It is run, and this is listed of the run.
    Run(L, NewRun<R>),
}

/// What is asked of a program that runs plans over this kind of plant and writes to this kind of output. A sink is
/// written to as the reports come. A text is kept in memory until the run has ended.
pub trait Program<'a, O: Output, P: Plant>: Copy {
    /// How it ends.
    type Ending: Ends;

    /// What is listed of a run.
    type Listing: Copy;

    /// What runs a script and reports each settle step of it.
    type Run: Teller<O, P> + Drop;

    /// What can be asked for, by definitions.
    ghost Ask: { Type 0 };

    /// What is reported of the settle steps.
    ghost Told: { Type 0 };

    /// How the program is called, and what it reports of plans.
    ghost program: { Program Ask Self.Listing Told Self.Ending };

    /// What was written and was to be written of the run of a plan where a write failed and nothing more was run.
    ghost cut: { CutRun Self.Listing };

    /// What is asked for.
    ghost ask_of: { Self → Ask };

    /// The run is that of this plan, and this is listed of it.
    ghost Begins: { Self.Listing → Planned → NewRun Self.Run → Type 0 };

    /// A run with these reports, which ended so, may have left a ring with this number of rounds.
    ghost Leaves: { List Told → Status → ℕ → Type 0 };

    /// The output is as it was, but for memory that was taken for it.
    ghost Reserves: { O → O → Type 0 };

    /// Returns the line that says how the program is called, of at most 95 bytes, without its newline byte.
    fn usage() -> &'a [u8]
        ensures line { result.now ≡ program.usage }
        ensures short { length result.now ≤ 95 };

    /// Returns what the words ask for, or `None` where they have no form that the program knows.
    fn asked(words: &'a [String]) -> Option<Self>
        ensures { option_map ask_of result ≡ program.asked (words_of words.now) };

    /// Returns the plan that what is asked for names, or `None` where the plan is read from a source.
    fn own_plan(&self, alloc: Global) -> Result<Option<Plan>, AllocError>
        ensures { IfOk result (λ own. own ≡ program.own_plan (ask_of self.now)) };

    /// Returns what is done with a plan. All memory is taken here, that of the text too where the output keeps it.
    fn deed(
        self,
        alloc: Global,
        plan: Plan,
        output: &mut O,
    ) -> Result<Deed<Self::Listing, Self::Run, Self::Ending>, AllocError>
        requires room { O.Takes 96 output.old }
        ensures deed { IfOk result (IsDeed program Self.Run.ring Self.Run.MayRun Begins (ask_of self) plan) }
        ensures room { IfOk result (λ deed. TakesDeed O.Takes Self.Run.room deed output.new) }
        ensures same { (O.written output.new ≡ O.written output.old) × (O.faults output.new ≡ O.faults output.old) }
        ensures reserves { Reserves output.old output.new };

    /// Returns how a run ends that left `run`, by how its script ended, and appends its last line.
    fn close(
        self,
        listing: Self::Listing,
        run: &Self::Run,
        status: Status,
        line: &mut Text,
    ) -> Self::Ending
        requires room { 96 ≤ line.old.room }
        ensures ending { (told : List Told) → Leaves told status (Self.Run.ring run.now).rounds
            → result ≡ program.closing.ends listing told status }
        ensures line { line.new.bytes ≡ line.old.bytes ++ program.closing.line listing result }
        ensures short { length (program.closing.line listing result) ≤ 96 };

    /// What a run wrote is what is listed of a run of its plan. The function does nothing: its contract is the laws.
    fn laws(self)
        ensures steps { StepsAreReported program Self.Run.walk Self.Run.ring Self.Run.text_of Self.Run.begun_of Begins Leaves }
        ensures cuts { CutsAreReported program cut O.written O.faults Self.Run.walk Self.Run.ring Self.Run.text_of Self.Run.begun_of Begins }
        ensures done { SettledRunsAreDone program }
        ensures faults { FaultsAreReported program };

    /// The endings of the program are those that its type `Ending` has.
    ghost same_endings: { program.endings ≡ Self.Ending.endings };

    /// An output that isn't touched is as it was.
    ghost reserves_none: { (o : O) → Reserves o o };
}
