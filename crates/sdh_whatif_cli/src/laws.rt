//! Laws of the table. Each function here has a law as its contract and no work to do.
ghost use Rattle.sdh_whatif_cli.specs.Listed.{CasesHaveOneLine};
ghost use Rattle.sdh_whatif_cli.specs.Laws.{LinesAreTrue};

/// Each line of the table is true: the last report of the plan with the line's steps shows each port as the line says
/// of its circuit.
pub fn lines_are_true()
    ensures { LinesAreTrue }
{
    sdh_verdicts::laws::longer_plans_are_plans();
    sdh_verdicts::laws::cases_are_shown();
}

/// Each set of failures that are taken, up to the largest number that is asked for, has exactly one line of the table,
/// and each line is that of such a set.
pub fn cases_have_one_line()
    ensures { CasesHaveOneLine }
{}
