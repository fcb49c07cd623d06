//! Laws of scripts whose signalling is shown, and no code that runs. `specs/ByScript.antt` says how a ring signals by
//! the script alone, `specs/Owed.antt` what its reports owe, and `specs/Laws.antt` has the laws. Each function here has
//! a law as its contract and no work to do.
ghost use Rattle.sdh_aps_cli.specs.Laws.{ScriptsGoAsSignals, StepsGoAsSignals};

/// Over honest fibres each settle step shows what the ring of signals does, by the script alone.
pub fn scripts_go_as_signals()
    ensures { ScriptsGoAsSignals }
{
    sdh_laws::hearing::rounds_are_signal_rounds();
    sdh_laws::hearing::sides_bring();
    sdh_laws::hearing::requests_are_the_historys();
    sdh_laws::hearing::stretches_settle();
}

/// Over honest fibres the rounds of a settle step show what the ring of signals does in them, whether it ends or not.
pub fn steps_go_as_signals()
    ensures { StepsGoAsSignals }
{
    sdh_laws::hearing::rounds_are_signal_rounds();
    sdh_laws::hearing::sides_bring();
    sdh_laws::hearing::requests_are_the_historys();
}
