//! Laws of interpreters and generators. Each function does nothing: its contract is the law.
ghost use Rattle.sdh_pointer.specs.Laws.{EachWordHasOneRow, EachInputHasOneRow, AnswerTellsMode, BoundsAreKept, InterpreterMoves};
ghost use Rattle.sdh_pointer.specs.Laws.{GeneratorMoves, GeneratorRepeats, NormalWordSettles, EnabledWordSettles, AisSettles, InputsLast};
ghost use Rattle.sdh_pointer.specs.Laws.{RepeatedWordsRest, UnmovedIsNormal, UnmovedIsAis, SteadyIsNormal, ReadsWhatIsSent, ValuesSpread};

/// The interpreter's table has exactly one row for each word in each state, and a step goes by that row.
pub fn each_word_has_one_row()
    ensures { EachWordHasOneRow }
{}

/// The generator's table has exactly one row for each input in each state, and a step goes by that row.
pub fn each_input_has_one_row()
    ensures { EachInputHasOneRow }
{}

/// An interpreter answers a word with an action. The answer is `Ais` exactly where the mode after the step isn't
/// `Norm`.
pub fn answer_tells_mode()
    ensures { AnswerTellsMode }
{}

/// Values and counts stay within their bounds.
pub fn bounds_are_kept()
    ensures { BoundsAreKept }
{}

/// An interpreter has `moved` false after a step exactly where the step left all that it keeps as it was.
pub fn interpreter_moves()
    ensures { InterpreterMoves }
{}

/// A generator has `moved` false after a step exactly where the step left its state as it was.
pub fn generator_moves()
    ensures { GeneratorMoves }
{}

/// A generator that is given one input for ever repeats one word.
pub fn generator_repeats()
    ensures { GeneratorRepeats }
{}

/// An interpreter that reads one normal word for ever settles in `Norm` at its value in seven rounds.
pub fn normal_word_settles()
    ensures { NormalWordSettles }
{}

/// An interpreter that reads one enabled word for ever no longer changes after the first round.
pub fn enabled_word_settles()
    ensures { EnabledWordSettles }
{}

/// An interpreter that reads all ones for ever settles in `Ais` in three rounds.
pub fn ais_settles()
    ensures { AisSettles }
{}

/// Where a step reads a normal word and changes nothing, its answer is `Normal` at the word's value.
pub fn unmoved_is_normal()
    ensures { UnmovedIsNormal }
{}

/// Where a step reads all ones and changes nothing, its answer is `Ais`.
pub fn unmoved_is_ais()
    ensures { UnmovedIsAis }
{}

/// An interpreter in `Norm` that reads normal words of its own value answers `Normal`, and soon no longer changes.
pub fn steady_is_normal()
    ensures { SteadyIsNormal }
{}

/// An interpreter that is in step with a generator reads each of its words as the action for which it was sent.
pub fn reads_what_is_sent()
    ensures { ReadsWhatIsSent }
{}

/// An input leads to one state, whatever the state was before. In that state the same input is answered by one word.
pub fn inputs_last()
    ensures { InputsLast }
{}

/// What a generator repeats brings an interpreter to rest in seven rounds.
pub fn repeated_words_rest()
    ensures { RepeatedWordsRest }
{}

/// Where a source sends one value from round 0 on, it is known what each generator and each interpreter that the value
/// passes keeps and sends in each round.
pub fn values_spread()
    ensures { ValuesSpread }
{}
