//! Laws of answers and their texts.
ghost use Rattle.mcf_answer.specs.Laws.{ParsesWhatIsSpelled, ReadsBack, SpellsOneAnswer};

/// No text spells two answers.
pub fn no_text_spells_two_answers()
    ensures { SpellsOneAnswer }
{}

/// Every text stands for an answer exactly if it spells that answer.
pub fn texts_stand_for_what_they_spell()
    ensures { ParsesWhatIsSpelled }
{}

/// The written text of an answer is read back as that answer.
pub fn what_is_written_is_read_back()
    ensures { ReadsBack }
{}
