//! A law of verdicts.
ghost use Rattle.mcf_checker.specs.Laws.{CorrectAnswersAreAccepted};

/// The verdict on an answer text accepts exactly if the text is correct for the instance text,
/// whoever made it.
///
/// The function does nothing at run time; its contract is the law.
pub fn correct_answers_are_accepted()
    ensures { CorrectAnswersAreAccepted }
{}
