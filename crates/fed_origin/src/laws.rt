//! Laws of the definitions.
ghost use Rattle.fed_origin.specs.Laws.{WordsAgree};

/// The words of mediations, of modes, of contexts, of kinds of replies and of login statuses are read as what they were
/// written for, and nothing else is read as that.
pub fn words_agree()
    ensures { WordsAgree }
{}
