//! Laws of saved sessions.
ghost use Rattle.fed_profile.specs.Continues.{SavedContinues};
ghost use Rattle.fed_profile.specs.Laws.{SavedGoesOn, LinesRestore};
ghost use Rattle.fed_profile.specs.Scripts.{SavedIsScript, SavedAgain, ScriptGoesOn};

/// After what brings back the state of a session in which no call is pending, further events do what they would have done in that
/// session, if they name no call of it.
pub fn saved_goes_on()
    ensures { SavedGoesOn }
{}

/// Lines each of which restores its item bring back what stands, and do nothing else.
pub fn lines_restore()
    ensures { LinesRestore }
{}

/// After the lines that a session is saved as, further events do what they would have done in that session, if they name no call of it.
pub fn saved_continues()
    ensures { SavedContinues }
{}

/// What is saved is a script of the same time and rules, each of whose events brings an item back, where there are no more items than a
/// script may have events.
pub fn saved_is_script()
    ensures { SavedIsScript }
{}

/// What a session is saved as, read as a script and saved again, is the text that it was, byte for byte.
pub fn saved_again()
    ensures { SavedAgain }
{}

/// Lines that name no call of a script, and can stand both behind its own lines and behind those that it is saved as, do the same in both.
pub fn script_goes_on()
    ensures { ScriptGoesOn }
{}
