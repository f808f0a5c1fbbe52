//! Laws of the definitions.
ghost use Rattle.fed_check.specs.Laws.{BadLinesAreOfRun};

/// The first bad line that is found in a script is the one at which it stops to be readable, with the same cause; in a readable
/// script none is found.
pub fn bad_lines_are_of_run()
    ensures { BadLinesAreOfRun }
{}
