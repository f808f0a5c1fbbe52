//! Laws of the definitions.
ghost use Rattle.fed_script.specs.Laws.{LinesAreTheScript, ScriptsAreReadable};

/// Each script that bytes are read as is readable: it has at most 1,000,000 events, no two gets or
/// disconnects of one number, one to ten providers for each get, and no unknown status.
pub fn scripts_are_readable()
    ensures { ScriptsAreReadable }
{}

/// The lines of bytes, as a reader gives them, are those of the script that the bytes are: its header, its events with the
/// numbers of their lines, and the first bad line.
pub fn lines_are_the_script()
    ensures { LinesAreTheScript }
{}
