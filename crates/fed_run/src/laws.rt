//! Laws of what the program writes.
ghost use Rattle.fed_run.specs.Alike.{HalvesRunAlike};

/// Where the two halves of an input are twins, the transcripts that `run` writes of them have the same requests of gets for well-known
/// files, configurations and accounts, byte for byte and in their order, up to the event that `twin` names. They are those of all lines
/// of the script but of those by which disconnects begin.
pub fn halves_run_alike()
    ensures { HalvesRunAlike }
{}
