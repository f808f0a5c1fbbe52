//! Laws of the traces of scripts.
ghost use Rattle.fed_trace.specs.Laws.{MostCookiesStand, OwnCookiesGo, ScriptsAreRuns, StopsAreRuns};

/// In the trace of a readable script each row is that of its event after the rows before it. So it is in the trace of the
/// events before a bad line.
pub fn scripts_are_runs()
    ensures scripts { ScriptsAreRuns }
    ensures stops { StopsAreRuns }
{}

/// What a page stores makes cookies of its own party alone stand or go.
pub fn own_cookies_go()
    ensures { OwnCookiesGo }
{}

/// After any events at most 180 cookies of a party stand, whatever pages stored.
pub fn most_cookies_stand()
    ensures { MostCookiesStand }
{}
