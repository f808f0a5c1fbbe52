//! Laws of slices.
ghost use Rattle.fed_slice_laws.specs.Laws.{OneClosure, SliceIsFilter, SliceIsRead};
ghost use Rattle.fed_slice_laws.specs.Reads.{SliceReads, TextIsFilter};

/// Each event of a slice by closed parties does what it does in the whole: the same effects, all of
/// them, in the same order. Of a script's bytes: the lines of such a slice are a readable script that
/// does so, and its transcript is that of the whole, of which the records of other events are left
/// out, line numbers aside.
pub fn slice_is_filter()
    ensures effects { SliceIsFilter }
    ensures text { TextIsFilter }
{}

/// The events of a slice are those of a readable script.
pub fn slice_is_read()
    ensures { SliceIsRead }
{}

/// The lines of a slice, each followed by LF, are read as that slice, by any parties.
pub fn slice_reads()
    ensures { SliceReads }
{}

/// Of a script and a party one list is the closure.
pub fn one_closure()
    ensures { OneClosure }
{}
