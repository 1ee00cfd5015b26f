//! Transcripts, as laws.

ghost use Rattle.compile_workers.specs.Laws.{PartStays, ServedStays, SoleDeskSends};

/// Law: a whole transcript of a desk over a journal stays one when the journal grows by what others send.
pub fn served_stays()
    ensures { ServedStays }
{}

/// Law: the beginning of a transcript over a journal stays one when the journal grows by what others send.
pub fn parts_stay()
    ensures { PartStays }
{}

/// Law: where a desk's transcript is whole and the journal has nothing of another party, its inputs are those that are
/// accepted of the desk's lines.
pub fn sole_desk_sends()
    ensures { SoleDeskSends }
{}
