//! The files of `live`: opened in the order of the words, and handed back.

ghost use Rattle.std.specs.Prelude.{◌≡◌, ◌≢◌, ◌⊎◌, IfErr, IfOk, IsTrue, OnOk, Some, [], codes, map};
ghost use Rattle.command_words.specs.Views.{IsForm, files_of, live_view};
ghost use Rattle.compile_workers.specs.DeskEnd.{ends_told};
ghost use Rattle.qna_edges.specs.Names.{StaysKnown};
ghost use Rattle.qna_edges.specs.Paper.{Writes};
ghost use Rattle.qna_edges.specs.Shelves.{GivesSink};
ghost use Rattle.qna_live.specs.Opened.{AreBack, AreKnown, AreOpened, FailsDesk, FailsJournal, GivesDesk};
ghost use Rattle.qna_live.specs.Opened.{OnlyFiles, file_names};
ghost use Rattle.qna_live.specs.Opening.{EndsUnserved, traces_of};
ghost use Rattle.qna_parts.specs.StatusLine.{named_line};
ghost use Rattle.qna_parts.specs.Trace.{trace_of};

use command_words::{DeskNames, LiveWords};
use compile_workers::DeskEnds;
use qna_edges::{Cabinet, Refused, Sink, Status};
use qna_parts::{Unread, tell_unread};
use std::alloc::Global;

/// A desk's two ends in a cabinet.
type EndsIn<C> = DeskEnds<<C as Cabinet>::In, <C as Cabinet>::Out>;

/// Opens each desk's two files, in order, and then the journal. At a fault all that was opened is handed back, and the
/// fault is reported.
pub(crate) fn open_all<C: Cabinet, K: Sink>(
    alloc: Global,
    said: &LiveWords<'_>,
    cabinet: &mut C,
    report: &mut K,
) -> Result<(Vec<EndsIn<C>>, C::Out), Status>
    requires { IsForm said.now }
    ensures opened { IfOk result (λ opened.
        AreOpened (C.shelves cabinet.old) (C.shelves cabinet.new) (live_view said.now)
        (map (λ d. ends_told (C.In.stock d.source) (C.Out.paper d.sink)) opened.0.items)
        (C.Out.paper opened.1)) }
    ensures known { IfOk result (λ opened. AreKnown (C.knows cabinet.new)
        (map (λ d. ends_told (C.In.stock d.source) (C.Out.paper d.sink)) opened.0.items)
        × C.knows cabinet.new (C.Out.paper opened.1).name) }
    ensures quiet { OnOk result (K.paper report.new ≡ K.paper report.old) }
    ensures failed { IfErr result (λ status. EndsUnserved
        (traces_of (C.shelves cabinet.old) (C.shelves cabinet.new) (live_view said.now).desks)
        (trace_of (C.shelves cabinet.old) (C.shelves cabinet.new) (live_view said.now).journal)
        (K.paper report.old) (K.paper report.new) status) }
    ensures failed_only { IfErr result (λ status.
        OnlyFiles (C.shelves cabinet.old) (C.shelves cabinet.new)
        (file_names (live_view said.now))) }
{
    let mut desks = match Vec::with_capacity(alloc, said.desks.len()) {
        Ok(desks) => desks,
        Err(_) => return Err(Status::Memory),
    };
    for names in &said.desks {
        match open_desk(names, cabinet, report) {
            Ok(ends) => {
                let Ok(()) = desks.push(ends) else {
                    unreachable!()
                };
            }
            Err(status) => {
                back_all(cabinet, desks);
                return Err(status);
            }
        }
    }
    match create_journal(said.journal, cabinet, report) {
        Ok(journal) => Ok((desks, journal)),
        Err(status) => {
            back_all(cabinet, desks);
            Err(status)
        }
    }
}

/// Creates the journal.
fn create_journal<C: Cabinet, K: Sink>(
    name: &str,
    cabinet: &mut C,
    report: &mut K,
) -> Result<C::Out, Status>
    ensures created { OnOk result
        (GivesSink (C.shelves cabinet.old) (C.shelves cabinet.new) name.now) }
    ensures sink { IfOk result (λ k.
        ((C.Out.paper k).name ≡ name.now) × ((C.Out.paper k).faults ≡ 0)) }
    ensures held { IfOk result (λ k. IsTrue (C.shelves cabinet.old).tells →
        (C.Out.paper k).held ≡ Some []) }
    ensures known { OnOk result (C.knows cabinet.new name.now) }
    ensures stays_known { StaysKnown (C.knows cabinet.old) (C.knows cabinet.new) }
    ensures quiet { OnOk result (K.paper report.new ≡ K.paper report.old) }
    ensures failed { IfErr result (λ status.
        FailsJournal (C.shelves cabinet.old) (C.shelves cabinet.new)
        (K.paper report.old) (K.paper report.new) name.now status) }
{
    match cabinet.create(name) {
        Ok(journal) => Ok(journal),
        Err(refused) => Err(tell_unopened(report, refused, name)),
    }
}

/// Opens a desk's input, and creates its output.
fn open_desk<C: Cabinet, K: Sink>(
    names: &DeskNames<'_>,
    cabinet: &mut C,
    report: &mut K,
) -> Result<EndsIn<C>, Status>
    requires { names.now.input.now ≢ names.now.output.now }
    ensures opened { IfOk result (λ d.
        GivesDesk (C.shelves cabinet.old) (C.shelves cabinet.new) (files_of names.now)
        (ends_told (C.In.stock d.source) (C.Out.paper d.sink))) }
    ensures known { IfOk result (λ d. C.knows cabinet.new (C.In.stock d.source).name
        × C.knows cabinet.new (C.Out.paper d.sink).name) }
    ensures stays_known { StaysKnown (C.knows cabinet.old) (C.knows cabinet.new) }
    ensures quiet { OnOk result (K.paper report.new ≡ K.paper report.old) }
    ensures failed { IfErr result (λ status.
        FailsDesk (C.shelves cabinet.old) (C.shelves cabinet.new)
        (K.paper report.old) (K.paper report.new) (files_of names.now) status) }
{
    let source = match cabinet.open(names.input) {
        Ok(source) => source,
        Err(refused) => return Err(tell_unopened(report, refused, names.input)),
    };
    match cabinet.create(names.output) {
        Ok(sink) => Ok(DeskEnds { source, sink }),
        Err(refused) => {
            cabinet.back_in(source);
            Err(tell_unopened(report, refused, names.output))
        }
    }
}

/// Reports a file that couldn't be opened or created, and answers the status. Want of memory has no line.
fn tell_unopened<K: Sink>(report: &mut K, refused: Refused, name: &str) -> Status
    ensures failed { refused ≡ Refused.Failed → result ≡ Status.OpenFault }
    ensures back { result ≡ Status.OpenFault → refused ≡ Refused.Failed }
    ensures wants { result ≡ Status.Memory → refused ≡ Refused.Memory }
    ensures told { result ≡ Status.OpenFault →
        Writes (K.paper report.old) (K.paper report.new) (named_line (codes "open") name.now) }
    ensures memory { result ≡ Status.Memory → report.new ≡ report.old }
    ensures ends { (result ≡ Status.OpenFault) ⊎ (result ≡ Status.Memory) }
{
    match refused {
        Refused::Failed => tell_unread(report, Unread::Open, name),
        Refused::Memory => Status::Memory,
    }
}

/// Hands the desks' ends back, the last desk's first.
pub(crate) fn back_all<C: Cabinet>(cabinet: &mut C, desks: Vec<EndsIn<C>>)
    requires { AreKnown (C.knows cabinet.old)
        (map (λ d. ends_told (C.In.stock d.source) (C.Out.paper d.sink)) desks.items) }
    ensures back { AreBack (C.shelves cabinet.old) (C.shelves cabinet.new)
        (map (λ d. ends_told (C.In.stock d.source) (C.Out.paper d.sink)) desks.items) }
    ensures stays_known { StaysKnown (C.knows cabinet.old) (C.knows cabinet.new) }
{
    let mut desks = desks;
    while let Some(ends) = desks.pop() {
        let DeskEnds { source, sink } = ends;
        cabinet.back_in(source);
        cabinet.back_out(sink);
    }
}
