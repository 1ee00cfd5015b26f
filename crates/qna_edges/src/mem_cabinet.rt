// Files in memory, by their names.
ghost use Rattle.std.specs.Prelude.{◌≡◌, ◌≤◌, ◌+◌, ◌-◌, ◌^◌, ℕ, List, [], IsTrue, length, true, false, IfOk};
ghost use Rattle.std.specs.Prelude.{IfSome, OnOk, OnErr, IsErrOf, Some, None};
ghost use Rattle.std.specs.Option.{option_map, option_copied};
ghost use Rattle.qna_edges.specs.Count.{Rose, capped};
ghost use Rattle.qna_edges.specs.Names.{SameAtAll, SameAtOthers, StaysKnown};
ghost use Rattle.qna_edges.specs.Memory.{fails_at, next_number};

use crate::tally::{Kind, Tally};
use crate::{Cabinet, MemSink, MemSource, Refused};
use qna_base::Memory;
use std::alloc::{AllocError, Global};
use std::collections::BTreeMap;

/// What stands under one name, the sink that was planned for it, and what the last source of it had left.
#[derive(Drop)]
pub(crate) struct Drawer {
    pub file: Option<MemSource>,
    pub plan: Option<MemSink>,
    pub rest: u64,
}

/// Files in memory, whose calls of `open` and `create` fail where a test wants it.
/// It tells its bytes.
#[derive(Drop)]
pub struct MemCabinet {
    alloc: Global,
    tally: Tally,
    drawers: BTreeMap<String, Drawer>,
    fails: Vec<u64>,
    calls: u64,
    out: u64,
}

impl MemCabinet {
    ghost use Rattle.qna_edges.specs.Tally.{nothing_counted};
    ghost use Rattle.qna_edges.specs.MemCabinet.{drawer_of, has_drawer, file_of, bytes_of, plan_of, rest_of};
    ghost use Rattle.qna_edges.specs.MemCabinet.{counted_of, calls_of, out_of, fails_of, Knows, opened};
    ghost use Rattle.qna_edges.specs.MemCabinet.{created};

    /// A cabinet without files, none of whose calls is to fail.
    pub fn new(alloc: Global) -> MemCabinet
        ensures files { (n : List ℕ) → file_of result n ≡ None }
        ensures plans { (n : List ℕ) → plan_of result n ≡ None }
        ensures rests { (n : List ℕ) → rest_of result n ≡ 0 }
        ensures counts { (n : List ℕ) → counted_of result n ≡ nothing_counted }
        ensures calls { calls_of result ≡ 0 }
        ensures out { out_of result ≡ 0 }
        ensures fails { fails_of result ≡ [] }
    {
        MemCabinet {
            alloc,
            tally: Tally::new(alloc),
            drawers: BTreeMap::new(alloc),
            fails: Vec::new(alloc),
            calls: 0,
            out: 0,
        }
    }

    /// Puts a file under the name, with the bytes that the source has left, in place of what stood there.
    /// `open` gives a source that reads like this one. At `Memory` nothing changed.
    #[tactic(auto, using(std::proofs::lemmas::Map::Text::text_keys))]
    pub fn put_file(&mut self, name: &str, source: MemSource) -> Result<(), Memory>
        requires { source.faults ≡ 0 }
        ensures put { OnOk result (file_of self.new name.now ≡ Some source) }
        ensures memory { OnErr result (SameAtAll (drawer_of self.old) (drawer_of self.new)) }
        ensures others { SameAtOthers (drawer_of self.old) (drawer_of self.new) name.now }
        ensures plan { plan_of self.new name.now ≡ plan_of self.old name.now }
        ensures rest { rest_of self.new name.now ≡ rest_of self.old name.now }
        ensures counts { SameAtAll (counted_of self.old) (counted_of self.new) }
        ensures stays_known { StaysKnown (Knows self.old) (Knows self.new) }
        ensures calls { calls_of self.new ≡ calls_of self.old }
        ensures out { out_of self.new ≡ out_of self.old }
        ensures fails { fails_of self.new ≡ fails_of self.old }
    {
        self.place(name)?;
        if let Some(drawer) = self.drawers.get_mut(name) {
            drawer.file = Some(source);
        }
        Ok(())
    }

    /// Names the sink that `create` gives for the name, as often as it is called. Without one, `create` gives a sink
    /// that takes all and never fails. At `Memory` nothing changed.
    #[tactic(auto, using(std::proofs::lemmas::Map::Text::text_keys))]
    pub fn plan_sink(&mut self, name: &str, sink: MemSink) -> Result<(), Memory>
        requires empty { sink.held ≡ [] }
        requires well { sink.faults ≡ 0 }
        ensures planned { OnOk result (plan_of self.new name.now ≡ Some sink) }
        ensures memory { OnErr result (SameAtAll (drawer_of self.old) (drawer_of self.new)) }
        ensures others { SameAtOthers (drawer_of self.old) (drawer_of self.new) name.now }
        ensures file { file_of self.new name.now ≡ file_of self.old name.now }
        ensures rest { rest_of self.new name.now ≡ rest_of self.old name.now }
        ensures counts { SameAtAll (counted_of self.old) (counted_of self.new) }
        ensures stays_known { StaysKnown (Knows self.old) (Knows self.new) }
        ensures calls { calls_of self.new ≡ calls_of self.old }
        ensures out { out_of self.new ≡ out_of self.old }
        ensures fails { fails_of self.new ≡ fails_of self.old }
    {
        self.place(name)?;
        if let Some(drawer) = self.drawers.get_mut(name) {
            drawer.plan = Some(sink);
        }
        Ok(())
    }

    /// Names the calls of `open` and `create`, counted together from 1 since the cabinet was made, that fail.
    pub fn fail_opens(&mut self, calls: Vec<u64>)
        ensures fails { fails_of self.new ≡ calls.items }
        ensures calls { calls_of self.new ≡ calls_of self.old }
        ensures out { out_of self.new ≡ out_of self.old }
        ensures drawers { SameAtAll (drawer_of self.old) (drawer_of self.new) }
        ensures counts { SameAtAll (counted_of self.old) (counted_of self.new) }
        ensures stays_known { StaysKnown (Knows self.old) (Knows self.new) }
    {
        self.fails = calls;
    }

    /// What stands under the name, and `None` exactly where nothing does.
    pub fn file(&self, name: &str) -> Option<&[u8]>
        ensures { option_map (λ bytes. bytes.now) result ≡ bytes_of self.now name.now }
    {
        Some(self.standing(name)?.bytes())
    }

    // What stands under the name.
    fn standing(&self, name: &str) -> Option<&MemSource>
        ensures { option_copied result ≡ file_of self.now name.now }
    {
        self.drawers.get(name)?.file.as_ref()
    }

    // The sink that was planned for the name.
    fn planned(&self, name: &str) -> Option<&MemSink>
        ensures { option_copied result ≡ plan_of self.now name.now }
    {
        self.drawers.get(name)?.plan.as_ref()
    }

    // Takes the room for what stands under a name.
    #[tactic(auto, using(std::proofs::lemmas::Map::Text::text_keys))]
    fn place(&mut self, name: &str) -> Result<(), Memory>
        ensures placed { OnOk result (IsTrue (has_drawer self.new name.now)) }
        ensures drawers { SameAtAll (drawer_of self.old) (drawer_of self.new) }
        ensures stays { StaysKnown (λ n. IsTrue (has_drawer self.old n))
            (λ n. IsTrue (has_drawer self.new n)) }
        ensures tally { self.new.tally ≡ self.old.tally }
        ensures fails { self.new.fails ≡ self.old.fails }
        ensures calls { self.new.calls ≡ self.old.calls }
        ensures out { self.new.out ≡ self.old.out }
    {
        if !self.drawers.contains_key(name) {
            let key = String::from_str(self.alloc, name)?;
            let empty = Drawer {
                file: None,
                plan: None,
                rest: 0,
            };
            self.drawers.insert(key, empty)?;
        }
        Ok(())
    }

    // Takes the room for a name's counts, and then for what stands there.
    fn reserve(&mut self, name: &str) -> Result<(), Memory>
        ensures known { OnOk result (Knows self.new name.now) }
        ensures drawers { SameAtAll (drawer_of self.old) (drawer_of self.new) }
        ensures counts { SameAtAll (counted_of self.old) (counted_of self.new) }
        ensures stays_known { StaysKnown (Knows self.old) (Knows self.new) }
        ensures fails { self.new.fails ≡ self.old.fails }
        ensures calls { self.new.calls ≡ self.old.calls }
        ensures out { self.new.out ≡ self.old.out }
    {
        self.tally.reserve(name)?;
        self.place(name)
    }

    // Counts a call of `open` or `create`, and answers whether it is one of those that fail.
    fn count_call(&mut self) -> bool
        ensures calls { self.new ≡ record self.old { calls = next_number self.old.calls } }
        ensures listed { result ≡ fails_at (fails_of self.old) self.new.calls }
    {
        self.calls = self.calls.saturating_add(1);
        self.fails.contains(&self.calls)
    }

    // The source that `open` gives, where something stands under the name.
    fn source_of(&self, name: &str) -> Result<Option<MemSource>, AllocError>
        ensures { IfOk result (λ source.
            source ≡ option_map (λ file. opened file name.now) (file_of self.now name.now)) }
    {
        match self.standing(name) {
            Some(file) => {
                let own = String::from_str(self.alloc, name)?;
                Ok(Some(file.like(self.alloc, own)?))
            }
            None => Ok(None),
        }
    }

    // The sink that `create` gives.
    fn sink_of(&self, name: &str) -> Result<MemSink, AllocError>
        ensures { IfOk result (λ sink. sink ≡ created (plan_of self.now name.now) name.now) }
    {
        let own = String::from_str(self.alloc, name)?;
        match self.planned(name) {
            Some(plan) => plan.like(self.alloc, own),
            None => Ok(MemSink::with_name(self.alloc, own)),
        }
    }
}

impl Cabinet for MemCabinet {
    type In = MemSource;

    type Out = MemSink;

    ghost use Rattle.qna_edges.specs.Shelves.{Same, GivesSource, GivesSink, OpenFails, CreateFails, BackIn, BackOut};
    ghost use Rattle.qna_edges.specs.MemCabinet.{shelves_of, file_of, bytes_of, plan_of, open_faults_of};
    ghost use Rattle.qna_edges.specs.MemCabinet.{create_faults_of, calls_of, fails_of, Knows, next_fails};
    ghost use Rattle.qna_edges.specs.MemCabinet.{open_fails, opened, created, kept};
    ghost use Rattle.qna_edges.specs.Memory.{stock_of, paper_of};

    ghost shelves = { shelves_of };

    ghost knows = { Knows };

    /// A source of what stands under the name, which reads like the one that was put there.
    /// It fails exactly where the call is listed or nothing stands under the name. A call that answers `Memory`
    /// isn't counted.
    fn open(&mut self, name: &str) -> Result<MemSource, Refused>
        ensures source { IfOk result (λ s. (s.name ≡ name.now) × (s.faults ≡ 0)) }
        ensures left { IfOk result (λ s. Some s.left ≡ bytes_of self.old name.now) }
        ensures known { OnOk result (Knows self.new name.now) }
        ensures stays_known { StaysKnown (Knows self.old) (Knows self.new) }
        ensures ok { OnOk result
            (GivesSource (shelves_of self.old) (shelves_of self.new) name.now) }
        ensures failed { IsErrOf result Refused.Failed →
            OpenFails (shelves_of self.old) (shelves_of self.new) name.now }
        ensures memory { IsErrOf result Refused.Memory →
            Same (shelves_of self.old) (shelves_of self.new) }

        ensures given { IfOk result (λ s.
            Some s ≡ option_map (λ file. opened file name.now) (file_of self.old name.now)) }
        ensures well { OnOk result (open_fails self.old name.now ≡ false) }
        ensures failing { IsErrOf result Refused.Failed → open_fails self.old name.now ≡ true }
        ensures one_more { IsErrOf result Refused.Failed →
            open_faults_of self.new name.now ≡ capped (open_faults_of self.old name.now) 1 }
        ensures counted { OnOk result (calls_of self.new ≡ next_number (calls_of self.old)) }
        ensures counted_failing { IsErrOf result Refused.Failed →
            calls_of self.new ≡ next_number (calls_of self.old) }
        ensures not_counted { IsErrOf result Refused.Memory →
            calls_of self.new ≡ calls_of self.old }
        ensures fails { fails_of self.new ≡ fails_of self.old }
        ensures same_files { SameAtAll (file_of self.old) (file_of self.new) }
        ensures plans { SameAtAll (plan_of self.old) (plan_of self.new) }
    {
        if self.out == u64::MAX {
            return Err(Refused::Memory);
        }
        self.reserve(name)?;
        if self.tally.sources(name) == u64::MAX {
            return Err(Refused::Memory);
        }
        let source = self.source_of(name)?;
        let listed = self.count_call();
        match source {
            Some(source) if !listed => {
                self.tally.give_source(name);
                self.out += 1;
                Ok(source)
            }
            _ => {
                self.tally.raise(Kind::Open, 1, name);
                Err(Refused::Failed)
            }
        }
    }

    /// The sink that was planned for the name, or one that takes all and never fails.
    /// It fails exactly where the call is listed. A call that answers `Memory` isn't counted.
    fn create(&mut self, name: &str) -> Result<MemSink, Refused>
        ensures sink { IfOk result (λ k. (k.name ≡ name.now) × (k.faults ≡ 0)) }
        ensures told { IfOk result (λ k. k.held ≡ []) }
        ensures known { OnOk result (Knows self.new name.now) }
        ensures stays_known { StaysKnown (Knows self.old) (Knows self.new) }
        ensures ok { OnOk result (GivesSink (shelves_of self.old) (shelves_of self.new) name.now) }
        ensures failed { IsErrOf result Refused.Failed →
            CreateFails (shelves_of self.old) (shelves_of self.new) name.now }
        ensures memory { IsErrOf result Refused.Memory →
            Same (shelves_of self.old) (shelves_of self.new) }

        ensures given { IfOk result (λ k. k ≡ created (plan_of self.old name.now) name.now) }
        ensures well { OnOk result (next_fails self.old ≡ false) }
        ensures failing { IsErrOf result Refused.Failed → next_fails self.old ≡ true }
        ensures one_more { IsErrOf result Refused.Failed →
            create_faults_of self.new name.now ≡ capped (create_faults_of self.old name.now) 1 }
        ensures counted { OnOk result (calls_of self.new ≡ next_number (calls_of self.old)) }
        ensures counted_failing { IsErrOf result Refused.Failed →
            calls_of self.new ≡ next_number (calls_of self.old) }
        ensures not_counted { IsErrOf result Refused.Memory →
            calls_of self.new ≡ calls_of self.old }
        ensures fails { fails_of self.new ≡ fails_of self.old }
        ensures same_files { SameAtAll (file_of self.old) (file_of self.new) }
        ensures plans { SameAtAll (plan_of self.old) (plan_of self.new) }
    {
        if self.out == u64::MAX {
            return Err(Refused::Memory);
        }
        self.reserve(name)?;
        if self.tally.sinks(name) == u64::MAX {
            return Err(Refused::Memory);
        }
        let sink = self.sink_of(name)?;
        if self.count_call() {
            self.tally.raise(Kind::Create, 1, name);
            return Err(Refused::Failed);
        }
        self.tally.give_sink(name);
        self.out += 1;
        Ok(sink)
    }

    #[tactic(auto, using(std::proofs::lemmas::Map::Text::text_keys))]
    fn back_in(&mut self, source: MemSource)
        requires { Knows self.old source.name }
        ensures stays_known { StaysKnown (Knows self.old) (Knows self.new) }
        ensures only { BackIn (shelves_of self.old) (shelves_of self.new) (stock_of source) }

        ensures same_files { SameAtAll (file_of self.old) (file_of self.new) }
        ensures plans { SameAtAll (plan_of self.old) (plan_of self.new) }
        ensures calls { calls_of self.new ≡ calls_of self.old }
        ensures fails { fails_of self.new ≡ fails_of self.old }
    {
        self.out = self.out.saturating_sub(1);
        self.tally.raise(Kind::Read, source.faults(), source.name());
        if let Some(drawer) = self.drawers.get_mut(source.name()) {
            drawer.rest = source.left() as u64;
        }
    }

    /// What the sink holds stands under its name from then on, and is given whole.
    #[tactic(auto, using(std::proofs::lemmas::Map::Text::text_keys))]
    fn back_out(&mut self, sink: MemSink)
        requires { Knows self.old sink.name }
        ensures stays_known { StaysKnown (Knows self.old) (Knows self.new) }
        ensures only { BackOut (shelves_of self.old) (shelves_of self.new) (paper_of sink) }

        ensures stands { file_of self.new sink.name ≡ Some (kept sink.held) }
        ensures same_files { SameAtOthers (file_of self.old) (file_of self.new) sink.name }
        ensures plans { SameAtAll (plan_of self.old) (plan_of self.new) }
        ensures calls { calls_of self.new ≡ calls_of self.old }
        ensures fails { fails_of self.new ≡ fails_of self.old }
    {
        let alloc = self.alloc;
        self.out = self.out.saturating_sub(1);
        self.tally.raise(Kind::Write, sink.faults(), sink.name());
        if let Some(drawer) = self.drawers.get_mut(sink.name()) {
            drawer.file = Some(MemSource::new(sink.into_held(), usize::MAX, Vec::new(alloc)));
        }
    }
}
