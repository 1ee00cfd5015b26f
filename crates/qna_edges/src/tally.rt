// What a cabinet counts for each name.
ghost use Rattle.std.specs.Prelude.{◌≡◌, ◌<◌, ◌-◌, ◌^◌, ℕ, List, IsTrue, OnOk};

use qna_base::Memory;
use std::alloc::Global;
use std::collections::BTreeMap;

/// What failed.
#[derive(Clone, Copy)]
pub(crate) enum Kind {
    Open,
    Create,
    Read,
    Write,
}

/// How often each kind of call failed under one name, and how many sources and sinks were given for it.
#[derive(Clone, Copy)]
pub(crate) struct Counts {
    pub opens: u64,
    pub creates: u64,
    pub reads: u64,
    pub writes: u64,
    pub sources: u64,
    pub sinks: u64,
}

impl Counts {
    ghost use Rattle.qna_edges.specs.Tally.{raised, one_source, one_sink};

    fn raise(&mut self, kind: Kind, more: u64)
        ensures { self.new ≡ raised kind self.old more }
    {
        match kind {
            Kind::Open => self.opens = self.opens.saturating_add(more),
            Kind::Create => self.creates = self.creates.saturating_add(more),
            Kind::Read => self.reads = self.reads.saturating_add(more),
            Kind::Write => self.writes = self.writes.saturating_add(more),
        }
    }

    fn give_source(&mut self)
        requires { self.old.sources < 2 ^ 64 - 1 }
        ensures { self.new ≡ one_source self.old }
    {
        self.sources += 1;
    }

    fn give_sink(&mut self)
        requires { self.old.sinks < 2 ^ 64 - 1 }
        ensures { self.new ≡ one_sink self.old }
    {
        self.sinks += 1;
    }
}

/// The counts of each name.
#[derive(Drop)]
pub(crate) struct Tally {
    alloc: Global,
    counts: BTreeMap<String, Counts>,
}

impl Tally {
    ghost use Rattle.qna_edges.specs.Names.{SameAtAll, SameAtOthers, StaysKnown};
    ghost use Rattle.qna_edges.specs.Tally.{counts_of, has_room, nothing_counted, raised, one_source, one_sink};

    pub(crate) fn new(alloc: Global) -> Tally
        ensures { (n : List ℕ) → counts_of result n ≡ nothing_counted }
    {
        Tally {
            alloc,
            counts: BTreeMap::new(alloc),
        }
    }

    // Takes the room for a name's counts.
    #[tactic(auto, using(std::proofs::lemmas::Map::Text::text_keys))]
    pub(crate) fn reserve(&mut self, name: &str) -> Result<(), Memory>
        ensures room { OnOk result (IsTrue (has_room self.new name.now)) }
        ensures stays { StaysKnown (λ n. IsTrue (has_room self.old n))
            (λ n. IsTrue (has_room self.new n)) }
        ensures counts { SameAtAll (counts_of self.old) (counts_of self.new) }
    {
        if !self.counts.contains_key(name) {
            let key = String::from_str(self.alloc, name)?;
            let none = Counts {
                opens: 0,
                creates: 0,
                reads: 0,
                writes: 0,
                sources: 0,
                sinks: 0,
            };
            self.counts.insert(key, none)?;
        }
        Ok(())
    }

    // Adds faults of one kind to a name's counts.
    #[tactic(auto, using(std::proofs::lemmas::Map::Text::text_keys))]
    pub(crate) fn raise(&mut self, kind: Kind, more: u64, name: &str)
        requires { IsTrue (has_room self.old name.now) }
        ensures at { counts_of self.new name.now ≡ raised kind (counts_of self.old name.now) more }
        ensures others { SameAtOthers (counts_of self.old) (counts_of self.new) name.now }
        ensures stays { StaysKnown (λ n. IsTrue (has_room self.old n))
            (λ n. IsTrue (has_room self.new n)) }
    {
        if let Some(counts) = self.counts.get_mut(name) {
            counts.raise(kind, more);
        }
    }

    // How many sources were given for a name.
    pub(crate) fn sources(&self, name: &str) -> u64
        ensures { result ≡ (counts_of self.now name.now).sources }
    {
        match self.counts.get(name) {
            Some(counts) => counts.sources,
            None => 0,
        }
    }

    // How many sinks were given for a name.
    pub(crate) fn sinks(&self, name: &str) -> u64
        ensures { result ≡ (counts_of self.now name.now).sinks }
    {
        match self.counts.get(name) {
            Some(counts) => counts.sinks,
            None => 0,
        }
    }

    // Counts a source that is given for a name.
    #[tactic(auto, using(std::proofs::lemmas::Map::Text::text_keys))]
    pub(crate) fn give_source(&mut self, name: &str)
        requires room { IsTrue (has_room self.old name.now) }
        requires more { (counts_of self.old name.now).sources < 2 ^ 64 - 1 }
        ensures at { counts_of self.new name.now ≡ one_source (counts_of self.old name.now) }
        ensures others { SameAtOthers (counts_of self.old) (counts_of self.new) name.now }
        ensures stays { StaysKnown (λ n. IsTrue (has_room self.old n))
            (λ n. IsTrue (has_room self.new n)) }
    {
        if let Some(counts) = self.counts.get_mut(name) {
            counts.give_source();
        }
    }

    // Counts a sink that is given for a name.
    #[tactic(auto, using(std::proofs::lemmas::Map::Text::text_keys))]
    pub(crate) fn give_sink(&mut self, name: &str)
        requires room { IsTrue (has_room self.old name.now) }
        requires more { (counts_of self.old name.now).sinks < 2 ^ 64 - 1 }
        ensures at { counts_of self.new name.now ≡ one_sink (counts_of self.old name.now) }
        ensures others { SameAtOthers (counts_of self.old) (counts_of self.new) name.now }
        ensures stays { StaysKnown (λ n. IsTrue (has_room self.old n))
            (λ n. IsTrue (has_room self.new n)) }
    {
        if let Some(counts) = self.counts.get_mut(name) {
            counts.give_sink();
        }
    }
}
