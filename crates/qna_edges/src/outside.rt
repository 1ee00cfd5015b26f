// What the program sees of the outside: where bytes come from, where they go, and the files by their names.
ghost use Rattle.std.specs.Prelude.{◌≡◌, ◌<◌, ◌≤◌, ℕ, List, [], IsTrue, length, take, IfOk, IfSome, IsSome};
ghost use Rattle.std.specs.Prelude.{OnOk, OnErr, IsErrOf};
ghost use Rattle.std.specs.declared.option.Option.{Option};
ghost use Rattle.std.specs.Io.{ReadsAtMost};
ghost use Rattle.std.specs.Io.KnownBytes.{ReadConsumes};
ghost use Rattle.qna_edges.specs.Names.{StaysKnown};
ghost use Rattle.qna_edges.specs.Stock.{Stock, GivesBytes, ReadFails};
ghost use Rattle.qna_edges.specs.Paper.{Paper, grown, Fails, Wants};
ghost use Rattle.qna_edges.specs.Shelves.{Shelves, Same, GivesSource, GivesSink, OpenFails, CreateFails};
ghost use Rattle.qna_edges.specs.Shelves.{BackIn, BackOut};

use crate::{Failed, Refused};

/// Where bytes come from.
pub trait Source: Send + Drop {
    /// What is left, where the source tells it, the count of its faults, and its name, which no call changes.
    ghost stock: { Self → Stock };

    /// Takes the next bytes into the front of `buf`, and answers how many. `Ok(0)` is the end of input.
    /// At `Failed` the count of faults rose, and nothing else changed.
    fn read(&mut self, buf: &mut [u8]) -> Result<usize, Failed>
        requires { 0 < length buf.old }
        ensures bound { ReadsAtMost result buf.new }
        ensures bytes { ReadConsumes (stock self.old).left (stock self.new).left result buf.new }
        ensures ok { OnOk result (GivesBytes (stock self.old) (stock self.new)) }
        ensures failed { OnErr result (ReadFails (stock self.old) (stock self.new)) };
}

/// Where bytes go.
pub trait Sink: Send + Drop {
    /// What the sink holds, where it tells it, its two counts, and its name, which no call changes.
    ghost paper: { Self → Paper };

    /// Appends the first bytes of `bytes`, at least one, and answers how many.
    /// At `Failed` the count of faults rose, at `Memory` that of wants, and nothing else changed.
    /// A device that takes nothing counts a fault.
    fn write(&mut self, bytes: &[u8]) -> Result<usize, Refused>
        requires { 0 < length bytes.now }
        ensures some { IfOk result (λ n. 0 < n) }
        ensures bound { IfOk result (λ n. n ≤ length bytes.now) }
        ensures ok { IfOk result (λ n. paper self.new ≡ grown (paper self.old) (take n bytes.now)) }
        ensures failed { IsErrOf result Refused.Failed → Fails (paper self.old) (paper self.new) }
        ensures memory { IsErrOf result Refused.Memory → Wants (paper self.old) (paper self.new) };
}

/// Files by their names, and what is counted of them.
pub trait Cabinet {
    /// What `open` gives, and `back_in` takes back.
    type In: Source;

    /// What `create` gives, and `back_out` takes back.
    type Out: Sink;

    /// What the cabinet has under each name, and how many sources and sinks are out.
    ghost shelves: { Self → Shelves };

    /// The names that the cabinet has room for, so that a source or sink of theirs can come back.
    ghost knows: { Self → List ℕ → Type 0 };

    /// A source of what stands under the name, counted as given for it; a cabinet that tells its bytes gives none where
    /// nothing stands. At `Failed` the name's open faults rose, at `Memory` nothing changed. A name's count that is
    /// full is `Memory`.
    fn open(&mut self, name: &str) -> Result<Self::In, Refused>
        ensures source { IfOk result (λ s.
            ((Self.In.stock s).name ≡ name.now) × ((Self.In.stock s).faults ≡ 0)) }
        ensures left { IfOk result (λ s. IsTrue (shelves self.old).tells →
            ((Self.In.stock s).left ≡ ((shelves self.old).under name.now).file)
            × IsSome (Self.In.stock s).left) }
        ensures known { OnOk result (knows self.new name.now) }
        ensures stays_known { StaysKnown (knows self.old) (knows self.new) }
        ensures ok { OnOk result (GivesSource (shelves self.old) (shelves self.new) name.now) }
        ensures failed { IsErrOf result Refused.Failed →
            OpenFails (shelves self.old) (shelves self.new) name.now }
        ensures memory { IsErrOf result Refused.Memory →
            Same (shelves self.old) (shelves self.new) };

    /// A sink that holds nothing, counted as given for the name. A file of the system is emptied by this; in a cabinet
    /// that tells its bytes what the sink takes stands under the name once it has come back.
    /// At `Failed` the name's create faults rose, at `Memory` nothing changed. A name's count that is full is `Memory`.
    fn create(&mut self, name: &str) -> Result<Self::Out, Refused>
        ensures sink { IfOk result (λ k.
            ((Self.Out.paper k).name ≡ name.now) × ((Self.Out.paper k).faults ≡ 0)) }
        ensures told { IfOk result (λ k. IsTrue (shelves self.old).tells →
            (Self.Out.paper k).held ≡ Option.Some []) }
        ensures empty { IfOk result (λ k. IfSome (Self.Out.paper k).held (λ bytes. bytes ≡ [])) }
        ensures known { OnOk result (knows self.new name.now) }
        ensures stays_known { StaysKnown (knows self.old) (knows self.new) }
        ensures ok { OnOk result (GivesSink (shelves self.old) (shelves self.new) name.now) }
        ensures failed { IsErrOf result Refused.Failed →
            CreateFails (shelves self.old) (shelves self.new) name.now }
        ensures memory { IsErrOf result Refused.Memory →
            Same (shelves self.old) (shelves self.new) };

    /// Takes a source back: its count is added to its name's read faults, and what it has left is noted.
    fn back_in(&mut self, source: Self::In)
        requires { knows self.old (Self.In.stock source).name }
        ensures stays_known { StaysKnown (knows self.old) (knows self.new) }
        ensures only { BackIn (shelves self.old) (shelves self.new) (Self.In.stock source) };

    /// Takes a sink back: its count is added to its name's write faults, and what it holds stands under the name
    /// in place of what stood there.
    fn back_out(&mut self, sink: Self::Out)
        requires { knows self.old (Self.Out.paper sink).name }
        ensures stays_known { StaysKnown (knows self.old) (knows self.new) }
        ensures only { BackOut (shelves self.old) (shelves self.new) (Self.Out.paper sink) };
}
