//! All desks and workers of an office at once.

ghost use Rattle.std.specs.Prelude.{◌≡◌, ◌+◌, ◌≤◌, ◌<◌, [], All, IfSome, IsSome, false, length, map, reverse, true};
ghost use Rattle.std.specs.Prelude.{vec_capacity, vec_len};
ghost use Rattle.std.specs.Option.{option_map};
ghost use Rattle.accounts_history.specs.History.{IsLawful, journal};
ghost use Rattle.compile_workers.specs.Parties.{AreFirstPasses, AreJoined, AreOfDesks, AreServed};
ghost use Rattle.compile_workers.specs.Parties.{CanJoin, HasRun, HaveRun};
ghost use Rattle.compile_workers.specs.Parties.{IsPlaced, PutsParty, TakesParty};
ghost use Rattle.compile_workers.specs.DeskEnd.{ends_told};
ghost use Rattle.compile_workers.specs.Parties.{desk_ends_in, ends_in, passes_in, places_with};

use crate::desk::{DeskEnd, serve_desk};
use crate::workers::work;
use accounts_core::Core;
use desk_lock::Pass;
use office::{CoreBook, Office};
use qna_edges::{Gate, Sink, Source};
use series_tables::Plan;
use std::alloc::Global;
use std::marker::Model;
use std::sync::Wait;
use std::thread::{Threads, for_each_mut};

/// Where a desk's lines come from, and where its answers go.
#[derive(Drop)]
pub struct DeskEnds<S: Source, K: Sink> {
    pub source: S,
    pub sink: K,
}

/// What is left when all parties have ended.
#[derive(Drop)]
pub struct Served<S: Source, K: Sink> {
    /// The office's core.
    pub core: Core,
    /// The pass into which all others were joined. No call takes it any more.
    pub pass: Pass<CoreBook>,
    /// The desks' sources and sinks, in their order.
    pub desks: Vec<DeskEnds<S, K>>,
    /// How each desk ended, in their order; none where memory was wanted before the first began.
    pub ends: Vec<DeskEnd>,
    /// Memory was wanted outside the desks and workers.
    pub memory: bool,
}

/// A party in its place: its pass, and a desk's two ends with how it ended. A worker has no ends.
#[derive(Drop)]
struct Party<S: Source, K: Sink> {
    pass: Option<Pass<CoreBook>>,
    desk: Option<DeskEnds<S, K>>,
    end: DeskEnd,
}

impl<S: Source, K: Sink> Model for Party<S, K> {
    ghost use Rattle.std.specs.Option.{option_map};
    ghost use Rattle.compile_workers.specs.DeskEnd.{ends_told};
    ghost use Rattle.compile_workers.specs.Parties.{Place, place_of};

    ghost Value = { Place };

    ghost view = { λ p. place_of p.pass
        (option_map (λ d. ends_told (S.stock d.source) (K.paper d.sink)) p.desk) p.end };
}

/// Room for the parties of an office, and for the ends of its desks.
#[derive(Drop)]
struct Room<S: Source, K: Sink> {
    parties: Vec<Party<S, K>>,
    ends: Vec<DeskEnd>,
}

/// Serves the desks of an office and lets its workers work, all at once, and closes the office once all have ended. The
/// passes are those of `Office::new`, in their order, and there are as many desks as the office has.
///
/// Where memory is wanted before the first party begins, no desk is served.
pub fn serve_parties<S: Source, K: Sink, G: Gate, R: Threads + Wait + Sync>(
    rt: &R,
    alloc: Global,
    office: Office,
    plan: &Plan,
    passes: Vec<Pass<CoreBook>>,
    desks: Vec<DeskEnds<S, K>>,
    gate: &G,
) -> Served<S, K>
    requires desks { (1 ≤ vec_len desks) × (vec_len desks ≤ 16) }
    requires passes { AreFirstPasses office plan.now (vec_len desks) passes.items }
    ensures plan { result.core.plan ≡ plan.now }
    ensures seen { result.core.history ≡ result.pass.seen }
    ensures lawful { IsLawful plan.now result.core.history }
    ensures desks { AreServed plan.now (journal result.core.history) 1
        (map (λ d. ends_told (S.stock d.source) (K.paper d.sink)) desks.items)
        (map (λ d. ends_told (S.stock d.source) (K.paper d.sink)) result.desks.items)
        result.ends.items }
    ensures ends { result.memory ≡ false → vec_len result.ends ≡ vec_len desks }
    ensures senders { AreOfDesks (vec_len desks) (journal result.core.history) }
{
    let Some(room) = room_for(alloc, passes.len(), desks.len()) else {
        return close_unserved(alloc, office, plan, passes, desks);
    };
    let (mut room, mut desks) = (room, desks);
    place_all(passes, &mut desks, &mut room.parties);
    run_placed(rt, alloc, &office, plan, &mut room.parties, gate);
    let pass = take_all(&office, &mut room, &mut desks);
    let (core, pass) = office.close(pass);
    Served {
        core,
        pass,
        desks,
        ends: room.ends,
        memory: false,
    }
}

/// Room for so many parties and desks, or none for want of memory.
fn room_for<S: Source, K: Sink>(alloc: Global, parties: usize, desks: usize) -> Option<Room<S, K>>
    ensures empty { IfSome result (λ room.
        (room.parties.items ≡ []) × (room.ends.items ≡ [])) }
    ensures parties { IfSome result (λ room. parties ≤ vec_capacity room.parties) }
    ensures desks { IfSome result (λ room. desks ≤ vec_capacity room.ends) }
{
    let parties = Vec::with_capacity(alloc, parties).ok()?;
    let ends = Vec::with_capacity(alloc, desks).ok()?;
    Some(Room { parties, ends })
}

/// Closes an office whose desks weren't served.
fn close_unserved<S: Source, K: Sink>(
    alloc: Global,
    office: Office,
    plan: &Plan,
    passes: Vec<Pass<CoreBook>>,
    desks: Vec<DeskEnds<S, K>>,
) -> Served<S, K>
    requires desks { (1 ≤ vec_len desks) × (vec_len desks ≤ 16) }
    requires passes { AreFirstPasses office plan.now (vec_len desks) passes.items }
    ensures plan { result.core.plan ≡ plan.now }
    ensures history { result.core.history ≡ [] }
    ensures seen { result.pass.seen ≡ [] }
    ensures lawful { IsLawful plan.now result.core.history }
    ensures desks { result.desks ≡ desks }
    ensures ends { result.ends.items ≡ [] }
    ensures memory { result.memory ≡ true }
{
    let _ = plan;
    let pass = join_all(&office, passes);
    let (core, pass) = office.close(pass);
    Served {
        core,
        pass,
        desks,
        ends: Vec::new(alloc),
        memory: true,
    }
}

/// Joins passes into the first one, in their order.
fn join_all(office: &Office, passes: Vec<Pass<CoreBook>>) -> Pass<CoreBook>
    requires { CanJoin office.now passes.items }
    ensures { AreJoined passes.items result }
{
    let mut rest = passes;
    let mut pass = rest.remove(0);
    'joining: while !rest.is_empty() {
        let other = rest.remove(0);
        pass = office.join(pass, other);
    }
    pass
}

/// Puts each party in its place, workers first and desks behind them, with the first desk last. Where no thread can be
/// made for a party, the caller runs it once those behind it have come back, so no desk is left to wait behind a
/// worker, which works until all desks have ended.
fn place_all<S: Source, K: Sink>(
    passes: Vec<Pass<CoreBook>>,
    desks: &mut Vec<DeskEnds<S, K>>,
    parties: &mut Vec<Party<S, K>>,
)
    requires enough { vec_len desks.old ≤ vec_len passes }
    requires empty { parties.old.items ≡ [] }
    requires room { vec_len passes ≤ vec_capacity parties.old }
    ensures placed { reverse parties.new.items ≡ places_with passes.items
        (map (λ d. ends_told (S.stock d.source) (K.paper d.sink)) desks.old.items) }
    ensures none_left { desks.new.items ≡ [] }
    ensures room { vec_len desks.old ≤ vec_capacity desks.new }
{
    let mut passes = passes;
    'workers: while desks.len() < passes.len() {
        put_party(&mut passes, None, parties);
    }
    'desks: while let Some(ends) = desks.pop() {
        put_party(&mut passes, Some(ends), parties);
    }
}

/// Puts the last pass in the place of a desk with these ends, or of a worker without.
fn put_party<S: Source, K: Sink>(
    passes: &mut Vec<Pass<CoreBook>>,
    desk: Option<DeskEnds<S, K>>,
    parties: &mut Vec<Party<S, K>>,
)
    requires some { 0 < vec_len passes.old }
    requires room { vec_len parties.old < vec_capacity parties.old }
    ensures put { PutsParty passes.old.items passes.new.items
        (option_map (λ d. ends_told (S.stock d.source) (K.paper d.sink)) desk)
        parties.old.items parties.new.items }
    ensures room { vec_capacity parties.old ≤ vec_capacity parties.new }
{
    let Some(pass) = passes.pop() else {
        unreachable!()
    };
    let party = Party {
        pass: Some(pass),
        desk,
        end: DeskEnd::Memory,
    };
    let Ok(()) = parties.push(party) else {
        unreachable!()
    };
}

/// Runs the parties in their places.
fn run_placed<S: Source, K: Sink, G: Gate, R: Threads + Wait + Sync>(
    rt: &R,
    alloc: Global,
    office: &Office,
    plan: &Plan,
    parties: &mut Vec<Party<S, K>>,
    gate: &G,
)
    requires some { 0 < length parties.old.items }
    requires each { All (IsPlaced office.now plan.now) parties.old.items }
    ensures { HaveRun plan.now parties.old.items parties.new.items }
{
    run_all(rt, alloc, office, plan, parties, gate);
}

/// Runs all parties at once, each in a thread of its own where one can be made.
fn run_all<S: Source, K: Sink, G: Gate, R: Threads + Wait + Sync>(
    rt: &R,
    alloc: Global,
    office: &Office,
    plan: &Plan,
    parties: &mut [Party<S, K>],
    gate: &G,
)
    requires some { 0 < length parties.old }
    requires each { All (IsPlaced office.now plan.now) parties.old }
    ensures { HaveRun plan.now parties.old parties.new }
{
    let threads = parties.len();
    for_each_mut(
        rt,
        parties,
        threads,
        &|_, party: &mut Party<S, K>|
            requires { IsPlaced office.now plan.now party.now }
            ensures { HasRun plan.entry.now party.entry.now party.exit.now }
        { run_party(rt, alloc, office, plan, party, gate) },
    );
}

/// Serves a desk, or works, in its place.
fn run_party<S: Source, K: Sink, G: Gate, R: Wait>(
    rt: &R,
    alloc: Global,
    office: &Office,
    plan: &Plan,
    party: &mut Party<S, K>,
    gate: &G,
)
    requires { IsPlaced office.now plan.now party.old }
    ensures { HasRun plan.now party.old party.new }
{
    let Some(pass) = party.pass.take() else {
        unreachable!()
    };
    match &mut party.desk {
        Some(ends) => {
            let (source, sink) = (&mut ends.source, &mut ends.sink);
            let (pass, end) = serve_desk(rt, alloc, office, plan, pass, source, sink, gate);
            party.pass = Some(pass);
            party.end = end;
        }
        None => party.pass = Some(work(rt, office, pass, gate)),
    }
}

/// Takes all parties back, the first desk first, and joins their passes into its own.
fn take_all<S: Source, K: Sink>(
    office: &Office,
    room: &mut Room<S, K>,
    desks: &mut Vec<DeskEnds<S, K>>,
) -> Pass<CoreBook>
    requires passes { CanJoin office.now (passes_in (reverse room.old.parties.items)) }
    requires all { All (λ place. IsSome place.pass) room.old.parties.items }
    requires empty { (room.old.ends.items ≡ []) × (desks.old.items ≡ []) }
    requires ends_room { length (ends_in room.old.parties.items) ≤ vec_capacity room.old.ends }
    requires desks_room { length (ends_in room.old.parties.items) ≤ vec_capacity desks.old }
    ensures joined { AreJoined (passes_in (reverse room.old.parties.items)) result }
    ensures desks { map (λ d. ends_told (S.stock d.source) (K.paper d.sink)) desks.new.items
        ≡ ends_in (reverse room.old.parties.items) }
    ensures ends { room.new.ends.items ≡ desk_ends_in (reverse room.old.parties.items) }
{
    let mut pass = take_party(room, desks);
    'taking: while !room.parties.is_empty() {
        let other = take_party(room, desks);
        pass = office.join(pass, other);
    }
    pass
}

/// Takes the last party back: its pass, and a desk's two ends with how it ended.
fn take_party<S: Source, K: Sink>(
    room: &mut Room<S, K>,
    desks: &mut Vec<DeskEnds<S, K>>,
) -> Pass<CoreBook>
    requires some { 0 < vec_len room.old.parties }
    requires all { All (λ place. IsSome place.pass) room.old.parties.items }
    requires ends_room { length room.old.ends.items + length (ends_in room.old.parties.items)
        ≤ vec_capacity room.old.ends }
    requires desks_room { length desks.old.items + length (ends_in room.old.parties.items)
        ≤ vec_capacity desks.old }
    ensures taken { TakesParty room.old.parties.items room.new.parties.items result
        (map (λ d. ends_told (S.stock d.source) (K.paper d.sink)) desks.old.items)
        (map (λ d. ends_told (S.stock d.source) (K.paper d.sink)) desks.new.items)
        room.old.ends.items room.new.ends.items }
    ensures ends_room { vec_capacity room.old.ends ≤ vec_capacity room.new.ends }
    ensures desks_room { vec_capacity desks.old ≤ vec_capacity desks.new }
{
    let Some(party) = room.parties.pop() else {
        unreachable!()
    };
    let Party { pass, desk, end } = party;
    if let Some(ends) = desk {
        let Ok(()) = desks.push(ends) else {
            unreachable!()
        };
        let Ok(()) = room.ends.push(end) else {
            unreachable!()
        };
    }
    let Some(pass) = pass else { unreachable!() };
    pass
}
