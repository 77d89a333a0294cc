//! A round of a script among workers.
ghost use Rattle.std.specs.Prelude.{◌≡◌, ◌≢◌, ◌≤◌, ◌<◌, length, map, take, IfOk, IfSome};
ghost use Rattle.std.specs.Arc.{arc_value};
ghost use Rattle.rmt_outside.specs.Faults.{Rose};
ghost use Rattle.rmt_shared.specs.SharedTables.{named};
ghost use Rattle.rmt_workers.specs.Closing.{AreAtRest};
ghost use Rattle.rmt_threaded.specs.ThreadedTables.{SameOffers};
ghost use Rattle.rmt_tickets.specs.Blank.{name_of};
ghost use Rattle.rmt_play.specs.Offered.{IsOfferedBy, OffersScript};
ghost use Rattle.rmt_play.specs.ScriptEnds.{IsRound};
ghost use Rattle.rmt_play.specs.Seats.{IsCast, IsGround, IsKnownAmong, cast_view, ground_view, schemas_named, seats_in, seats_of};
ghost use Rattle.rmt_play.specs.ThreadedRounds.{IsSpan, LeavesGround, TellsSpan};
ghost use Rattle.rmt_play.specs.declared.round.Round.TheVariants as rounds;
ghost use Rattle.rmt_play.specs.declared.threaded.span.Span.TheVariants as spans;

use crate::player::Player;
use crate::round::Round;
use crate::teller::Teller;
use crate::threaded::among::Among;
use crate::threaded::beside::beside;
use crate::threaded::cast::Cast;
use crate::threaded::client::Client;
use crate::threaded::ground::Ground;
use crate::threaded::paused::Paused;
use crate::threaded::span::Span;
use crate::threaded::workshop::Workshop;
use rmt_outside::Gate;
use rmt_pass::Pass;
use rmt_shared::Naming;
use rmt_state::State;
use rmt_threaded::Offers;
use rmt_tickets::{BlankQueue, NamesQueue, TicketQueue, Tickets};
use rmt_values::Schema;
use rmt_workers::{Carried, Crew};
use std::alloc::{AllocError, Global};
use std::marker::Brand;
use std::sync::ledger::Blank;
use std::sync::{Arc, Wait};
use std::thread::Threads;

/// Does nothing. That a reference which was handed back is used ties it to the one that lent it.
fn take_back<T>(x: &mut T)
    ensures { x.new ≡ x.old }
{}

/// Plays a round of a script from a place on, beside workers that serve tickets; so many statements were refused before.
fn play_beside<
    'a,
    N: Naming + Send + Sync,
    O: Offers,
    Q: NamesQueue + Send + Sync,
    R: Threads + Wait + Sync,
    G: Gate + Sync,
    T: Teller,
>(
    rt: &'a R,
    crew: &'a Crew<N>,
    queue: &'a TicketQueue<Q>,
    places: Vec<Tickets<Q>>,
    gate: &'a G,
    alloc: Global,
    script: &[u8],
    cast: Cast,
    schemas: Vec<Arc<Schema, Global>>,
    pass: Pass<N>,
    from: usize,
    count: u64,
    teller: &mut T,
) -> Paused<N>
    requires within { from ≤ length script.now }
    requires few { count ≤ from }
    requires offered { OffersScript O.blocks script.now }
    requires same { SameOffers O.blocks N.tables N.offered }
    requires schemas { map arc_value schemas.items ≡ schemas_named N.tables }
    requires cast { IsCast O.blocks cast (seats_of pass.up pass.tables) }
    ensures round { IsRound T.outlet script.now from count (cast_view O.blocks cast (seats_of pass.up pass.tables))
        (cast_view O.blocks result.cast (seats_in result.pass)) (T.told teller.old) (T.told teller.new) result.round }
    ensures cast { IsCast O.blocks result.cast (seats_in result.pass) }
    ensures known { IfSome result.pass (IsKnownAmong N.replicas N.tables) }
    ensures cause { result.round ≡ rounds.WriteFault → Rose (T.faults teller.old) (T.faults teller.new) }
    ensures quiet { result.round ≢ rounds.WriteFault → T.faults teller.new ≡ T.faults teller.old }
    ensures later { T.faults teller.old ≤ T.faults teller.new }
{
    let Cast {
        replicas,
        up,
        names,
        answered,
    } = cast;
    let engine = Among::<N, O, R, G>::new(rt, crew, gate, schemas, pass, answered);
    let player = Player::from_parts(replicas, up, names, engine);
    let round = Round::Memory;
    let client = Client {
        alloc,
        player,
        script,
        from,
        count,
        teller,
        round,
    };
    let shop = Workshop {
        rt,
        crew,
        queue,
        gate,
    };
    let done = beside(rt, &shop, places, client);
    let Client {
        alloc: _,
        player,
        script: _,
        from: _,
        count: _,
        teller: lent,
        round,
    } = done;
    take_back(lent);
    let (replicas, up, names, engine) = player.into_parts();
    let (answered, pass) = engine.into_parts();
    let cast = Cast {
        replicas,
        up,
        names,
        answered,
    };
    Paused { round, cast, pass }
}

/// Which replicas are up, the first one first. At an error no memory was left.
pub(crate) fn ups_of(alloc: Global, replicas: u8, up: &[bool]) -> Result<Vec<bool>, AllocError>
    requires { replicas ≤ length up.now }
    ensures { IfOk result (λ ups. ups.items ≡ take replicas up.now) }
{
    let mut ups = Vec::with_capacity(alloc, usize::from(replicas))?;
    ups.extend_from_slice(up.split_at(usize::from(replicas)).0)?;
    Ok(ups)
}

/// These tables at rest, where there are some; none at the replicas that there are now, which may be others than before. At an error no
/// memory was left.
fn with_replicas(alloc: Global, carried: Carried, cast: &Cast) -> Result<Carried, AllocError>
    requires eight { cast.now.replicas ≤ length cast.now.up }
    ensures some { IfOk result (λ c. 0 < length carried.states.items → c ≡ carried) }
    ensures none { IfOk result (λ c. (length carried.states.items ≡ 0)
        → (c.states ≡ carried.states) × (c.known ≡ carried.known) × (c.up.items ≡ take cast.now.replicas cast.now.up)) }
{
    if !carried.states.is_empty() {
        return Ok(carried);
    }
    let up = ups_of(alloc, cast.replicas, &cast.up)?;
    let Carried { states, known, .. } = carried;
    Ok(Carried { states, known, up })
}

/// What a round leaves to the next one, once no thread is left. At an error no memory was left, now or in the round.
fn leave<N: Naming, O: Offers, R: Wait>(
    rt: &R,
    alloc: Global,
    crew: Crew<N>,
    cast: Cast,
    pass: Option<Pass<N>>,
) -> Result<Ground, AllocError>
    requires same { SameOffers O.blocks N.tables N.offered }
    requires cast { IsCast O.blocks cast (seats_in pass) }
    requires known { IfSome pass (IsKnownAmong N.replicas N.tables) }
    requires few { length N.tables ≤ 4 }
    ensures { IfOk result (LeavesGround O.blocks (cast_view O.blocks cast (seats_in pass))) }
{
    let Some(pass) = pass else {
        return Err(AllocError);
    };
    let closed = crew.close(rt, pass)?;
    let carried = with_replicas(alloc, closed, &cast)?;
    Ok(Ground { cast, carried })
}

/// How a round among workers ended, once its tables are at rest.
fn span_of<N: Naming, O: Offers, R: Wait>(
    rt: &R,
    alloc: Global,
    crew: Crew<N>,
    paused: Paused<N>,
) -> Span
    requires same { SameOffers O.blocks N.tables N.offered }
    requires cast { IsCast O.blocks paused.cast (seats_in paused.pass) }
    requires known { IfSome paused.pass (IsKnownAmong N.replicas N.tables) }
    requires few { length N.tables ≤ 4 }
    ensures { TellsSpan O.blocks (cast_view O.blocks paused.cast (seats_in paused.pass)) paused.round result }
{
    let Paused { round, cast, pass } = paused;
    match round {
        Round::AtEnd { refused } => match leave::<N, O, R>(rt, alloc, crew, cast, pass) {
            Ok(ground) => Span::AtEnd { refused, ground },
            Err(AllocError) => Span::Memory,
        },
        Round::Creates {
            table,
            schema,
            end,
            refused,
        } => match leave::<N, O, R>(rt, alloc, crew, cast, pass) {
            Ok(ground) => Span::Creates {
                table,
                schema,
                end,
                refused,
                ground,
            },
            Err(AllocError) => Span::Memory,
        },
        Round::WriteFault => Span::WriteFault,
        Round::Memory => Span::Memory,
    }
}

/// The schemas of tables, in their order. At an error no memory was left.
fn schemas_of(alloc: Global, states: &[State]) -> Result<Vec<Arc<Schema, Global>>, AllocError>
    ensures { IfOk result (λ schemas. map arc_value schemas.items ≡ map (λ s. s.tree.schema) states.now) }
{
    let mut schemas = Vec::with_capacity(alloc, states.len())?;
    'states: for state in states {
        let schema = Arc::try_clone(state.tree().schema())?;
        schemas.push(schema)?;
    }
    Ok(schemas)
}

/// Plays a round of a script from a place on, among so many workers; so many statements were refused before.
fn play_among<
    N: Naming + Send + Sync,
    O: Offers,
    Q: NamesQueue + Send + Sync,
    R: Threads + Wait + Sync,
    G: Gate + Sync,
    T: Teller,
>(
    rt: &R,
    alloc: Global,
    script: &[u8],
    workers: u8,
    ground: Ground,
    from: usize,
    count: u64,
    teller: &mut T,
    gate: &G,
    entries: Blank,
    blank: BlankQueue,
) -> Span
    requires some { 0 < workers }
    requires most { workers ≤ 8 }
    requires within { from ≤ length script.now }
    requires few { count ≤ from }
    requires offered { OffersScript O.blocks script.now }
    requires ground { IsGround O.blocks ground }
    requires named { map (λ s. named s.tree) ground.carried.states.items ≡ N.tables }
    requires replicas { ground.cast.replicas ≡ N.replicas }
    requires rest { AreAtRest N.offered ground.carried.up.items ground.carried.known.items ground.carried.states.items }
    requires same { SameOffers O.blocks N.tables N.offered }
    requires name { entries.name ≡ N.entries_name }
    requires parts { entries.parts ≡ N.parts }
    requires whole { 0 < N.parts }
    requires queue { name_of blank ≡ Q.queue }
    ensures span { IsSpan T.outlet O.blocks script.now from count (ground_view O.blocks ground) (T.told teller.old) (T.told teller.new) result }
    ensures cause { result ≡ spans.WriteFault → Rose (T.faults teller.old) (T.faults teller.new) }
    ensures quiet { result ≢ spans.WriteFault → T.faults teller.new ≡ T.faults teller.old }
    ensures later { T.faults teller.old ≤ T.faults teller.new }
{
    let Ground { cast, carried } = ground;
    let (tables, replicas) = (cast.names.len() as u8, cast.replicas);
    let Ok(schemas) = schemas_of(alloc, &carried.states) else {
        return Span::Memory;
    };
    let Ok((crew, pass)) = Crew::<N>::new(alloc, carried, entries) else {
        return Span::Memory;
    };
    let (queue, counted) = TicketQueue::<Q>::open(blank);
    let Ok(places) = queue.deal(rt, alloc, counted, tables, replicas, workers) else {
        return Span::Memory;
    };
    let paused = play_beside::<N, O, Q, R, G, T>(
        rt, &crew, &queue, places, gate, alloc, script, cast, schemas, pass, from, count, teller,
    );
    span_of::<N, O, R>(rt, alloc, crew, paused)
}

/// The same, where the locks and the queue get names of their own, and all may come that the script offers.
pub(crate) fn play_span<R: Threads + Wait + Sync, G: Gate + Sync, T: Teller>(
    rt: &R,
    alloc: Global,
    script: &[u8],
    workers: u8,
    ground: Ground,
    from: usize,
    count: u64,
    teller: &mut T,
    gate: &G,
) -> Span
    requires some { 0 < workers }
    requires most { workers ≤ 8 }
    requires within { from ≤ length script.now }
    requires few { count ≤ from }
    requires ground { IsGround (IsOfferedBy script.now) ground }
    ensures span { IsSpan T.outlet (IsOfferedBy script.now) script.now from count (ground_view (IsOfferedBy script.now) ground)
        (T.told teller.old) (T.told teller.new) result }
    ensures cause { result ≡ spans.WriteFault → Rose (T.faults teller.old) (T.faults teller.new) }
    ensures quiet { result ≢ spans.WriteFault → T.faults teller.new ≡ T.faults teller.old }
    ensures later { T.faults teller.old ≤ T.faults teller.new }
{
    let Ok(blank) = BlankQueue::new(alloc) else {
        return Span::Memory;
    };
    play_among::<Brand, Brand, Brand, R, G, T>(
        rt,
        alloc,
        script,
        workers,
        ground,
        from,
        count,
        teller,
        gate,
        Blank::new(1),
        blank,
    )
}
