ghost use Rattle.std.specs.Prelude.{◌≡◌, ◌≤◌, ◌<◌, ◌^◌, ◌∷◌, [], true, length, map, IfOk, IfErr, OnOk, MatchResult};
ghost use Rattle.std.specs.declared.option.Option.TheVariants.{Some, None};
ghost use Rattle.rmt_values.specs.Rows.{Shape, is_empty};
ghost use Rattle.rmt_model.specs.Words.{Each};
ghost use Rattle.rmt_state.specs.States.{IsNumber};
ghost use Rattle.rmt_sql_acts.specs.Acts.{HasSmallCommand};
ghost use Rattle.rmt_sql.specs.Script.{KeepsLimits};
ghost use Rattle.rmt_play.specs.Checks.{
  first_of,
  is_played as statement_test,
  refused_schema,
  refused_columns,
  too_many_tables,
  replica_at,
  unknown_replica,
};
ghost use Rattle.rmt_play.specs.Plays.{Counts, Creates, ExecutesSent, OneLine, RepliesTo};
ghost use Rattle.rmt_play.specs.Shown.{Agrees, HasReplicas};
ghost use Rattle.rmt_play.specs.Offered.{OffersAct, OffersStatement};
ghost use Rattle.rmt_play.specs.PlayerSteps.{
  ActsAt,
  Answers,
  CreatesNone,
  RunsAt,
  IsCount,
  IsPlaceAmong,
  IsCreateRefusal,
  IsEmptyPlayer,
  IsReplied,
  IsSound,
  IsSoundIn,
  clusters_in,
  view_of,
  Moves,
  TurnsAll,
  is_up as up_test,
  most_refusals,
  refusals_told,
  ExecutesCreate,
  ExecutesKill,
  ExecutesPlayed,
  ExecutesRestart,
  ExecutesRun,
};

use crate::answer::Answer;
use crate::clusters::Clusters;
use crate::engine::Engine;
use crate::forms::table_of;
use crate::replicas::replica_named;
use crate::schema::new_schema;
use crate::turns::in_range;
use rmt_cluster::Cluster;
use rmt_list::List;
use rmt_reply::{Line, Refusal};
use rmt_statements::{Act, Sent, Statement};
use rmt_values::{Column, Limit, Name, ReplicaId, Schema, SchemaError};
use std::alloc::{AllocError, Global};

/// The most tables of a script.
pub(crate) const MOST_TABLES: usize = 4;

/// The most replicas.
const MOST_REPLICAS: u8 = 8;

/// The replicas, which of them are up, and the tables with their names.
#[derive(Drop)]
pub(crate) struct Player<E: Engine> {
    replicas: u8,
    up: [bool; 8],
    names: Vec<Name>,
    engine: E,
}

/// The place of the table of this name.
fn place_of(names: &[Name], name: &Name) -> Option<usize>
    ensures { IsPlaceAmong names.now name.now result }
{
    'names: for i in 0..names.len() {
        let named = &names[i];
        if named.is(name.as_bytes()) {
            return Some(i);
        }
    }
    None
}

/// What a statement that was played comes to.
fn replied(line: Result<Line, AllocError>) -> Result<Answer, AllocError>
    ensures { IsReplied line result }
{
    match line {
        Ok(line) => Ok(Answer::Reply(line)),
        Err(error) => Err(error),
    }
}

impl Player<Clusters> {
    /// One with two replicas and no table.
    pub(crate) fn new(alloc: Global) -> Player<Clusters>
        ensures empty { IsEmptyPlayer (clusters_in result) }
        ensures sound { IsSoundIn result }
    {
        Player {
            replicas: 2,
            up: [true; 8],
            names: Vec::new(alloc),
            engine: Clusters::new(alloc),
        }
    }

    /// Adds a table without rows. At an error no memory was left, and the table isn't there.
    pub(crate) fn add(
        &mut self,
        alloc: Global,
        name: Name,
        schema: Schema,
    ) -> Result<Line, AllocError>
        requires sound { IsSoundIn self.old }
        ensures sound { IsSoundIn self.new }
        ensures adds { IfOk result (λ line. Moves (clusters_in self.old)
            (λ w v. Creates w name schema line v) (clusters_in self.new)) }
    {
        self.names.reserve(1)?;
        self.engine.add(alloc, schema, self.replicas, &self.up)?;
        self.names.push(name)?;
        Ok(Line::Okay)
    }

    /// The clusters of the tables, in their order. At an error no memory was left.
    pub(crate) fn into_clusters(self, alloc: Global) -> Result<List<Cluster>, AllocError>
        requires sound { IsSoundIn self }
        ensures clusters { IfOk result (λ clusters.
            clusters ≡ map (λ t. t.table) (clusters_in self).tables) }
        ensures replicas { IfOk result
            (Each (HasReplicas self.replicas (up_test self.replicas self.up))) }
        ensures agree { IfOk result (Each Agrees) }
    {
        self.engine.into_list(alloc)
    }
}

impl<E: Engine> Player<E> {
    /// One of these replicas and tables.
    pub(crate) fn from_parts(replicas: u8, up: [bool; 8], names: Vec<Name>, engine: E) -> Player<E>
        ensures { result ≡ record { replicas = replicas; up = up; names = names; engine = engine } }
    {
        Player {
            replicas,
            up,
            names,
            engine,
        }
    }

    /// Its replicas and tables.
    pub(crate) fn into_parts(self) -> (u8, [bool; 8], Vec<Name>, E)
        ensures { self ≡ record { replicas = result.0; up = result.1; names = result.2; engine = result.3 } }
    {
        let Player {
            replicas,
            up,
            names,
            engine,
        } = self;
        (replicas, up, names, engine)
    }

    /// Sets how many replicas there are, all of them up. There is no table yet.
    fn count(&mut self, count: u8) -> Line
        requires sound { IsSound E.sights E.tables self.old }
        requires empty { is_empty (view_of E.sights E.tables self.old).tables ≡ true }
        requires range { IsCount count }
        ensures sound { IsSound E.sights E.tables self.new }
        ensures moves { Moves (view_of E.sights E.tables self.old) (λ w v. Counts w count result v)
            (view_of E.sights E.tables self.new) }
    {
        self.replicas = count;
        self.up = [true; 8];
        Line::Okay
    }

    /// The refusal of another table, where there are as many as there may be.
    fn full(&self) -> Option<Refusal>
        requires sound { IsSound E.sights E.tables self.now }
        ensures { result ≡ too_many_tables (length (view_of E.sights E.tables self.now).tables) }
    {
        let value = self.names.len();
        if value < MOST_TABLES {
            return None;
        }
        Some(Refusal::LimitReached {
            limit: Limit::Tables,
            value: value as u64,
        })
    }

    /// Why no table is made of a schema that is refused.
    fn refusal_of(&self, error: SchemaError) -> Refusal
        requires sound { IsSound E.sights E.tables self.now }
        requires refused { IsCreateRefusal error }
        ensures { first_of (refused_schema (Some error)
            ∷ too_many_tables (length (view_of E.sights E.tables self.now).tables)
            ∷ refused_columns (Some error) ∷ []) ≡ Some result }
    {
        match error {
            SchemaError::UnknownColumn(name) => Refusal::UnknownColumn(name),
            SchemaError::DoubleColumn(name) => Refusal::DoubleColumn(name),
            SchemaError::WrongType(name) => Refusal::WrongType(name),
            SchemaError::LimitReached { limit, value } => match self.full() {
                Some(refusal) => refusal,
                None => Refusal::LimitReached { limit, value },
            },
            SchemaError::NoColumns | SchemaError::Memory => unreachable!(),
        }
    }

    /// Whether a table is to be made of a schema, or why not.
    fn create(&self, table: Name, made: Result<Schema, SchemaError>) -> Answer
        requires sound { IsSound E.sights E.tables self.now }
        requires refused { IfErr made IsCreateRefusal }
        ensures answers { MatchResult made
            (λ schema. Answers (view_of E.sights E.tables self.now)
            (OneLine (ExecutesCreate table None schema)) result (view_of E.sights E.tables self.now))
            (λ e. Answers (view_of E.sights E.tables self.now)
            (OneLine (CreatesNone table e)) result (view_of E.sights E.tables self.now)) }
        ensures few { refusals_told result ≤ 1 }
    {
        if place_of(&self.names, &table).is_some() {
            return Answer::Reply(Line::Refused(Refusal::TableExists(table)));
        }
        match made {
            Err(error) => Answer::Reply(Line::Refused(self.refusal_of(error))),
            Ok(schema) => match self.full() {
                Some(refusal) => Answer::Reply(Line::Refused(refusal)),
                None => Answer::Creates { table, schema },
            },
        }
    }

    /// The number of the replica of this name, the first one where none is named, or the refusal of one that isn't there.
    fn replica(&self, name: &Option<Name>) -> Result<Result<ReplicaId, Refusal>, AllocError>
        requires sound { IsSound E.sights E.tables self.now }
        ensures at { IfOk result (λ found.
            IfOk found (λ r. replica_at self.now.replicas name.now ≡ Some r)) }
        ensures there { IfOk result (λ found. IfOk found (λ r. IsNumber r self.now.replicas)) }
        ensures refused { IfOk result (λ found.
            IfErr found (λ e. unknown_replica self.now.replicas name.now ≡ Some e)) }
    {
        let count = self.replicas;
        let Some(name) = name else {
            return Ok(Ok(1));
        };
        match replica_named(name, count) {
            Some(number) => Ok(Ok(number)),
            None => Ok(Err(Refusal::UnknownReplica(name.copy()?))),
        }
    }

    /// Whether a replica is up.
    fn is_up(&self, replica: ReplicaId) -> bool
        requires sound { IsSound E.sights E.tables self.now }
        requires known { IsNumber replica self.now.replicas }
        ensures { result ≡ up_test self.now.replicas self.now.up replica }
    {
        self.up[usize::from(replica) - 1]
    }

    /// Ends a replica's session in each table, or begins another one. At an error no memory was left, and the tables are gone.
    fn turn(&mut self, alloc: Global, replica: ReplicaId, is_up: bool) -> Result<(), AllocError>
        requires sound { IsSound E.sights E.tables self.old }
        requires replica { IsNumber replica self.old.replicas }
        ensures sound { IsSound E.sights E.tables self.new }
        ensures turns { OnOk result (TurnsAll (view_of E.sights E.tables self.old) replica is_up
            (view_of E.sights E.tables self.new)) }
    {
        match self.engine.turn(alloc, replica, is_up) {
            Ok(()) => {
                self.up[usize::from(replica) - 1] = is_up;
                Ok(())
            }
            Err(error) => {
                // The replica may be up in some tables and down in others.
                self.forget();
                Err(error)
            }
        }
    }

    /// Forgets the tables, of which one may have stopped halfway.
    fn forget(&mut self)
        requires some { 0 < self.old.replicas }
        requires few { self.old.replicas ≤ 8 }
        requires eight { length self.old.up ≡ 8 }
        ensures empty { view_of E.sights E.tables self.new
            ≡ record (view_of E.sights E.tables self.old) { tables = [] } }
        ensures sound { IsSound E.sights E.tables self.new }
    {
        self.names.clear();
        self.engine.clear();
    }

    /// Plays a KILL.
    fn kill(&mut self, alloc: Global, name: Name) -> Result<Line, AllocError>
        requires sound { IsSound E.sights E.tables self.old }
        ensures sound { IsSound E.sights E.tables self.new }
        ensures moves { IfOk result (λ line. Moves (view_of E.sights E.tables self.old)
            (ExecutesKill E.sights.workers name line) (view_of E.sights E.tables self.new)) }
    {
        let Some(replica) = replica_named(&name, self.replicas) else {
            return Ok(Line::Refused(Refusal::UnknownReplica(name)));
        };
        if !self.is_up(replica) {
            return Ok(Line::Refused(Refusal::ReplicaDown(replica)));
        }
        self.turn(alloc, replica, false)?;
        Ok(Line::Okay)
    }

    /// Plays a RESTART.
    fn restart(&mut self, alloc: Global, name: Name) -> Result<Line, AllocError>
        requires sound { IsSound E.sights E.tables self.old }
        ensures sound { IsSound E.sights E.tables self.new }
        ensures moves { IfOk result (λ line. Moves (view_of E.sights E.tables self.old)
            (ExecutesRestart E.sights.workers name line) (view_of E.sights E.tables self.new)) }
    {
        let Some(replica) = replica_named(&name, self.replicas) else {
            return Ok(Line::Refused(Refusal::UnknownReplica(name)));
        };
        if self.is_up(replica) {
            return Ok(Line::Refused(Refusal::ReplicaUp(replica)));
        }
        self.turn(alloc, replica, true)?;
        Ok(Line::Okay)
    }

    /// Does an act in the table at a place, or refuses it. At an error no memory was left, and the tables are gone.
    fn act(
        &mut self,
        alloc: Global,
        place: usize,
        replica: ReplicaId,
        act: &Act,
    ) -> Result<Line, AllocError>
        requires sound { IsSound E.sights E.tables self.old }
        requires place { place < length (view_of E.sights E.tables self.old).tables }
        requires replica { IsNumber replica self.old.replicas }
        requires small { HasSmallCommand act.now }
        requires offered { OffersAct E.sights.offers act.now }
        ensures sound { IsSound E.sights E.tables self.new }
        ensures acts { IfOk result (λ line.
            ActsAt (view_of E.sights E.tables self.old) place replica act.now line
            (view_of E.sights E.tables self.new)) }
    {
        let is_up = self.is_up(replica);
        match self.engine.act(alloc, place, replica, is_up, act) {
            Ok(line) => Ok(line),
            Err(error) => {
                // A table in which an act stopped halfway isn't idle.
                self.forget();
                Err(error)
            }
        }
    }

    /// Does background work in the table at a place. At an error no memory was left, and the tables are gone.
    fn work(
        &mut self,
        alloc: Global,
        place: usize,
        turns: u32,
        seed: u32,
    ) -> Result<Line, AllocError>
        requires sound { IsSound E.sights E.tables self.old }
        requires place { place < length (view_of E.sights E.tables self.old).tables }
        requires seed { seed < 2 ^ 31 }
        ensures sound { IsSound E.sights E.tables self.new }
        ensures runs { IfOk result (λ line.
            RunsAt (view_of E.sights E.tables self.old) place turns seed line
            (view_of E.sights E.tables self.new)) }
    {
        match self.engine.work(alloc, place, turns, seed) {
            Ok(line) => Ok(line),
            Err(error) => {
                // A table in which a turn stopped halfway isn't idle.
                self.forget();
                Err(error)
            }
        }
    }

    /// Plays a RUN.
    fn run(
        &mut self,
        alloc: Global,
        table: Name,
        turns: u128,
        seed: u128,
    ) -> Result<Line, AllocError>
        requires sound { IsSound E.sights E.tables self.old }
        ensures sound { IsSound E.sights E.tables self.new }
        ensures moves { IfOk result (λ line. Moves (view_of E.sights E.tables self.old)
            (ExecutesRun E.sights.workers table turns seed line)
            (view_of E.sights E.tables self.new)) }
    {
        let Some(place) = place_of(&self.names, &table) else {
            return Ok(Line::Refused(Refusal::UnknownTable(table)));
        };
        match in_range(turns, seed) {
            Some((turns, seed)) => {
                let line = self.work(alloc, place, turns, seed)?;
                Ok(line)
            }
            None => {
                let word = Name::from_slice(alloc, b"RUN")?;
                Ok(Line::Refused(Refusal::WrongType(word)))
            }
        }
    }

    /// Plays what is sent to a replica.
    pub(crate) fn send(&mut self, alloc: Global, sent: &Sent) -> Result<Line, AllocError>
        requires sound { IsSound E.sights E.tables self.old }
        requires small { HasSmallCommand sent.now.act }
        requires offered { OffersAct E.sights.offers sent.now.act }
        ensures sound { IsSound E.sights E.tables self.new }
        ensures moves { IfOk result (λ line. Moves (view_of E.sights E.tables self.old)
            (ExecutesSent E.sights.workers sent.now line) (view_of E.sights E.tables self.new)) }
    {
        let table = table_of(&sent.act);
        let Some(place) = place_of(&self.names, table) else {
            return Ok(Line::Refused(Refusal::UnknownTable(table.copy()?)));
        };
        match self.replica(&sent.replica)? {
            Ok(replica) => {
                let line = self.act(alloc, place, replica, &sent.act)?;
                Ok(line)
            }
            Err(refusal) => Ok(Line::Refused(refusal)),
        }
    }

    /// Whether the statement is played where it stands.
    fn is_played(&self, statement: &Statement) -> bool
        requires sound { IsSound E.sights E.tables self.now }
        ensures { result
            ≡ statement_test (length (view_of E.sights E.tables self.now).tables) statement.now }
    {
        match statement {
            Statement::Replicas { count } => {
                1 <= *count && *count <= MOST_REPLICAS && self.names.is_empty()
            }
            Statement::Create { .. }
            | Statement::Kill { .. }
            | Statement::Restart { .. }
            | Statement::Run { .. }
            | Statement::Lanes { .. }
            | Statement::At(_) => true,
        }
    }

    /// Plays a statement that isn't out of place, but for a CREATE that meets no refusal.
    fn perform(&mut self, alloc: Global, statement: Statement) -> Result<Answer, AllocError>
        requires sound { IsSound E.sights E.tables self.old }
        requires played { statement_test (length (view_of E.sights E.tables self.old).tables) statement ≡ true }
        requires limits { KeepsLimits statement }
        requires offered { OffersStatement E.sights.offers statement }
        ensures sound { IsSound E.sights E.tables self.new }
        ensures answers { IfOk result (λ a. Answers (view_of E.sights E.tables self.old)
            (ExecutesPlayed E.sights.workers statement) a (view_of E.sights E.tables self.new)) }
        ensures few { IfOk result (λ a. refusals_told a ≤ most_refusals statement) }
    {
        match statement {
            Statement::Replicas { count } => Ok(Answer::Reply(self.count(count))),
            Statement::Create {
                table,
                columns,
                partition,
                key,
                granularity,
                window,
            } => {
                let made = new_schema(alloc, columns, partition, key, granularity, window)?;
                Ok(self.create(table, made))
            }
            Statement::Kill { replica } => replied(self.kill(alloc, replica)),
            Statement::Restart { replica } => replied(self.restart(alloc, replica)),
            Statement::Run { table, turns, seed } => replied(self.run(alloc, table, turns, seed)),
            Statement::Lanes { lanes } => {
                let reply = self.lanes(alloc, lanes.as_slice())?;
                Ok(Answer::Lanes(reply))
            }
            Statement::At(sent) => replied(self.send(alloc, &sent)),
        }
    }

    /// Passes the point after the reply of a statement.
    pub(crate) fn answered(&mut self)
        requires sound { IsSound E.sights E.tables self.old }
        ensures sound { IsSound E.sights E.tables self.new }
        ensures unchanged { view_of E.sights E.tables self.new ≡ view_of E.sights E.tables self.old }
    {
        self.engine.answered();
    }

    /// Plays a statement that begins at this place of its script, but for a CREATE that meets no refusal.
    pub(crate) fn play(
        &mut self,
        alloc: Global,
        statement: Statement,
        start: usize,
    ) -> Result<Answer, AllocError>
        requires sound { IsSound E.sights E.tables self.old }
        requires limits { KeepsLimits statement }
        requires offered { OffersStatement E.sights.offers statement }
        ensures sound { IsSound E.sights E.tables self.new }
        ensures answers { IfOk result (λ a. Answers (view_of E.sights E.tables self.old)
            (RepliesTo E.sights.workers statement start) a (view_of E.sights E.tables self.new)) }
        ensures few { IfOk result (λ a. refusals_told a ≤ most_refusals statement) }
    {
        if self.is_played(&statement) {
            self.perform(alloc, statement)
        } else {
            let refusal = Refusal::Syntax { offset: start };
            Ok(Answer::Reply(Line::Refused(refusal)))
        }
    }
}
