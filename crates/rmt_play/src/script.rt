ghost use Rattle.std.specs.Prelude.{
  ◌≡◌,
  ◌≢◌,
  ◌≤◌,
  ◌<◌,
  ◌+◌,
  [],
  ◌∷◌,
  length,
  IfOk,
  IfSome,
  MatchOption,
};
ghost use Rattle.rmt_sql.specs.declared.parsed.Parsed.TheVariants as parsed;
ghost use Rattle.rmt_sql.specs.Script.{ReadsAt};
ghost use Rattle.rmt_play.specs.Offered.{OffersScript};
ghost use Rattle.rmt_play.specs.PlayerSteps.{Answers, refusals_told, StepsTo, IsSound, IsSoundIn, clusters_in, view_of};
ghost use Rattle.rmt_play.specs.declared.progress.Progress.TheVariants as progress;
ghost use Rattle.rmt_play.specs.declared.round.Round.TheVariants as rounds;
ghost use Rattle.rmt_play.specs.declared.script_end.ScriptEnd.TheVariants as ends;
ghost use Rattle.rmt_outside.specs.Faults.{Rose};
ghost use Rattle.rmt_play.specs.ScriptEnds.{
  IsReply,
  IsProgress,
  IsRound,
  IsMade,
  IsEndOf,
  IsScriptEnd,
};

use crate::answer::Answer;
use crate::clusters::Clusters;
use crate::engine::Engine;
use crate::player::Player;
use crate::progress::Progress;
use crate::round::Round;
use crate::script_end::ScriptEnd;
use crate::teller::Teller;
use rmt_list::List;
use rmt_outside::WriteError;
use rmt_reply::{Line, Refusal, refused_in};
use rmt_sql::{Parsed, next_statement};
use rmt_values::{Name, Schema};
use std::alloc::{AllocError, Global};

/// Plays the next statement, but for a CREATE that meets no refusal, and gives the place after it; none at the end of the script.
fn next_answer<E: Engine>(
    alloc: Global,
    player: &mut Player<E>,
    script: &[u8],
    at: usize,
) -> Result<Option<(Answer, usize)>, AllocError>
    requires within { at ≤ length script.now }
    requires sound { IsSound E.sights E.tables player.old }
    requires offered { OffersScript E.sights.offers script.now }
    ensures step { IfOk result (λ next. MatchOption next
        (ReadsAt script.now at parsed.End × (player.new ≡ player.old))
        (λ x. Answers (view_of E.sights E.tables player.old)
        (StepsTo E.sights.workers script.now at x.1) x.0
        (view_of E.sights E.tables player.new))) }
    ensures sound { IsSound E.sights E.tables player.new }
    ensures further { IfOk result (λ next. IfSome next (λ x.
        (at < x.1) × (x.1 ≤ length script.now))) }
    ensures few { IfOk result (λ next. IfSome next (λ x. at + refusals_told x.0 ≤ x.1)) }
{
    match next_statement(alloc, script, at)? {
        Parsed::End => Ok(None),
        Parsed::Statement {
            statement,
            start,
            end,
        } => {
            let answer = player.play(alloc, statement, start)?;
            Ok(Some((answer, end)))
        }
        Parsed::Syntax { offset, end } => {
            let refusal = Refusal::Syntax { offset };
            Ok(Some((Answer::Reply(Line::Refused(refusal)), end)))
        }
    }
}

/// Tells the reply of a statement, after which the script goes on at a place.
fn tell_reply<T: Teller>(alloc: Global, reply: List<Line>, end: usize, teller: &mut T) -> Progress
    ensures reply { IsReply T.outlet reply end (T.told teller.old) (T.told teller.new) result }
    ensures cause { result ≡ progress.WriteFault → Rose (T.faults teller.old) (T.faults teller.new) }
    ensures quiet { result ≢ progress.WriteFault → T.faults teller.new ≡ T.faults teller.old }
    ensures later { T.faults teller.old ≤ T.faults teller.new }
{
    let refused = refused_in(reply.as_slice()) as u64;
    match teller.tell(alloc, reply) {
        Ok(()) => Progress::On { end, refused },
        Err(WriteError::WriteFault) => Progress::WriteFault,
        Err(WriteError::Memory) => Progress::Memory,
    }
}

/// A reply of one line. At an error no memory was left.
fn one_line(alloc: Global, line: Line) -> Result<List<Line>, AllocError>
    ensures { IfOk result (λ reply. reply ≡ line ∷ []) }
{
    let mut reply = Vec::new(alloc);
    reply.push(line)?;
    Ok(List::new(reply))
}

/// Tells a reply of one line.
pub(crate) fn tell_line<T: Teller>(
    alloc: Global,
    line: Line,
    end: usize,
    teller: &mut T,
) -> Progress
    ensures reply { IsReply T.outlet (line ∷ []) end (T.told teller.old) (T.told teller.new) result }
    ensures cause { result ≡ progress.WriteFault → Rose (T.faults teller.old) (T.faults teller.new) }
    ensures quiet { result ≢ progress.WriteFault → T.faults teller.new ≡ T.faults teller.old }
    ensures later { T.faults teller.old ≤ T.faults teller.new }
{
    match one_line(alloc, line) {
        Ok(reply) => tell_reply(alloc, reply, end, teller),
        Err(AllocError) => Progress::Memory,
    }
}

/// Passes the point after a reply that was told.
fn pass_point<E: Engine>(player: &mut Player<E>, told: Progress) -> Progress
    requires sound { IsSound E.sights E.tables player.old }
    ensures sound { IsSound E.sights E.tables player.new }
    ensures unchanged { view_of E.sights E.tables player.new ≡ view_of E.sights E.tables player.old }
    ensures same { result ≡ told }
{
    if matches!(told, Progress::On { .. }) {
        player.answered();
    }
    told
}

/// Plays the next statement, but for a CREATE that meets no refusal, and tells its reply.
fn play_next<E: Engine, T: Teller>(
    alloc: Global,
    player: &mut Player<E>,
    script: &[u8],
    at: usize,
    teller: &mut T,
) -> Progress
    requires sound { IsSound E.sights E.tables player.old }
    requires within { at ≤ length script.now }
    requires offered { OffersScript E.sights.offers script.now }
    ensures sound { IsSound E.sights E.tables player.new }
    ensures progress { IsProgress T.outlet script.now at (view_of E.sights E.tables player.old)
        (view_of E.sights E.tables player.new)
        (T.told teller.old) (T.told teller.new) result }
    ensures cause { result ≡ progress.WriteFault → Rose (T.faults teller.old) (T.faults teller.new) }
    ensures quiet { result ≢ progress.WriteFault → T.faults teller.new ≡ T.faults teller.old }
    ensures later { T.faults teller.old ≤ T.faults teller.new }
{
    match next_answer(alloc, player, script, at) {
        Ok(Some((answer, end))) => match answer {
            Answer::Reply(line) => pass_point(player, tell_line(alloc, line, end, teller)),
            Answer::Lanes(reply) => pass_point(player, tell_reply(alloc, reply, end, teller)),
            Answer::Creates { table, schema } => Progress::Creates { table, schema, end },
        },
        Ok(None) => Progress::AtEnd,
        Err(AllocError) => Progress::Memory,
    }
}

/// Plays statements from a place on, each reply told before the next one begins, up to the first CREATE that meets no refusal.
/// So many were refused before.
pub(crate) fn play_round<E: Engine, T: Teller>(
    alloc: Global,
    player: &mut Player<E>,
    script: &[u8],
    from: usize,
    count: u64,
    teller: &mut T,
) -> Round
    requires sound { IsSound E.sights E.tables player.old }
    requires within { from ≤ length script.now }
    requires few { count ≤ from }
    requires offered { OffersScript E.sights.offers script.now }
    ensures sound { IsSound E.sights E.tables player.new }
    ensures round { IsRound T.outlet script.now from count (view_of E.sights E.tables player.old)
        (view_of E.sights E.tables player.new)
        (T.told teller.old) (T.told teller.new) result }
    ensures cause { result ≡ rounds.WriteFault → Rose (T.faults teller.old) (T.faults teller.new) }
    ensures quiet { result ≢ rounds.WriteFault → T.faults teller.new ≡ T.faults teller.old }
    ensures later { T.faults teller.old ≤ T.faults teller.new }
{
    let mut at = from;
    let mut refused = count;
    'statements: loop {
        match play_next(alloc, player, script, at, teller) {
            Progress::AtEnd => return Round::AtEnd { refused },
            Progress::On { end, refused: more } => {
                at = end;
                refused += more;
            }
            Progress::Creates { table, schema, end } => {
                return Round::Creates {
                    table,
                    schema,
                    end,
                    refused,
                };
            }
            Progress::WriteFault => return Round::WriteFault,
            Progress::Memory => return Round::Memory,
        }
    }
}

/// Makes the table of a CREATE, and tells the reply, after which the script goes on at a place.
fn make_table<T: Teller>(
    alloc: Global,
    player: &mut Player<Clusters>,
    table: Name,
    schema: Schema,
    end: usize,
    teller: &mut T,
) -> Progress
    requires sound { IsSoundIn player.old }
    ensures sound { IsSoundIn player.new }
    ensures made { IsMade T.outlet table schema end (clusters_in player.old) (clusters_in player.new)
        (T.told teller.old) (T.told teller.new) result }
    ensures cause { result ≡ progress.WriteFault → Rose (T.faults teller.old) (T.faults teller.new) }
    ensures quiet { result ≢ progress.WriteFault → T.faults teller.new ≡ T.faults teller.old }
    ensures later { T.faults teller.old ≤ T.faults teller.new }
{
    match player.add(alloc, table, schema) {
        Ok(line) => tell_line(alloc, line, end, teller),
        Err(AllocError) => Progress::Memory,
    }
}

/// The end of a script that was played to its end, with so many statements refused.
fn end_of(alloc: Global, player: Player<Clusters>, refused: u64) -> ScriptEnd
    requires sound { IsSoundIn player }
    ensures { IsEndOf (clusters_in player) refused result }
{
    match player.into_clusters(alloc) {
        Ok(clusters) => ScriptEnd::Whole { refused, clusters },
        Err(AllocError) => ScriptEnd::Memory,
    }
}

/// Plays a script to its end, each reply told before the next statement begins. Tables are made between the rounds.
pub(crate) fn play<T: Teller>(alloc: Global, script: &[u8], teller: &mut T) -> ScriptEnd
    ensures end { IsScriptEnd T.outlet script.now (T.told teller.old) (T.told teller.new) result }
    ensures cause { result ≡ ends.WriteFault → Rose (T.faults teller.old) (T.faults teller.new) }
    ensures quiet { result ≢ ends.WriteFault → T.faults teller.new ≡ T.faults teller.old }
    ensures later { T.faults teller.old ≤ T.faults teller.new }
{
    let mut player = Player::new(alloc);
    let mut at = 0;
    let mut refused = 0;
    'rounds: loop {
        match play_round(alloc, &mut player, script, at, refused, teller) {
            Round::AtEnd { refused } => return end_of(alloc, player, refused),
            Round::Creates {
                table,
                schema,
                end,
                refused: count,
            } => match make_table(alloc, &mut player, table, schema, end, teller) {
                Progress::On { end, refused: more } => {
                    at = end;
                    refused = count + more;
                }
                Progress::WriteFault => return ScriptEnd::WriteFault,
                Progress::Memory => return ScriptEnd::Memory,
                Progress::AtEnd | Progress::Creates { .. } => unreachable!(),
            },
            Round::WriteFault => return ScriptEnd::WriteFault,
            Round::Memory => return ScriptEnd::Memory,
        }
    }
}
