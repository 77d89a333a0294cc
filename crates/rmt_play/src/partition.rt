//! Partitions as statements name them, and the acts on them in their table: DROP PARTITION and OPTIMIZE.
ghost use Rattle.std.specs.Prelude.{◌≡◌, IfOk, IfErr, OnOk, ℕ, true, List as Bytes};
ghost use Rattle.std.specs.declared.option.Option.TheVariants.{Some};
ghost use Rattle.rmt_statements.specs.Partitions.{partition_named};
ghost use Rattle.rmt_play.specs.ActRefusals.{refused_partition, refused_asked};
ghost use Rattle.rmt_play.specs.OptimizeStatement.{IsAsked};
ghost use Rattle.rmt_state.specs.States.{IsNumber};
ghost use Rattle.rmt_acting.specs.Acting.{MayAct, GoesOn, KeepsShape};
ghost use Rattle.rmt_statements.specs.declared.act.Act.TheVariants as acts;
ghost use Rattle.rmt_play.specs.ActSteps.{ExecutesIn};

use rmt_acting::Acting;
use rmt_names::PartitionId;
use rmt_reply::{Line, Refusal};
use rmt_statements::PartitionWord;
use rmt_values::{Name, ReplicaId, Schema};
use std::alloc::{AllocError, Global};

/// The partition that a word names, or the refusal of one that names none.
pub(crate) fn partition_in(
    alloc: Global,
    word: &PartitionWord,
    schema: &Schema,
) -> Result<Result<PartitionId, Refusal>, AllocError>
    ensures ok { IfOk result (λ found. IfOk found (λ p.
        partition_named schema.now.partition word.now ≡ Some p)) }
    ensures refused { IfOk result (λ found. IfErr found (λ e.
        refused_partition (partition_named schema.now.partition word.now) ≡ Some e)) }
{
    match word.partition_in(schema.partition()) {
        Some(partition) => Ok(Ok(partition)),
        None => {
            let name = Name::from_slice(alloc, b"partition")?;
            Ok(Err(Refusal::WrongType(name)))
        }
    }
}

/// The partition that a statement names, where it names one; or the refusal of a word that names none.
pub(crate) fn partition_asked(
    alloc: Global,
    word: &Option<PartitionWord>,
    schema: &Schema,
) -> Result<Result<Option<PartitionId>, Refusal>, AllocError>
    ensures ok { IfOk result (λ found. IfOk found (IsAsked schema.now.partition word.now)) }
    ensures refused { IfOk result (λ found. IfErr found (λ e.
        refused_asked schema.now.partition word.now ≡ Some e)) }
{
    let Some(word) = word else {
        return Ok(Ok(None));
    };
    match partition_in(alloc, word, schema)? {
        Ok(partition) => Ok(Ok(Some(partition))),
        Err(refusal) => Ok(Err(refusal)),
    }
}

/// Drops the blocks of a partition, or refuses to.
pub(crate) fn drop_in<E: Acting>(
    alloc: Global,
    engine: &mut E,
    replica: ReplicaId,
    word: &PartitionWord,
) -> Result<Line, AllocError>
    requires here { IsNumber replica (E.seen engine.old).count }
    requires idle { MayAct (E.seen engine.old) replica }
    ensures executes { IfOk result (λ line. (table : Bytes ℕ)
        → ExecutesIn (E.seen engine.old) replica (acts.DropPartition table word.now) line (E.seen engine.new)) }
    ensures goes_on { OnOk result (GoesOn (E.seen engine.old) (E.seen engine.new)) }
    ensures keeps { KeepsShape (E.seen engine.old) (E.seen engine.new) }
{
    match partition_in(alloc, word, engine.schema())? {
        Ok(partition) => match engine.drop_partition(alloc, replica, partition)? {
            Ok(below) => Ok(Line::Dropped { partition, below }),
            Err(refusal) => Ok(Line::Refused(refusal)),
        },
        Err(refusal) => Ok(Line::Refused(refusal)),
    }
}

/// Merges the parts of each partition into one, or of the one that is named; or refuses to.
pub(crate) fn optimize_in<E: Acting>(
    alloc: Global,
    engine: &mut E,
    replica: ReplicaId,
    word: &Option<PartitionWord>,
) -> Result<Line, AllocError>
    requires here { IsNumber replica (E.seen engine.old).count }
    requires idle { MayAct (E.seen engine.old) replica }
    requires fetches { (E.seen engine.old).fetching replica ≡ true }
    ensures executes { IfOk result (λ line. (table : Bytes ℕ)
        → ExecutesIn (E.seen engine.old) replica (acts.Optimize table word.now) line (E.seen engine.new)) }
    ensures goes_on { OnOk result (GoesOn (E.seen engine.old) (E.seen engine.new)) }
    ensures keeps { KeepsShape (E.seen engine.old) (E.seen engine.new) }
{
    match partition_asked(alloc, word, engine.schema())? {
        Ok(asked) => {
            let made = engine.optimize(alloc, replica, asked)?;
            let (names, refused) = (made.names, made.refused);
            Ok(Line::Optimized { names, refused })
        }
        Err(refusal) => Ok(Line::Refused(refusal)),
    }
}
