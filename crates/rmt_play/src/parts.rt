//! SHOW PARTS and CHECK TABLE in their table.
ghost use Rattle.std.specs.Prelude.{◌≡◌, ℕ, List as Bytes, true, IfOk};
ghost use Rattle.rmt_state.specs.States.{IsNumber};
ghost use Rattle.rmt_acting.specs.Acting.{Leaves, KeepsShape};
ghost use Rattle.rmt_statements.specs.declared.act.Act.TheVariants as acts;
ghost use Rattle.rmt_play.specs.ActSteps.{ExecutesIn};

use crate::names::names_of;
use rmt_acting::Acting;
use rmt_list::List;
use rmt_reply::Line;
use rmt_values::ReplicaId;
use std::alloc::{AllocError, Global};

/// The names of a replica's active parts.
pub(crate) fn show_in<E: Acting>(
    alloc: Global,
    engine: &mut E,
    replica: ReplicaId,
) -> Result<Line, AllocError>
    requires here { IsNumber replica (E.seen engine.old).count }
    requires up { (E.seen engine.old).ups replica ≡ true }
    ensures executes { IfOk result (λ line. (table : Bytes ℕ)
        → ExecutesIn (E.seen engine.old) replica (acts.ShowParts table) line (E.seen engine.new)) }
    ensures leaves { Leaves (E.seen engine.old) (E.seen engine.new) }
    ensures keeps { KeepsShape (E.seen engine.old) (E.seen engine.new) }
{
    let snapshot = engine.read_parts(alloc, replica)?;
    let names = names_of(alloc, snapshot.parts())?;
    Ok(Line::Parts(names))
}

/// The digests of a replica's active parts.
pub(crate) fn check_in<E: Acting>(
    alloc: Global,
    engine: &mut E,
    replica: ReplicaId,
) -> Result<Line, AllocError>
    requires here { IsNumber replica (E.seen engine.old).count }
    requires up { (E.seen engine.old).ups replica ≡ true }
    ensures executes { IfOk result (λ line. (table : Bytes ℕ)
        → ExecutesIn (E.seen engine.old) replica (acts.CheckTable table) line (E.seen engine.new)) }
    ensures leaves { Leaves (E.seen engine.old) (E.seen engine.new) }
    ensures keeps { KeepsShape (E.seen engine.old) (E.seen engine.new) }
{
    let digests = engine.part_digests(alloc, replica)?;
    Ok(Line::Digests(List::new(digests)))
}
