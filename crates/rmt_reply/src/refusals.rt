//! Refusals as they are printed.
ghost use Rattle.std.specs.Prelude.{◌≡◌, ◌++◌, OnOk};
ghost use Rattle.std.specs.Fmt.{decimal};
ghost use Rattle.rmt_names.specs.Texts.{text_of};
ghost use Rattle.rmt_reply.specs.declared.refusal.Refusal.TheVariants.{LimitReached, NoSource, Unmergeable};
ghost use Rattle.rmt_reply.specs.Printed.{limit_text, refusal_text, refused_text, replica_text, two};

use crate::refusal::Refusal;
use crate::texts::{push_number, push_part, push_replica, push_text};
use rmt_names::PartName;
use rmt_values::{Limit, Name, ReplicaId};
use std::alloc::{AllocError, Global};

/// The word of a limit.
fn word_of(limit: Limit) -> &'static [u8]
    ensures { result.now ≡ limit_text limit }
{
    match limit {
        Limit::Tables => b"tables",
        Limit::Columns => b"columns",
        Limit::Partitions => b"partitions",
        Limit::Numbers => b"numbers",
        Limit::Mutations => b"mutations",
        Limit::ClientEntries => b"client_entries",
        Limit::WorkerEntries => b"worker_entries",
        Limit::Values => b"values",
    }
}

/// Adds what comes before a text, and the text.
fn push_with_text(out: &mut Vec<u8>, prefix: &[u8], later: &[u8]) -> Result<(), AllocError>
    ensures { OnOk result (out.new.items ≡ out.old.items ++ (prefix.now ++ later.now)) }
{
    push_text(out, prefix)?;
    push_text(out, later)?;
    Ok(())
}

/// Adds what comes before a name, and the name.
fn push_with_name(out: &mut Vec<u8>, prefix: &[u8], name: &Name) -> Result<(), AllocError>
    ensures { OnOk result (out.new.items ≡ out.old.items ++ (prefix.now ++ name.now)) }
{
    push_with_text(out, prefix, name.as_bytes())?;
    Ok(())
}

/// Adds what comes before a number, and the number.
fn push_with_number(
    alloc: Global,
    out: &mut Vec<u8>,
    prefix: &[u8],
    value: u128,
) -> Result<(), AllocError>
    ensures { OnOk result (out.new.items ≡ out.old.items ++ (prefix.now ++ decimal value)) }
{
    push_text(out, prefix)?;
    push_number(alloc, out, value)?;
    Ok(())
}

/// Adds what comes before two numbers, and the numbers.
fn push_with_numbers(
    alloc: Global,
    out: &mut Vec<u8>,
    prefix: &[u8],
    first: u32,
    second: u32,
) -> Result<(), AllocError>
    ensures { let later = two (decimal first) (decimal second) in
        OnOk result (out.new.items ≡ out.old.items ++ (prefix.now ++ later)) }
{
    push_with_number(alloc, out, prefix, u128::from(first))?;
    push_with_number(alloc, out, b" ", u128::from(second))?;
    Ok(())
}

/// Adds what comes before a replica's name, and the name.
fn push_with_replica(
    alloc: Global,
    out: &mut Vec<u8>,
    prefix: &[u8],
    id: ReplicaId,
) -> Result<(), AllocError>
    ensures { OnOk result (out.new.items ≡ out.old.items ++ (prefix.now ++ replica_text id)) }
{
    push_text(out, prefix)?;
    push_replica(alloc, out, id)?;
    Ok(())
}

/// Adds what comes before a part's name, and the name.
fn push_with_part(
    alloc: Global,
    out: &mut Vec<u8>,
    prefix: &[u8],
    name: &PartName,
) -> Result<(), AllocError>
    ensures { OnOk result (out.new.items ≡ out.old.items ++ (prefix.now ++ text_of name.now)) }
{
    push_text(out, prefix)?;
    push_part(alloc, out, name)?;
    Ok(())
}

/// Adds two neighbours that can't be merged.
fn push_unmergeable(
    alloc: Global,
    out: &mut Vec<u8>,
    left: &PartName,
    right: &PartName,
) -> Result<(), AllocError>
    ensures { let refusal = Unmergeable left.now right.now in
        OnOk result (out.new.items ≡ out.old.items ++ refusal_text refusal) }
{
    push_with_part(alloc, out, b"16 Unmergeable ", left)?;
    push_with_part(alloc, out, b" ", right)?;
    Ok(())
}

/// Adds a limit, and the count that would pass it.
fn push_limit_reached(
    alloc: Global,
    out: &mut Vec<u8>,
    limit: Limit,
    value: u64,
) -> Result<(), AllocError>
    ensures { let refusal = LimitReached limit value in
        OnOk result (out.new.items ≡ out.old.items ++ refusal_text refusal) }
{
    push_with_text(out, b"18 LimitReached ", word_of(limit))?;
    push_with_number(alloc, out, b" ", u128::from(value))?;
    Ok(())
}

/// Adds a part that can't be had, and the replica that took its block and is down.
fn push_no_source(
    alloc: Global,
    out: &mut Vec<u8>,
    name: &PartName,
    id: ReplicaId,
) -> Result<(), AllocError>
    ensures { OnOk result (out.new.items ≡ out.old.items ++ refusal_text (NoSource name.now id)) }
{
    push_with_part(alloc, out, b"19 NoSource ", name)?;
    push_with_replica(alloc, out, b" ", id)?;
    Ok(())
}

/// Adds a refusal's number, its name and what it keeps.
fn push_refusal(alloc: Global, out: &mut Vec<u8>, refusal: &Refusal) -> Result<(), AllocError>
    ensures { OnOk result (out.new.items ≡ out.old.items ++ refusal_text refusal.now) }
{
    match refusal {
        Refusal::Syntax { offset } => push_with_number(alloc, out, b"1 Syntax ", *offset as u128),
        Refusal::UnknownTable(name) => push_with_name(out, b"2 UnknownTable ", name),
        Refusal::TableExists(name) => push_with_name(out, b"3 TableExists ", name),
        Refusal::UnknownReplica(name) => push_with_name(out, b"4 UnknownReplica ", name),
        Refusal::UnknownColumn(name) => push_with_name(out, b"5 UnknownColumn ", name),
        Refusal::WrongType(name) => push_with_name(out, b"6 WrongType ", name),
        Refusal::BadRow(row) => push_with_number(alloc, out, b"7 BadRow ", u128::from(*row)),
        Refusal::KeyColumn(name) => push_with_name(out, b"8 KeyColumn ", name),
        Refusal::ReplicaDown(id) => push_with_replica(alloc, out, b"9 ReplicaDown ", *id),
        Refusal::ReplicaUp(id) => push_with_replica(alloc, out, b"10 ReplicaUp ", *id),
        Refusal::FetchesStopped(id) => push_with_replica(alloc, out, b"11 FetchesStopped ", *id),
        Refusal::TooFewLive { live, need } => {
            push_with_numbers(alloc, out, b"12 TooFewLive ", *live, *need)
        }
        Refusal::QuorumPending(name) => push_with_part(alloc, out, b"13 QuorumPending ", name),
        Refusal::NotInQuorum(name) => push_with_part(alloc, out, b"14 NotInQuorum ", name),
        Refusal::QuorumUnmet { have, need } => {
            push_with_numbers(alloc, out, b"15 QuorumUnmet ", *have, *need)
        }
        Refusal::Unmergeable { left, right } => push_unmergeable(alloc, out, left, right),
        Refusal::UnknownMutation(id) => push_with_number(alloc, out, b"17 UnknownMutation ", *id),
        Refusal::LimitReached { limit, value } => push_limit_reached(alloc, out, *limit, *value),
        Refusal::NoSource { part, replica } => push_no_source(alloc, out, part, *replica),
        Refusal::DoubleColumn(name) => push_with_name(out, b"20 DoubleColumn ", name),
    }
}

/// Adds the reply of a refused statement.
pub(crate) fn push_refused(
    alloc: Global,
    out: &mut Vec<u8>,
    cause: &Refusal,
) -> Result<(), AllocError>
    ensures { OnOk result (out.new.items ≡ out.old.items ++ refused_text cause.now) }
{
    push_text(out, b"refused ")?;
    push_refusal(alloc, out, cause)?;
    push_text(out, b"\n")?;
    Ok(())
}
