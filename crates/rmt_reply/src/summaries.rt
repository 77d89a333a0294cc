//! The summary of a workload.
ghost use Rattle.std.specs.Prelude.{◌≡◌, ◌++◌, not, count_by, IfOk, OnOk};
ghost use Rattle.rmt_reply.specs.Printed.{records_text};
ghost use Rattle.rmt_reply.specs.Summaries.{
  accepted_in,
  duplicates_in,
  figure_text,
  is_part as part_test,
  is_refused,
  pieces_of as blocks_of,
  summary_text,
  total_of,
  total_text,
  totals_text,
};

use crate::line::Line;
use crate::piece::Piece;
use crate::records::push_records;
use crate::replies::push_line;
use crate::texts::{push_number, push_replica, push_text};
use rmt_values::ReplicaId;
use std::alloc::{AllocError, Global};

/// The statements before those that a summary counts, and those behind them.
const OTHERS: usize = 5;

/// The statements that read what each replica has.
const LAST: usize = 3;

/// Whether a block was written as a part.
fn is_part(piece: &Piece) -> bool
    ensures { result ≡ part_test piece.now }
{
    match piece {
        Piece::Part(_) => true,
        Piece::Duplicate(_) => false,
    }
}

/// The blocks of an INSERT; none of another reply.
fn pieces_of(line: &Line) -> &[Piece]
    ensures { result.now ≡ blocks_of line.now }
{
    match line {
        Line::Inserted { pieces, .. } => pieces.as_slice(),
        _ => &[],
    }
}

/// How many of these blocks were written.
fn written_in(pieces: &[Piece]) -> usize
    ensures { result ≡ count_by part_test pieces.now }
{
    let mut count = 0;
    'pieces: for piece in pieces {
        count += usize::from(is_part(piece));
    }
    count
}

/// How many of these repeated others.
fn repeated_in(pieces: &[Piece]) -> usize
    ensures { result ≡ count_by (λ piece. not (part_test piece)) pieces.now }
{
    let mut count = 0;
    'pieces: for piece in pieces {
        count += usize::from(!is_part(piece));
    }
    count
}

/// How many blocks were written.
fn accepted(lines: &[Line]) -> u128
    ensures { result ≡ accepted_in lines.now }
{
    let mut count = 0;
    'lines: for line in lines {
        count += written_in(pieces_of(line)) as u128;
    }
    count
}

/// How many repeated others.
fn duplicates(lines: &[Line]) -> u128
    ensures { result ≡ duplicates_in lines.now }
{
    let mut count = 0;
    'lines: for line in lines {
        count += repeated_in(pieces_of(line)) as u128;
    }
    count
}

/// How many replies tell of a refusal.
pub fn refused_in(lines: &[Line]) -> usize
    ensures { result ≡ count_by is_refused lines.now }
{
    let mut count = 0;
    'lines: for line in lines {
        count += usize::from(line.is_refused());
    }
    count
}

/// Adds a count, as a line.
fn push_figure(alloc: Global, out: &mut Vec<u8>, name: &[u8], count: u128) -> Result<(), AllocError>
    ensures { OnOk result (out.new.items ≡ out.old.items ++ figure_text name.now count) }
{
    push_text(out, name)?;
    push_text(out, b" ")?;
    push_number(alloc, out, count)?;
    push_text(out, b"\n")?;
    Ok(())
}

/// Adds what was read at a replica.
fn push_total(
    alloc: Global,
    out: &mut Vec<u8>,
    replica: ReplicaId,
    line: &Line,
) -> Result<(), AllocError>
    ensures { OnOk result (out.new.items ≡ out.old.items ++ total_text replica line.now) }
{
    push_replica(alloc, out, replica)?;
    push_text(out, b" ")?;
    match line {
        Line::Rows(rows) => push_records(alloc, out, rows.as_slice()),
        _ => push_line(alloc, out, line),
    }
}

/// Adds what was read at each of three replicas.
fn push_totals(alloc: Global, out: &mut Vec<u8>, lines: &[Line]) -> Result<(), AllocError>
    ensures { OnOk result (out.new.items ≡ out.old.items ++ totals_text lines.now) }
{
    match lines {
        [first, second, third] => {
            push_total(alloc, out, 1, first)?;
            push_total(alloc, out, 2, second)?;
            push_total(alloc, out, 3, third)?;
            Ok(())
        }
        _ => Ok(()),
    }
}

/// The summary of a workload's replies: seven lines. The first two statements and the last three are not counted as its statements, and
/// the last three read what each of three replicas has; each statement has one reply. At an error no memory was left.
pub fn summary(alloc: Global, lines: &[Line]) -> Result<Vec<u8>, AllocError>
    ensures { IfOk result (λ bytes. bytes.items ≡ summary_text lines.now) }
{
    let mut out = Vec::new(alloc);
    let statements = lines.len().saturating_sub(OTHERS);
    let (_, last) = lines.split_at(lines.len().saturating_sub(LAST));
    push_figure(alloc, &mut out, b"statements", statements as u128)?;
    push_figure(alloc, &mut out, b"accepted", accepted(lines))?;
    push_figure(alloc, &mut out, b"duplicate", duplicates(lines))?;
    push_figure(alloc, &mut out, b"refused", refused_in(lines) as u128)?;
    push_totals(alloc, &mut out, last)?;
    Ok(out)
}
