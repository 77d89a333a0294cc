//! Replies as they are printed.
ghost use Rattle.std.specs.Prelude.{◌≡◌, ◌++◌, IfOk, OnOk};
ghost use Rattle.std.specs.List.{flat_map};
ghost use Rattle.rmt_reply.specs.Printed.{answer_text, inserted_text, lane_text, or_nothing, parts_text, piece_text, printed, printed_all};

use crate::checks::push_digests;
use crate::commands::{push_cut, push_dropped, push_mutation, push_optimized, push_ran};
use crate::counts::push_counted_granules;
use crate::line::Line;
use crate::piece::Piece;
use crate::records::push_answer;
use crate::refusal::Refusal;
use crate::refusals::push_refused;
use crate::texts::{push_number, push_part, push_parts, push_text};
use rmt_list::List;
use rmt_names::PartName;
use rmt_query::Tuple;
use std::alloc::{AllocError, Global};

/// Adds what became of one block.
fn push_piece(alloc: Global, out: &mut Vec<u8>, piece: &Piece) -> Result<(), AllocError>
    ensures { OnOk result (out.new.items ≡ out.old.items ++ piece_text piece.now) }
{
    let (word, name): (&[u8], _) = match piece {
        Piece::Part(name) => (b"part ", name),
        Piece::Duplicate(name) => (b"duplicate ", name),
    };
    push_text(out, word)?;
    push_part(alloc, out, name)?;
    push_text(out, b"\n")?;
    Ok(())
}

/// Adds what became of blocks.
fn push_pieces(alloc: Global, out: &mut Vec<u8>, pieces: &[Piece]) -> Result<(), AllocError>
    ensures { OnOk result (out.new.items ≡ out.old.items ++ flat_map piece_text pieces.now) }
{
    'pieces: for one in pieces {
        push_piece(alloc, out, one)?;
    }
    Ok(())
}

/// Adds the reply of an INSERT.
fn push_inserted(
    alloc: Global,
    out: &mut Vec<u8>,
    pieces: &List<Piece>,
    cause: &Option<Refusal>,
) -> Result<(), AllocError>
    ensures { OnOk result (out.new.items ≡ out.old.items ++ inserted_text pieces.now cause.now) }
{
    let all = pieces.as_slice();
    if all.is_empty() && cause.is_none() {
        push_text(out, b"nothing\n")?;
        return Ok(());
    }
    push_pieces(alloc, out, all)?;
    push_cut(alloc, out, cause)?;
    Ok(())
}

/// Adds the names of parts as a line.
fn push_names_line(
    alloc: Global,
    out: &mut Vec<u8>,
    names: &List<PartName>,
) -> Result<(), AllocError>
    ensures { OnOk result (out.new.items ≡ out.old.items ++ parts_text names.now) }
{
    push_text(out, b"parts")?;
    push_parts(alloc, out, names.as_slice())?;
    push_text(out, b"\n")?;
    Ok(())
}

/// Adds the parts that were read, and the rows of the answer.
fn push_read(
    alloc: Global,
    out: &mut Vec<u8>,
    names: &List<PartName>,
    rows: &List<Tuple>,
) -> Result<(), AllocError>
    ensures { let reply = parts_text names.now ++ answer_text rows.now in
        OnOk result (out.new.items ≡ out.old.items ++ reply) }
{
    push_names_line(alloc, out, names)?;
    push_answer(alloc, out, rows)?;
    Ok(())
}

/// Adds the line before the replies of a lane.
fn push_lane(alloc: Global, out: &mut Vec<u8>, number: u8) -> Result<(), AllocError>
    ensures { OnOk result (out.new.items ≡ out.old.items ++ lane_text number) }
{
    push_text(out, b"lane ")?;
    push_number(alloc, out, u128::from(number))?;
    push_text(out, b"\n")?;
    Ok(())
}

/// Adds a reply as it is printed.
pub(crate) fn push_line(alloc: Global, out: &mut Vec<u8>, line: &Line) -> Result<(), AllocError>
    ensures { OnOk result (out.new.items ≡ out.old.items ++ printed line.now) }
{
    match line {
        Line::Okay => push_text(out, b"ok\n"),
        Line::Inserted { pieces, refused } => push_inserted(alloc, out, pieces, refused),
        Line::Rows(rows) => push_answer(alloc, out, rows),
        Line::Read { parts, rows } => push_read(alloc, out, parts, rows),
        Line::Granules(granules) => push_counted_granules(alloc, out, granules),
        Line::Mutation(id) => push_mutation(alloc, out, b"mutation ", *id),
        Line::Dropped { partition, below } => push_dropped(alloc, out, *partition, *below),
        Line::Optimized { names, refused } => push_optimized(alloc, out, names, refused),
        Line::Done(id) => push_mutation(alloc, out, b"done ", *id),
        Line::Ran(turns) => push_ran(alloc, out, *turns),
        Line::Lane(number) => push_lane(alloc, out, *number),
        Line::End => push_text(out, b"end\n"),
        Line::Parts(names) => push_names_line(alloc, out, names),
        Line::Digests(digests) => push_digests(alloc, out, digests),
        Line::Refused(cause) => push_refused(alloc, out, cause),
    }
}

/// Prints a reply. At an error no memory was left.
pub fn print_line(alloc: Global, line: &Line) -> Result<Vec<u8>, AllocError>
    ensures { IfOk result (λ bytes. bytes.items ≡ printed line.now) }
{
    let mut out = Vec::new(alloc);
    push_line(alloc, &mut out, line)?;
    Ok(out)
}

/// Prints replies, one after the other. At an error no memory was left.
pub fn print(alloc: Global, lines: &[Line]) -> Result<Vec<u8>, AllocError>
    ensures { IfOk result (λ bytes. bytes.items ≡ printed_all lines.now) }
{
    let mut out = Vec::new(alloc);
    'lines: for line in lines {
        push_line(alloc, &mut out, line)?;
    }
    Ok(out)
}
