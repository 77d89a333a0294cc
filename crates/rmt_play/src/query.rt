//! Queries with columns by their places.
ghost use Rattle.std.specs.Prelude.{◌≡◌, IfOk, IfErr, None, Some};
ghost use Rattle.rmt_expr.specs.Queries.{IsCheckedQuery, query_refusal};
ghost use Rattle.rmt_play.specs.ActRefusals.{refused_query};

use rmt_expr::{CheckError, check_query};
use rmt_reply::Refusal;
use rmt_values::{CheckedQuery, Query, Schema};
use std::alloc::{AllocError, Global};

/// The query with columns by their places, or why it is refused.
pub(crate) fn check(
    alloc: Global,
    query: &Query,
    schema: &Schema,
) -> Result<Result<CheckedQuery, Refusal>, AllocError>
    ensures ok { IfOk result (λ found. IfOk found (IsCheckedQuery schema.now query.now)) }
    ensures known { IfOk result (λ found. IfOk found (λ _.
        query_refusal schema.now query.now ≡ None)) }
    ensures refused { IfOk result (λ found. IfErr found (λ e.
        refused_query (query_refusal schema.now query.now) ≡ Some e)) }
{
    match check_query(alloc, query, schema) {
        Ok(checked) => Ok(Ok(checked)),
        Err(CheckError::UnknownColumn(name)) => Ok(Err(Refusal::UnknownColumn(name))),
        Err(CheckError::WrongType(name)) => Ok(Err(Refusal::WrongType(name))),
        Err(CheckError::Memory) => Err(AllocError),
    }
}
