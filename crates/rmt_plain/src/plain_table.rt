ghost use Rattle.std.specs.Prelude.{◌≡◌, ◌∷◌, ◌++◌, [], IfOk, OnOk, OnErr};
ghost use Rattle.rmt_plain.specs.PlainRows.{plain_rows};

use crate::accepted::Accepted;
use crate::rows_left::push_rows;
use rmt_values::Row;
use std::alloc::{AllocError, Global};
use std::marker::Model;

/// What a table accepted, in order. Contracts see the list of it.
#[derive(Drop)]
pub struct PlainTable {
    accepted: Vec<Accepted>,
}

impl Model for PlainTable {
    ghost use Rattle.std.specs.Prelude.{List};
    ghost use Rattle.std.specs.Coded.{codes};
    ghost use Rattle.rmt_values.specs.contracts.checked.Checked as filter;
    ghost use Rattle.rmt_plain.specs.declared.accepted.Accepted.{Accepted as OneAccepted};

    ghost Value = { List OneAccepted };

    ghost coded = { Prim.hlevel (codes, filter.the_row.coded) };

    ghost view = { λ t. t.accepted.items };
}

impl PlainTable {
    /// A table that accepted nothing.
    pub fn new(alloc: Global) -> PlainTable
        ensures { result ≡ [] }
    {
        PlainTable {
            accepted: Vec::new(alloc),
        }
    }

    /// Accepts one more. At an error no memory was left.
    pub fn accept(&mut self, next: Accepted) -> Result<(), AllocError>
        ensures ok { OnOk result (self.new ≡ self.old ++ next ∷ []) }
        ensures err { OnErr result (self.new ≡ self.old) }
    {
        self.accepted.push(next)?;
        Ok(())
    }

    /// The rows of its blocks that no later drop of the partition with a higher number took away: each row after the mutations,
    /// in their order, that have a number in the partition above the block's, without the rows that one of them deletes. At an
    /// error no memory was left.
    pub fn rows(&self, alloc: Global) -> Result<Vec<Row>, AllocError>
        ensures { IfOk result (λ rows. rows.items ≡ plain_rows self.now) }
    {
        let all = self.accepted.as_slice();
        let mut rows = Vec::new(alloc);
        let mut rest = all;
        'accepted: while let [next, later @ ..] = rest {
            push_rows(alloc, &mut rows, all, next, later)?;
            rest = later;
        }
        Ok(rows)
    }
}
