ghost use Rattle.std.specs.Prelude.{◌≡◌, ◌+◌, ◌<◌, length, IfOk, OnOk, OnErr};
ghost use Rattle.std.specs.Arc.{arc_value};
ghost use Rattle.rmt_row.specs.Filled.{token_after};

use crate::row::Row;
use crate::seen::Seen;
use std::alloc::{AllocError, Global};
use std::marker::Model;
use std::sync::Arc;

/// A row whose cells are set in order, through this value alone. Contracts see its cells' names and how many are set.
#[derive(Drop)]
pub struct AppendRow<T: Drop> {
    row: Row<T>,
    set: usize,
}

impl<T: Drop> Model for AppendRow<T> {
    ghost use Rattle.rmt_row.specs.Filled.{Filled, IsFilled};

    ghost Value = { Filled };

    ghost view = { λ r. record { cells = r.row; set = r.set } };

    ghost invariant = { λ r. IsFilled (record { cells = r.row; set = r.set }) };
}

impl<T: Drop> AppendRow<T> {
    /// A row of so many cells, none of which is set. At an error no memory was left.
    pub fn new(alloc: Global, cells: usize) -> Result<AppendRow<T>, AllocError>
        ensures cells { IfOk result (λ row. length row.cells ≡ cells) }
        ensures none { IfOk result (λ row. row.set ≡ 0) }
    {
        let row = Row::new(alloc, cells)?;
        Ok(AppendRow { row, set: 0 })
    }

    /// How many of its cells are set.
    pub fn len(&self) -> usize
        ensures { result ≡ self.now.set }
    {
        self.set
    }

    /// Sets the next cell, and gives its token and a copy of it.
    ///
    /// At an error no memory was left, and no cell is set. A cell that somebody else has set is answered so too.
    pub fn append(&mut self, value: Arc<T, Global>) -> Result<(Seen<T>, Seen<T>), AllocError>
        requires room { self.old.set < length self.old.cells }
        ensures token { IfOk result (λ tokens. tokens.0 ≡ token_after self.old (arc_value value)) }
        ensures copy { IfOk result (λ tokens. tokens.1 ≡ tokens.0) }
        ensures ok { OnOk result (self.new ≡ record self.old { set = self.old.set + 1 }) }
        ensures err { OnErr result (self.new ≡ self.old) }
    {
        let shared = Arc::try_clone(&value)?;
        let Ok(token) = self.row.set(self.set, value) else {
            return Err(AllocError);
        };
        self.set += 1;
        let copy = token.again(shared);
        Ok((token, copy))
    }
}
