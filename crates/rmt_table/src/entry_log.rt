ghost use Rattle.std.specs.Prelude.{◌≡◌, ◌<◌, ◌∷◌, ◌++◌, [], length, IfOk, OnOk, OnErr};
ghost use Rattle.std.specs.Arc.{arc_value};
ghost use Rattle.rmt_table.specs.TableTrees.{token_in};

use rmt_entries::Entry;
use rmt_history::TableLog;
use rmt_row::{AppendRow, Seen};
use std::alloc::{AllocError, Global};
use std::marker::Model;
use std::sync::Arc;

/// The entries of a log in the cells of its row, of which those are set that have an entry. Contracts see the cells'
/// names, and the tokens of the entries in the order of their places.
#[derive(Drop)]
pub(crate) struct EntryLog {
    row: AppendRow<Entry>,
    log: TableLog,
}

impl Model for EntryLog {
    ghost use Rattle.std.specs.Prelude.{◌≡◌, length};
    ghost use Rattle.rmt_table.specs.LoggedEntries.{LoggedEntries};
    ghost use Rattle.std.specs.Coded.{codes};
    ghost use Rattle.rmt_values.specs.contracts.checked.Checked as filter;

    ghost Value = { LoggedEntries };

    ghost coded = { Prim.hlevel (codes, filter.the_row.coded) };

    ghost view = { λ l. record { row = l.row.cells; tokens = l.log.tokens } };

    ghost invariant = { λ l. l.row.set ≡ length l.log.tokens };
}

impl EntryLog {
    /// A log without entries, which has a cell for each that it may get. At an error no memory was left.
    pub(crate) fn new(alloc: Global) -> Result<EntryLog, AllocError>
        ensures cells { IfOk result (λ log. length log.row ≡ 65536) }
        ensures none { IfOk result (λ log. log.tokens ≡ []) }
    {
        let row = AppendRow::new(alloc, 65_536)?;
        let log = TableLog::new(alloc);
        Ok(EntryLog { row, log })
    }

    /// How many entries it has.
    pub(crate) fn len(&self) -> usize
        ensures { result ≡ length self.now.tokens }
    {
        self.log.len()
    }

    /// The tokens of its entries, and what the copies that follow it share.
    pub(crate) fn tokens(&self) -> &TableLog
        ensures { result.now.tokens ≡ self.now.tokens }
    {
        &self.log
    }

    /// Sets the next cell to an entry, whose token comes back.
    ///
    /// At an error no memory was left, and no cell is set.
    pub(crate) fn append(&mut self, entry: Arc<Entry, Global>) -> Result<Seen<Entry>, AllocError>
        requires room { length self.old.tokens < length self.old.row }
        ensures row { self.new.row ≡ self.old.row }
        ensures token { IfOk result (λ token. token ≡ token_in self.old.row (length self.old.tokens) (arc_value entry)) }
        ensures tokens { IfOk result (λ token. self.new.tokens ≡ self.old.tokens ++ token ∷ []) }
        ensures err { OnErr result (self.new ≡ self.old) }
    {
        self.log.reserve()?;
        let (token, answer) = self.row.append(entry)?;
        self.log.push(token);
        Ok(answer)
    }
}
