ghost use Rattle.std.specs.Prelude.{◌≡◌, ◌≤◌, length, IfOk, IfErr, IfSome, OnOk, OnErr};
ghost use Rattle.rmt_model.specs.Lawful.{Lawful};
ghost use Rattle.rmt_events.specs.LogEvents.{IsMutable};
ghost use Rattle.rmt_events.specs.TableRefusals.{NotMutated};
ghost use Rattle.rmt_table.specs.MutateEntries.{IsMutateEntry};
ghost use Rattle.rmt_table.specs.TableTrees.{table_at, IsCopyOf, IsMutateOf};
ghost use Rattle.rmt_table.specs.Causes.{mutate_cause};

use crate::counted::block_count;
use crate::mutate_error::MutateError;
use crate::ops::append_alone;
use crate::table_tree::TableTree;
use rmt_entries::Entry;
use rmt_history::{LogCopy, number_among};
use rmt_names::PartName;
use rmt_row::Seen;
use rmt_values::Limit;
use std::alloc::Global;

/// The entry that brings a live part up to the mutation at a place, which is pending for it.
fn mutate_entry(copy: &LogCopy, old: &PartName, upto: usize) -> Entry
    requires lawful { Lawful copy.now.schema copy.now.log }
    requires few { length copy.now.log ≤ 65536 }
    requires pending { IsMutable copy.now.log old.now upto }
    ensures { IsMutateEntry copy.now.log old.now upto result }
{
    let Some(token) = copy.entry(upto) else {
        unreachable!()
    };
    let Entry::Mutation { id, numbers, .. } = token.value() else {
        unreachable!()
    };
    let Some(number) = number_among(numbers.as_slice(), old.partition()) else {
        unreachable!()
    };
    let new = PartName::new(old.partition(), old.min(), old.max(), old.level(), number);
    Entry::Mutate {
        old: *old,
        new,
        upto: upto as u32,
        count: block_count(copy, old),
        mcount: *id + 1,
    }
}

impl TableTree {
    /// Appends the mutation of a live part up to the mutation at a place of the log, where the log still has the length of
    /// the copy that the part was chosen from. Its entry's token comes back.
    ///
    /// At an error the table is as it was. At `LogMoved` choose again from a copy of the whole log.
    pub fn assign_mutate(
        &mut self,
        alloc: Global,
        copy: &LogCopy,
        old: &PartName,
        upto: usize,
    ) -> Result<Seen<Entry>, MutateError>
        requires of { IsCopyOf self.old copy.now }
        requires pending { IsMutable copy.now.log old.now upto }
        ensures done { IfOk result (λ token. IsMutateOf self.old old.now upto token self.new) }
        ensures current { OnOk result (length copy.now.log ≡ length self.old.log) }
        ensures refused { IfErr result (λ e. IfSome (mutate_cause e)
            (NotMutated (table_at self.old) (length copy.now.log))) }
        ensures err { OnErr result (self.new ≡ self.old) }
        ensures replicas { length self.new.sessions ≡ length self.old.sessions }
        ensures row { self.new.row ≡ self.old.row }
    {
        let seen = copy.len();
        if seen < self.log.len() {
            return Err(MutateError::LogMoved {
                seen: seen as u32,
                found: self.log_len(),
            });
        }
        if self.workers >= 32_768 {
            return Err(MutateError::LimitReached {
                limit: Limit::WorkerEntries,
                value: u64::from(self.workers),
            });
        }
        let entry = mutate_entry(copy, old, upto);
        let token = append_alone(&mut self.tree, &mut self.log, alloc, entry)?;
        self.workers += 1;
        Ok(token)
    }
}
