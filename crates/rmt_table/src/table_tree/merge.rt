ghost use Rattle.std.specs.Prelude.{◌≡◌, length, MatchOption, IfOk, IfErr, IfSome, OnOk, OnErr};
ghost use Rattle.rmt_events.specs.LogEvents.{AreMergeable};
ghost use Rattle.rmt_events.specs.TableRefusals.{NotMerged};
ghost use Rattle.rmt_table.specs.Neighbours.{HoldNone, HoldPart, AreJoined, AreFirstApart};
ghost use Rattle.rmt_table.specs.TableTrees.{table_at, IsCopyOf, IsMergeOf};
ghost use Rattle.rmt_table.specs.Causes.{merge_cause};

use crate::counted::block_sum;
use crate::merge_error::MergeError;
use crate::ops::append_alone;
use crate::table_tree::TableTree;
use rmt_entries::Entry;
use rmt_history::LogCopy;
use rmt_inserts::in_flight;
use rmt_list::List;
use rmt_names::{PartName, covers, merged};
use rmt_row::Seen;
use rmt_values::Limit;
use std::alloc::Global;

/// The part that waits for its quorum, where one of two names covers it.
fn held(pending: &Option<PartName>, left: &PartName, right: &PartName) -> Option<PartName>
    ensures { MatchOption result (HoldNone pending.now left.now right.now) (HoldPart pending.now left.now right.now) }
{
    let Some(part) = pending else {
        return None;
    };
    if covers(left, part) || covers(right, part) {
        return Some(*part);
    }
    None
}

/// Why these names may not be merged: the first neighbours that may not.
fn first_apart(copy: &LogCopy, pending: &Option<PartName>, names: &[PartName]) -> Option<MergeError>
    ensures { MatchOption result (AreJoined copy.now.log pending.now names.now) (AreFirstApart copy.now.log pending.now names.now) }
{
    let [first, rest @ ..] = names else {
        return None;
    };
    let mut left = *first;
    'names: for right in rest {
        if copy.ver(&left) != copy.ver(right) {
            return Some(MergeError::Differ {
                left,
                right: *right,
            });
        }
        if let Some(part) = held(pending, &left, right) {
            return Some(MergeError::InQuorum {
                left,
                right: *right,
                part,
            });
        }
        left = *right;
    }
    None
}

impl TableTree {
    /// Appends a merge of neighbours, where the log still has the length of the copy that they were chosen from. Its
    /// entry's token comes back.
    ///
    /// At an error the table is as it was. At `LogMoved` choose again from a copy of the whole log.
    pub fn assign_merge(
        &mut self,
        alloc: Global,
        copy: &LogCopy,
        sources: &[PartName],
    ) -> Result<Seen<Entry>, MergeError>
        requires of { IsCopyOf self.old copy.now }
        requires neighbours { AreMergeable copy.now.log sources.now }
        ensures done { IfOk result (λ token. IsMergeOf self.old sources.now token self.new) }
        ensures current { OnOk result (length copy.now.log ≡ length self.old.log) }
        ensures refused { IfErr result (λ e. IfSome (merge_cause e)
            (NotMerged (table_at self.old) (length copy.now.log) sources.now)) }
        ensures err { OnErr result (self.new ≡ self.old) }
        ensures replicas { length self.new.sessions ≡ length self.old.sessions }
        ensures row { self.new.row ≡ self.old.row }
    {
        let seen = copy.len();
        if seen < self.log.len() {
            return Err(MergeError::LogMoved {
                seen: seen as u32,
                found: self.log_len(),
            });
        }
        let pending = self.pending_part();
        if let Some(error) = first_apart(copy, &pending, sources) {
            return Err(error);
        }
        let Some(new) = merged(sources) else {
            unreachable!()
        };
        if let Some(number) = in_flight(&self.tree, alloc, new.partition(), new.min(), new.max())? {
            return Err(MergeError::InFlight(number));
        }
        if self.workers >= 32_768 {
            return Err(MergeError::LimitReached {
                limit: Limit::WorkerEntries,
                value: u64::from(self.workers),
            });
        }
        let entry = Entry::Merge {
            new,
            sources: List::new(Vec::from_slice(alloc, sources)?),
            count: block_sum(copy, sources),
        };
        let token = append_alone(&mut self.tree, &mut self.log, alloc, entry)?;
        self.workers += 1;
        Ok(token)
    }
}
