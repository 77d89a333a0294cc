ghost use Rattle.std.specs.Prelude.{◌≡◌, ◌≤◌, IfOk, IfErr, IfSome, OnOk, OnErr, length};
ghost use Rattle.std.specs.Option.{option_map};
ghost use Rattle.std.specs.declared.option.Option.TheVariants.{Some};
ghost use Rattle.rmt_model.specs.BlockNumbers.{next_number};
ghost use Rattle.rmt_model.specs.EntryLimits.{client_count, allocate_limit};
ghost use Rattle.rmt_values.specs.declared.limit.Limit.TheVariants.{ClientEntries};
ghost use Rattle.rmt_table.specs.declared.allocate_error.AllocateError.TheVariants.{LimitReached};
ghost use Rattle.rmt_tree.specs.Ops.{after_all};
ghost use Rattle.rmt_events.specs.TableCalls.{Allocates};
ghost use Rattle.rmt_events.specs.TableRefusals.{HasQuorum, NoNumber};
ghost use Rattle.rmt_table_model.specs.Held.{table_of};
ghost use Rattle.rmt_table_model.specs.Nodes.{allocate_ops};
ghost use Rattle.rmt_table.specs.TableTrees.{table_at, IsReplica};
ghost use Rattle.rmt_table.specs.Causes.{allocate_cause};

use crate::allocate_error::AllocateError;
use crate::lock::Lock;
use crate::table_tree::TableTree;
use rmt_block::BlockId;
use rmt_inserts::{kept, take_number};
use rmt_tree::Session;
use rmt_values::{Limit, ReplicaId};
use rmt_znodes::is_partition;
use std::alloc::Global;

impl TableTree {
    /// The first limit that a number for a block would pass, where there is no room for an entry of a client.
    fn full(&self, id: &BlockId) -> AllocateError
        requires full { 32768 ≤ client_count self.now.log }
        ensures { option_map (λ l. LimitReached l.0 l.1) (allocate_limit self.now.next self.now.log id.now.partition) ≡ Some result }
    {
        let Some(number) = self.partitions.number(id.partition) else {
            let partitions = self.partitions.len();
            if partitions >= 1024 {
                return AllocateError::LimitReached {
                    limit: Limit::Partitions,
                    value: partitions as u64,
                };
            }
            return self.no_more_entries();
        };
        if number >= 65_536 {
            return AllocateError::LimitReached {
                limit: Limit::Numbers,
                value: u64::from(number),
            };
        }
        self.no_more_entries()
    }

    /// The limit on entries of clients, with their count.
    fn no_more_entries(&self) -> AllocateError
        ensures { result ≡ LimitReached ClientEntries (client_count self.now.log) }
    {
        AllocateError::LimitReached {
            limit: Limit::ClientEntries,
            value: u64::from(self.clients),
        }
    }

    /// Takes the next number of a block's partition for the block, with a lock that lives with the replica's session. The
    /// partition exists from its first number on.
    ///
    /// At an error the table is as it was. At `Duplicate` the block was accepted before, and is in that part.
    pub fn allocate(
        &mut self,
        alloc: Global,
        replica: ReplicaId,
        id: &BlockId,
        need: u32,
    ) -> Result<Lock, AllocateError>
        requires here { IsReplica self.old replica }
        ensures lock { IfOk result (λ lock. lock ≡ record { replica = replica; session = lock.session; number = next_number self.old.next id.now.partition; id = id.now }) }
        ensures has_quorum { OnOk result (HasQuorum (table_at self.old) need) }
        ensures allocates { IfOk result (λ lock. Allocates (table_at self.old) replica id.now.partition id.now.digest lock.number (table_at self.new)) }
        ensures ops { IfOk result (λ lock. self.new.tree ≡ after_all self.old.tree (allocate_ops id.now.partition lock.session (table_of self.old))) }
        ensures refused { IfErr result (λ e. IfSome (allocate_cause e)
            (NoNumber (table_at self.old) replica id.now.partition id.now.digest need)) }
        ensures err { OnErr result (self.new ≡ self.old) }
        ensures replicas { length self.new.sessions ≡ length self.old.sessions }
        ensures row { self.new.row ≡ self.old.row }
    {
        let Some(number) = self.session(replica) else {
            return Err(AllocateError::NoSession);
        };
        if let Some(error) = self.quorum_refusal(need) {
            return Err(AllocateError::of_quorum(error));
        }
        if let Some(part) = kept(&self.window, id) {
            return Err(AllocateError::Duplicate(part));
        }
        if self.clients >= 32_768 {
            return Err(self.full(id));
        }
        is_partition(id.partition);
        self.partitions.reserve()?;
        let session = Session { number };
        let number = match take_number(&mut self.tree, alloc, &session, id.partition) {
            Ok(number) => number,
            Err(error) => return Err(AllocateError::of_number(error)),
        };
        self.partitions.take(id.partition);
        Ok(Lock {
            replica,
            session: session.number,
            number,
            id: *id,
        })
    }
}
