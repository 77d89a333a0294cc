ghost use Rattle.std.specs.Prelude.{◌↔◌, IfOk, IsTrue};
ghost use Rattle.rmt_events.specs.TableCalls.{IsLocked};
ghost use Rattle.rmt_table.specs.TableTrees.{table_at};

use crate::lock::Lock;
use crate::table_tree::TableTree;
use rmt_znodes::Znode;
use std::alloc::{AllocError, Global};

impl TableTree {
    /// Whether a lock is there. At an error no memory was left.
    pub fn has_lock(&self, alloc: Global, lock: &Lock) -> Result<bool, AllocError>
        ensures { IfOk result (λ held. IsTrue held
            ↔ IsLocked (table_at self.now).locks lock.now.id.partition lock.now.number) }
    {
        let path = Znode::Lock {
            partition: lock.id.partition,
            number: lock.number,
        }
        .path(alloc)?;
        Ok(self.tree.get(&path).is_some())
    }
}
