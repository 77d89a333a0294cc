ghost use Rattle.std.specs.Prelude.{◌≤◌, ℕ, length};
ghost use Rattle.std.specs.declared.option.Option.{Option};
ghost use Rattle.rmt_model.specs.Words.{Has};
ghost use Rattle.rmt_model.specs.Lawful.{mutation_count};
ghost use Rattle.rmt_model.specs.EntryLimits.{client_count, worker_count};
ghost use Rattle.rmt_events.specs.Sound.{IsSoundTable};
ghost use Rattle.rmt_table.specs.TableTrees.{table_at};

use crate::table_tree::TableTree;

impl TableTree {
    /// A law of every table, at any moment: no count is above its limit. It does nothing.
    pub fn no_limit_is_passed(&self)
        ensures partitions { length self.now.next ≤ 1024 }
        ensures numbers { (p : Option ℕ) (next : ℕ) → Has self.now.next (p, next) → next ≤ 65536 }
        ensures entries { length self.now.log ≤ 65536 }
        ensures clients { client_count self.now.log ≤ 32768 }
        ensures workers { worker_count self.now.log ≤ 32768 }
        ensures mutations { mutation_count self.now.log ≤ 1024 }
        ensures values { self.now.values ≤ 8388608 }
        ensures replicas { length self.now.sessions ≤ 8 }
    {
        // What the type keeps is known where a field is read.
        let _clients = self.clients;
    }

    /// A law of every table, at any moment: the table that events see is sound. It does nothing.
    pub fn is_sound(&self)
        ensures { IsSoundTable (table_at self.now) }
    {
        // What the type keeps is known where a field is read.
        let _clients = self.clients;
    }
}
