//! Turns of a storm.
ghost use Rattle.std.specs.Prelude.{◌≡◌, ◌++◌, ◌≤◌, ◌<◌, OnOk};
ghost use Rattle.rmt_storm.specs.Storms.{alter_or_count_turn, delete_turn, insert_turn, last_or_parts, optimize_lines, replica_line, turn_after, update_turn, upkeep_turn};
ghost use Rattle.rmt_storm.specs.Steps.{seen, Makes};

use crate::draws::Draws;
use crate::inserts::insert;
use crate::texts::{push_both, push_line, push_sent};
use std::alloc::{AllocError, Global};

/// The most ALTERs with UPDATE or DELETE.
const MOST_ALTERS: u32 = 1000;

/// What a turn goes on from: the generator, the last INSERT, which is empty where there was none, and how many ALTERs with UPDATE or
/// DELETE there were.
#[derive(Drop)]
pub(crate) struct Storm {
    pub alloc: Global,
    pub draws: Draws,
    pub last: Vec<u8>,
    pub alters: u32,
}

impl Storm {
    /// Adds an INSERT. At an error no memory was left.
    fn add_insert(&mut self, out: &mut Vec<u8>, replica: u32) -> Result<(), AllocError>
        ensures { OnOk result (Makes (insert_turn replica (seen self.old)) out.old.items out.new.items self.new) }
    {
        let statement = insert(self.alloc, &mut self.draws)?;
        push_sent(self.alloc, out, replica, &statement)?;
        self.last = statement;
        Ok(())
    }

    /// Adds an UPDATE. At an error no memory was left.
    #[tactic(auto, unfolding(crate::specs::Storms::update_turn))]
    fn add_update(&mut self, out: &mut Vec<u8>, replica: u32) -> Result<(), AllocError>
        requires { self.old.alters < 1000 }
        ensures { OnOk result (Makes (update_turn replica (seen self.old)) out.old.items out.new.items self.new) }
    {
        let more = self.draws.next() % 100;
        let key = self.draws.next() % 4000;
        let mut statement = Vec::new(self.alloc);
        push_both(
            self.alloc,
            &mut statement,
            b"ALTER TABLE s UPDATE v = v + ",
            more,
        )?;
        push_both(self.alloc, &mut statement, b" WHERE k < ", key)?;
        push_sent(self.alloc, out, replica, &statement)?;
        self.alters += 1;
        Ok(())
    }

    /// Adds a DELETE. At an error no memory was left.
    #[tactic(auto, unfolding(crate::specs::Storms::delete_turn))]
    fn add_delete(&mut self, out: &mut Vec<u8>, replica: u32) -> Result<(), AllocError>
        requires { self.old.alters < 1000 }
        ensures { OnOk result (Makes (delete_turn replica (seen self.old)) out.old.items out.new.items self.new) }
    {
        let value = self.draws.next() % 1000;
        let mut statement = Vec::new(self.alloc);
        push_both(
            self.alloc,
            &mut statement,
            b"ALTER TABLE s DELETE WHERE v < ",
            value,
        )?;
        push_sent(self.alloc, out, replica, &statement)?;
        self.alters += 1;
        Ok(())
    }

    /// Adds an ALTER, or a count. At an error no memory was left.
    fn add_alter(&mut self, out: &mut Vec<u8>, replica: u32) -> Result<(), AllocError>
        ensures { OnOk result (Makes (alter_or_count_turn replica (seen self.old)) out.old.items out.new.items self.new) }
    {
        let kind = self.draws.next() % 8;
        if self.alters < MOST_ALTERS && kind == 0 {
            return self.add_update(out, replica);
        }
        if self.alters < MOST_ALTERS && kind == 1 {
            return self.add_delete(out, replica);
        }
        push_sent(self.alloc, out, replica, b"SELECT count() FROM s")
    }

    /// Adds the last INSERT again, or SHOW PARTS. At an error no memory was left.
    fn add_last(&mut self, out: &mut Vec<u8>, replica: u32) -> Result<(), AllocError>
        ensures lines { OnOk result (out.new.items ≡ out.old.items ++ replica_line replica (last_or_parts self.old.last.items)) }
        ensures same { seen self.new ≡ seen self.old }
    {
        if self.last.is_empty() {
            return push_sent(self.alloc, out, replica, b"SHOW PARTS FROM s");
        }
        push_sent(self.alloc, out, replica, &self.last)
    }

    /// Adds the wait for the last ALTER, and an OPTIMIZE. At an error no memory was left.
    fn add_optimize(&mut self, out: &mut Vec<u8>, replica: u32) -> Result<(), AllocError>
        ensures lines { OnOk result (out.new.items ≡ out.old.items ++ optimize_lines replica self.old.alters) }
        ensures same { seen self.new ≡ seen self.old }
    {
        if self.alters == 0 {
            return push_sent(self.alloc, out, replica, b"OPTIMIZE TABLE s FINAL");
        }
        let mut statement = Vec::new(self.alloc);
        push_both(
            self.alloc,
            &mut statement,
            b"WAIT MUTATION s ",
            self.alters - 1,
        )?;
        push_sent(self.alloc, out, replica, &statement)?;
        push_sent(self.alloc, out, replica, b"OPTIMIZE TABLE s FINAL")
    }

    /// Adds a drop, a restart, a RUN or a sync. At an error no memory was left.
    fn add_upkeep(&mut self, out: &mut Vec<u8>, replica: u32) -> Result<(), AllocError>
        ensures { OnOk result (Makes (upkeep_turn replica (seen self.old)) out.old.items out.new.items self.new) }
    {
        let mut statement = Vec::new(self.alloc);
        let kind = self.draws.next() % 4;
        if kind == 0 {
            let partition = self.draws.next() % 4;
            push_both(
                self.alloc,
                &mut statement,
                b"ALTER TABLE s DROP PARTITION ",
                partition,
            )?;
            return push_sent(self.alloc, out, replica, &statement);
        }
        if kind == 1 {
            return push_sent(self.alloc, out, replica, b"SYSTEM RESTART REPLICA s");
        }
        if kind == 2 {
            let seed = self.draws.next();
            push_both(self.alloc, &mut statement, b"RUN s 20 SEED ", seed)?;
            return push_line(out, &statement);
        }
        push_sent(self.alloc, out, replica, b"SYSTEM SYNC REPLICA s")
    }

    /// Adds the lines of a turn. At an error no memory was left.
    pub(crate) fn turn(&mut self, out: &mut Vec<u8>) -> Result<(), AllocError>
        ensures { OnOk result (Makes (turn_after (seen self.old)) out.old.items out.new.items self.new) }
    {
        let kind = self.draws.next() % 16;
        let replica = 1 + self.draws.next() % 3;
        if kind < 9 {
            return self.add_insert(out, replica);
        }
        if kind < 10 {
            return self.add_alter(out, replica);
        }
        if kind < 12 {
            return push_sent(
                self.alloc,
                out,
                replica,
                b"SELECT count(), sum(v) FROM s SYNC",
            );
        }
        if kind < 14 {
            return self.add_last(out, replica);
        }
        if kind < 15 {
            return self.add_optimize(out, replica);
        }
        self.add_upkeep(out, replica)
    }
}
