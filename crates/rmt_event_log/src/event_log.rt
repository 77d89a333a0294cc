ghost use Rattle.std.specs.Prelude.{◌≡◌, ◌<◌, ◌∷◌, [], length, nat_eq, IfOk, OnOk};
ghost use Rattle.rmt_event_log.specs.EventLogs.{IsFrequent, IsReadAt};

use crate::reading::pair;
use crate::sorting::sorted;
use crate::stored::Stored;
use rmt_events::{Event, Reply};
use std::alloc::{AllocError, Global};
use std::marker::Model;

/// The events of a table, each with its reply. A pair that comes often takes 32 bytes. Contracts see the list of the pairs,
/// the newest first, how many are rare, and how many more there is room for.
#[derive(Drop)]
pub struct EventLog {
    /// The oldest first.
    stored: Vec<Stored>,
    rare: Vec<(Event, Reply)>,
}

impl Model for EventLog {
    ghost use Rattle.std.specs.Prelude.{◌-◌, length, map, min, reverse, vec_len, vec_capacity};
    ghost use Rattle.std.specs.Coded.{codes};
    ghost use Rattle.rmt_values.specs.contracts.checked.Checked as filter;
    ghost use Rattle.rmt_model.specs.Words.{Each};
    ghost use Rattle.rmt_event_log.specs.EventLogs.{LoggedEvents};
    ghost use Rattle.rmt_event_log.specs.Inside.{pair_of, IsSound};

    ghost Value = { LoggedEvents };

    ghost coded = { Prim.hlevel (codes, filter.the_row.coded) };

    ghost view = { λ l. record { events = reverse (map (pair_of l.rare.items) l.stored.items); rare = vec_len l.rare; room = min (vec_capacity l.stored - vec_len l.stored) (vec_capacity l.rare - vec_len l.rare) } };

    ghost invariant = { λ l. Each (IsSound (length l.rare.items)) l.stored.items };
}

impl EventLog {
    /// One of no events.
    pub fn new(alloc: Global) -> EventLog
        ensures events { result.events ≡ [] }
        ensures rare { result.rare ≡ 0 }
    {
        EventLog {
            stored: Vec::new(alloc),
            rare: Vec::new(alloc),
        }
    }

    /// How many events there are.
    pub fn len(&self) -> usize
        ensures { result ≡ length self.now.events }
    {
        self.stored.len()
    }

    /// Whether there is none.
    pub fn is_empty(&self) -> bool
        ensures { result ≡ nat_eq (length self.now.events) 0 }
    {
        self.stored.is_empty()
    }

    /// Makes room for one more event of any kind. At an error no memory was left, and the events are as they were.
    pub fn reserve(&mut self) -> Result<(), AllocError>
        ensures events { self.new.events ≡ self.old.events }
        ensures rare { self.new.rare ≡ self.old.rare }
        ensures ok { OnOk result (0 < self.new.room) }
    {
        self.stored.reserve(1)?;
        self.rare.reserve(1)?;
        Ok(())
    }

    /// Stores an event with its reply, where there is room. It takes no memory.
    pub fn push(&mut self, event: Event, reply: Reply)
        requires room { 0 < self.old.room }
        ensures events { self.new.events ≡ (event, reply) ∷ self.old.events }
        ensures frequent { IsFrequent event reply → self.new.rare ≡ self.old.rare }
    {
        match sorted(event, reply) {
            Ok(stored) => self.stored.push(stored).unwrap(),
            Err(pair) => {
                self.stored.push(Stored::Rare(self.rare.len())).unwrap();
                self.rare.push(pair).unwrap();
            }
        }
    }

    /// Reads the event at a place back, with its reply; none past the newest. Places count from 0, the oldest. A block that was
    /// inserted is shared. At an error no memory was left.
    pub fn get(&self, alloc: Global, i: usize) -> Result<Option<(Event, Reply)>, AllocError>
        ensures { IfOk result (IsReadAt self.now.events i) }
    {
        let Some(stored) = self.stored.get(i) else {
            return Ok(None);
        };
        Ok(Some(pair(alloc, stored, &self.rare)?))
    }
}
