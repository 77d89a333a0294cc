ghost use Rattle.std.specs.Prelude.{◌≡◌, ◌<◌, ◌≤◌, ◌+◌, ◌-◌, ◌&&◌, nat_lt, [], replicate, IfOk, OnOk};
ghost use Rattle.rmt_tickets.specs.declared.ticket.Ticket.{Ticket};
ghost use Rattle.rmt_tickets.specs.Tickets.{moves, place, dealt, dealt_to, times, one_if, all_parts};

use crate::counted::CountedPass;
use crate::naming::NamesQueue;
use crate::queue::TicketQueue;
use crate::ticket::Ticket;
use crate::tickets::Tickets;
use std::alloc::{AllocError, Global};
use std::sync::Wait;

impl<N: NamesQueue> TicketQueue<N> {
    /// Puts one ticket for each table and replica, and gives each worker its place. The first place has
    /// these tickets as put.
    pub fn deal<R: Wait>(
        &self,
        rt: &R,
        alloc: Global,
        pass: CountedPass<N>,
        tables: u8,
        replicas: u8,
        workers: u8,
    ) -> Result<Vec<Tickets<N>>, AllocError>
        requires sizes { (tables ≤ 4) × (replicas ≤ 8) × (0 < workers) × (workers ≤ 8) }
        requires fresh { pass ≡ moves 8 [] [] }
        // The first place has put each of these tickets, and no other has put or taken any.
        ensures ok { IfOk result (λ v. v.items ≡ dealt_to tables replicas workers) }
        ensures whole { IfOk result (λ v. all_parts v.items ≡ 8) }
        ensures once { (t : Ticket) → times t (dealt tables replicas)
            ≡ one_if (nat_lt t.table tables && nat_lt t.replica replicas) }
    {
        let mut pass = pass;
        let mut places = idle_places(self, alloc, &mut pass, workers - 1)?;
        put_all(rt, self, &mut pass, tables, replicas);
        places.insert(0, Tickets::new(pass, tables, replicas))?;
        Ok(places)
    }
}

// So many places that have put and taken nothing, of one part each.
fn idle_places<N: NamesQueue>(
    queue: &TicketQueue<N>,
    alloc: Global,
    pass: &mut CountedPass<N>,
    count: u8,
) -> Result<Vec<Tickets<N>>, AllocError>
    requires { count < pass.old.parts }
    ensures places { IfOk result (λ v. v.items ≡ replicate count (place (moves 1 [] []) [])) }
    ensures rest { OnOk result (pass.new ≡ moves (pass.old.parts - count) pass.old.put pass.old.taken) }
{
    let mut places = Vec::new(alloc);
    for _ in 0..count {
        places.push(Tickets::new(pass.cut(queue), 0, 0))?;
    }
    Ok(places)
}

// Puts the ticket of each table and replica.
fn put_all<N: NamesQueue, R: Wait>(
    rt: &R,
    queue: &TicketQueue<N>,
    pass: &mut CountedPass<N>,
    tables: u8,
    replicas: u8,
)
    requires sizes { (tables ≤ 4) × (replicas ≤ 8) }
    requires fresh { pass.old.put ≡ [] }
    ensures { pass.new ≡ moves pass.old.parts (dealt tables replicas) pass.old.taken }
{
    for table in 0..tables {
        put_row(rt, queue, pass, table, replicas);
    }
}

// Puts the tickets of one table, after those of the tables before it.
fn put_row<N: NamesQueue, R: Wait>(
    rt: &R,
    queue: &TicketQueue<N>,
    pass: &mut CountedPass<N>,
    table: u8,
    replicas: u8,
)
    requires sizes { (table < 4) × (replicas ≤ 8) }
    requires before { pass.old.put ≡ dealt table replicas }
    ensures { pass.new ≡ moves pass.old.parts (dealt (table + 1) replicas) pass.old.taken }
{
    for replica in 0..replicas {
        pass.put(rt, queue, Ticket::new(table, replica));
    }
}
