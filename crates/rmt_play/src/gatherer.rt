//! Replies that are gathered.
use crate::teller::Teller;
use rmt_list::List;
use rmt_outside::WriteError;
use rmt_reply::Line;
use std::alloc::Global;

/// Gathers the lines of replies.
#[derive(Drop)]
pub(crate) struct Gatherer {
    pub lines: Vec<Line>,
}

impl Teller for Gatherer {
    ghost use Rattle.std.specs.Prelude.{Some};
    ghost use Rattle.rmt_play.specs.Outlets.{gathered_there};

    ghost outlet = { gathered_there };

    ghost told = { λ g. Some g.lines.items };

    ghost faults = { λ g. 0 };

    fn tell(&mut self, _alloc: Global, reply: List<Line>) -> Result<(), WriteError> {
        let mut more = reply.into_vec();
        match self.lines.append(&mut more) {
            Ok(()) => Ok(()),
            Err(_) => Err(WriteError::Memory),
        }
    }
}
