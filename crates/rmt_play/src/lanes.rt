//! LANES: the lanes are played one after the other.
ghost use Rattle.std.specs.Prelude.{◌≤◌, length, count_by, IfOk, OnOk};
ghost use Rattle.std.specs.List.{All};
ghost use Rattle.rmt_reply.specs.Summaries.{is_refused};
ghost use Rattle.rmt_sql.specs.Script.{statements_in};
ghost use Rattle.rmt_sql_acts.specs.Acts.{HasSmallCommand};
ghost use Rattle.rmt_play.specs.Offered.{OffersLane};
ghost use Rattle.rmt_play.specs.Plays.{PlaysLanes};
ghost use Rattle.rmt_play.specs.PlayerSteps.{AddsLane, IsSound, Moves, view_of};

use crate::engine::Engine;
use crate::player::Player;
use rmt_list::List;
use rmt_reply::Line;
use rmt_statements::Sent;
use std::alloc::{AllocError, Global};

impl<E: Engine> Player<E> {
    /// Plays the statements of a lane, and adds their replies.
    fn lane(
        &mut self,
        alloc: Global,
        lane: &[Sent],
        reply: &mut Vec<Line>,
    ) -> Result<(), AllocError>
        requires sound { IsSound E.sights E.tables self.old }
        requires small { All (λ sent. HasSmallCommand sent.act) lane.now }
        requires offered { OffersLane E.sights.offers lane.now }
        ensures sound { IsSound E.sights E.tables self.new }
        ensures adds { OnOk result (AddsLane (view_of E.sights E.tables self.old) lane.now
            reply.old.items reply.new.items (view_of E.sights E.tables self.new)) }
    {
        'statements: for sent in lane {
            let line = self.send(alloc, sent)?;
            reply.push(line)?;
        }
        Ok(())
    }

    /// Plays lanes, 8 at most: each has a line with its number and then the replies of its statements, and a last line ends the reply. At
    /// an error no memory was left.
    pub(crate) fn lanes(
        &mut self,
        alloc: Global,
        lanes: &[List<Sent>],
    ) -> Result<List<Line>, AllocError>
        requires sound { IsSound E.sights E.tables self.old }
        requires few { length lanes.now ≤ 8 }
        requires small { All (All (λ sent. HasSmallCommand sent.act)) lanes.now }
        requires offered { All (OffersLane E.sights.offers) lanes.now }
        ensures sound { IsSound E.sights E.tables self.new }
        ensures plays { IfOk result (λ reply. Moves (view_of E.sights E.tables self.old)
            (PlaysLanes E.sights.workers lanes.now reply) (view_of E.sights E.tables self.new)) }
        ensures few_refused { IfOk result (λ reply.
            count_by is_refused reply ≤ statements_in lanes.now) }
    {
        let mut reply = Vec::new(alloc);
        let mut number = 0;
        'lanes: for lane in lanes {
            number += 1;
            reply.push(Line::Lane(number))?;
            self.lane(alloc, lane.as_slice(), &mut reply)?;
        }
        reply.push(Line::End)?;
        Ok(List::new(reply))
    }
}
