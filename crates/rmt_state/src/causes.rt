//! The replies to merges and mutations of parts that a table was to put in its log.
ghost use Rattle.std.specs.Prelude.{◌≡◌};
ghost use Rattle.rmt_state.specs.Causes.{IsMergeReply, IsMutateReply};

use rmt_entries::Entry;
use rmt_events::Reply;
use rmt_row::Seen;
use rmt_table::{MergeError, MutateError};
use std::alloc::AllocError;

/// The reply to a merge whose entry was to stand at a place. At an error no memory was left.
pub(crate) fn merge_reply(
    place: u32,
    assigned: Result<Seen<Entry>, MergeError>,
) -> Result<Reply, AllocError>
    ensures { IsMergeReply place assigned result }
{
    let error = match assigned {
        Ok(_) => return Ok(Reply::Entry(place)),
        Err(error) => error,
    };
    match error.cause() {
        Some(why) => Ok(Reply::Refused(why)),
        None => Err(AllocError),
    }
}

/// The reply to the mutation of a part whose entry was to stand at a place. At an error no memory was left.
pub(crate) fn mutate_reply(
    place: u32,
    assigned: Result<Seen<Entry>, MutateError>,
) -> Result<Reply, AllocError>
    ensures { IsMutateReply place assigned result }
{
    let error = match assigned {
        Ok(_) => return Ok(Reply::Entry(place)),
        Err(error) => error,
    };
    match error.cause() {
        Some(why) => Ok(Reply::Refused(why)),
        None => Err(AllocError),
    }
}
