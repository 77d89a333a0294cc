use rmt_list::List;
use rmt_reply::Line;
use rmt_values::{Name, Schema};

/// What a statement comes to.
#[derive(Drop)]
pub(crate) enum Answer {
    /// It was played, and has this reply.
    Reply(Line),
    /// It is LANES: its lanes were played, and these are their lines.
    Lanes(List<Line>),
    /// It is a CREATE that meets no refusal: its table is still to be made.
    Creates { table: Name, schema: Schema },
}
