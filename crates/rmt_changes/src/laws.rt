//! What holds of rows that mutations change.
ghost use Rattle.rmt_changes.specs.Laws.{KeysStay, RowsStayFit};

/// Says that commands of a schema leave a row its key, and leave one that fits the schema as one that does.
pub fn keys_stay()
    ensures keys { KeysStay }
    ensures fit { RowsStayFit }
{}
