ghost use Rattle.rmt_values.specs.Rows.{Shape};
ghost use Rattle.rmt_events.specs.Views.{Block};

use std::marker::Brand;

/// Which blocks may be inserted into a table of a schema: what a play offers. Each play picks its own.
pub trait Offers {
    /// The blocks that may be inserted into a table of a schema.
    ghost blocks: { Shape → Block → Type 0 };
}

impl Offers for Brand {
    ghost blocks = { λ schema b. ⊥ };
}
