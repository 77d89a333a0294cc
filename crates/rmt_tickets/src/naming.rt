use std::marker::Brand;

/// Says which queue it is. Contracts alone read it.
pub trait NamesQueue {
    ghost use Rattle.atomic_table.specs.Seated.{TableId};

    ghost queue: { TableId };
}

impl NamesQueue for Brand {
    ghost use Rattle.std.specs.Prelude.{[]};

    ghost queue = { record { words = 0; slots = 0; views_name = 0; atom = 0; block = 0; offset = 0; slot_names = [] } };
}
