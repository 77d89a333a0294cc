//! What follows of the bytes of parts for all of them.
ghost use Rattle.std.specs.Prelude.{◌≡◌};
ghost use Rattle.rmt_values.specs.Rows.{Shape};
ghost use Rattle.rmt_values.specs.Schemas.{IsSchema};
ghost use Rattle.rmt_granules.specs.Granules.{PartView};
ghost use Rattle.rmt_format.specs.PartBytes.{AreInRange, HasPartBytes, part_bytes};

/// Law: two parts of a schema, in range, that have the same bytes are the same part.
pub fn one_spelling()
    ensures { (shape : Shape) (a b : PartView) → IsSchema shape →
        HasPartBytes shape a → HasPartBytes shape b → AreInRange a.rows → AreInRange b.rows →
        part_bytes shape a ≡ part_bytes shape b → a ≡ b }
{}
