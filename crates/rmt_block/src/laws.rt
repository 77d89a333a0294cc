//! What follows of the bytes and the ids of blocks for all of them.
ghost use Rattle.std.specs.Prelude.{◌≡◌, List};
ghost use Rattle.rmt_values.specs.declared.kind.Kind.{Kind};
ghost use Rattle.rmt_values.specs.declared.value.Value.{Value};
ghost use Rattle.rmt_block.specs.Blocks.{AreRowsOf, BlockView, IsBlock, IsId, block_bytes, id_of, id_text_of};
ghost use Rattle.rmt_block.specs.declared.block_id.BlockId.{BlockId};

/// Law: rows that have the same bytes are the same rows, of the same types.
pub fn one_spelling()
    ensures { (k l : List Kind) (r s : List (List Value)) →
        AreRowsOf k r → AreRowsOf l s → block_bytes k r ≡ block_bytes l s → (k ≡ l) × (r ≡ s) }
{}

/// Law: blocks are clear but where SHA-256 collides. Two that have one id and the same bytes are equal.
pub fn only_a_collision_is_unclear()
    ensures { (a b : BlockView) →
        IsBlock a → IsBlock b → id_of a ≡ id_of b → block_bytes a.kinds a.rows ≡ block_bytes b.kinds b.rows → a ≡ b }
{}

/// Law: two ids that have the same text are the same id.
pub fn one_id_text()
    ensures { (i j : BlockId) → IsId i → IsId j → id_text_of i ≡ id_text_of j → i ≡ j }
{}
