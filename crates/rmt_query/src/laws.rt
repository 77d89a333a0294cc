//! What holds of answers.
ghost use Rattle.rmt_query.specs.Laws.{OneAnswer};

/// Says that a query answers the same over rows of one bag, in whatever order they are.
pub fn same_bags_have_one_answer()
    ensures { OneAnswer }
{}
