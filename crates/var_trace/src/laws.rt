//! Laws of the definitions: each is the contract of a function that does nothing.
ghost use Rattle.var_trace.specs.Laws.{ChangesFollowTheHistory, SpansMakeTheChange, WrittenSpansChangeNothingElse};

/// What a change does to the stores' bytes, told by the bytes of the ranges in which it wrote.
pub fn spans_make_the_change()
    ensures makes { SpansMakeTheChange }
    ensures nothing_else { WrittenSpansChangeNothingElse }
{}

/// The stores after the changes so far are those after one change less, changed once more; those after fewer changes don't depend on the later.
pub fn changes_follow_the_history()
    ensures { ChangesFollowTheHistory }
{}
