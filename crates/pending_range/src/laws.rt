//! Laws of the definitions of ranges: each is the contract of a function that does nothing.
ghost use Rattle.pending_range.specs.Laws.{AgreementGrows, AgreementIsReflexive, ExtendedRangesAreLeast, NoRangesCoverNothing, WholeRangesCoverTheirStore};

/// Ranges as sets of offsets: what none, whole ones and extended ones cover.
pub fn ranges_are_least()
    ensures none { NoRangesCoverNothing }
    ensures whole { WholeRangesCoverTheirStore }
    ensures extended { ExtendedRangesAreLeast }
{}

/// Stores that are equal outside of what ranges cover stay so while the ranges grow with the changes.
pub fn agreement_grows_with_the_ranges()
    ensures same { AgreementIsReflexive }
    ensures grows { AgreementGrows }
{}
