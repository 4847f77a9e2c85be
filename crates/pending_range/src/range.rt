ghost use Rattle.std.specs.Prelude.{◌≡◌};

/// The offsets from `from` up to, and not with, `to`; none where `to` is not above `from`.
#[derive(Clone, Copy, Debug)]
pub(crate) struct Range {
    pub(crate) from: u32,
    pub(crate) to: u32,
}

impl Range {
    ghost use Rattle.pending_range.specs.Ranges.{is_empty_range, is_within, spanned};

    /// Whether it has no offset.
    pub(crate) fn is_empty(self) -> bool
        ensures { result ≡ is_empty_range self }
    {
        self.to <= self.from
    }

    /// Whether it has this offset.
    pub(crate) fn contains(self, at: u32) -> bool
        ensures { result ≡ is_within self at }
    {
        self.from <= at && at < self.to
    }

    /// The least range that holds this one and another.
    pub(crate) fn joined(self, other: Range) -> Range
        ensures { result ≡ spanned self other }
    {
        if other.is_empty() {
            return self;
        }
        if self.is_empty() {
            return other;
        }
        Range {
            from: self.from.min(other.from),
            to: self.to.max(other.to),
        }
    }
}
