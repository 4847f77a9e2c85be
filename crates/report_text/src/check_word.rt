ghost use Rattle.std.specs.Prelude.{◌≡◌};

/// The fixed words of the check report that no other line has.
#[derive(Clone, Copy, Debug, PartialEq, Eq)]
pub enum CheckWord {
    Ok,
    Authenticated,
    Plain,
    Work,
    Unmade,
    Clean,
    Pending,
    Spare,
    Blank,
    Used,
    Records,
    Added,
    Transition,
    Deleted,
    Other,
    Tail,
    Dirty,
}

impl CheckWord {
    ghost use Rattle.report_text.specs.CheckWord.{check_word_text};

    /// The word's characters.
    #[tactic(auto, unfolding(crate::specs::CheckWord::check_word_text))]
    pub fn text(self) -> &'static str
        ensures { result.now ≡ check_word_text self }
    {
        match self {
            CheckWord::Ok => "ok",
            CheckWord::Authenticated => "authenticated",
            CheckWord::Plain => "plain",
            CheckWord::Work => "work",
            CheckWord::Unmade => "unmade",
            CheckWord::Clean => "clean",
            CheckWord::Pending => "pending",
            CheckWord::Spare => "spare",
            CheckWord::Blank => "blank",
            CheckWord::Used => "used",
            CheckWord::Records => "records",
            CheckWord::Added => "added",
            CheckWord::Transition => "transition",
            CheckWord::Deleted => "deleted",
            CheckWord::Other => "other",
            CheckWord::Tail => "tail",
            CheckWord::Dirty => "dirty",
        }
    }
}
