ghost use Rattle.std.specs.Prelude.{◌≡◌};

use flash_dev::Flash;

/// A flash that lists what is done to it, and gives its list out.
pub trait Lists: Flash {
    /// What it lists.
    type List: Drop;

    /// It gave this list out, and is as it was but for that.
    ghost gives: { Self → Self.List → Self → Type 0 };

    /// Gives out the list of what was done since it last gave one.
    fn give_list(&mut self) -> Self::List
        ensures gives { gives self.old result self.new }
        ensures holds { Self.holds self.new ≡ Self.holds self.old }
        ensures size { Self.size self.new ≡ Self.size self.old };
}
