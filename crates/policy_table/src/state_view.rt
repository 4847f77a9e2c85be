ghost use Rattle.std.specs.Prelude.{◌≡◌};
ghost use Rattle.var_types.specs.Policies.{one_byte};
ghost use Rattle.var_types.specs.State.{State, stored_at};

use var_types::Key;

/// What a lock on a variable's state asks of whoever keeps the variables.
pub trait StateView {
    /// The view stands for this state of the service.
    ghost is_of: { Self → State → Type 0 };

    /// The byte of what is stored at a key, visible or not, where it has exactly one.
    fn one_byte(&self, key: &Key) -> Option<u8>
        ensures { (state : State) → is_of self.now state → result ≡ one_byte (stored_at state key.now) };
}
