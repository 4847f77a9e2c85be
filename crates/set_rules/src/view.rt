ghost use Rattle.std.specs.Prelude.{◌≡◌, ◌≤◌, ℕ};
ghost use Rattle.std.specs.BTreeMap.{is_at};
ghost use Rattle.std.specs.Map.{remove_entry};
ghost use Rattle.set_rules.specs.Seen.{seen, store_if};
ghost use Rattle.var_types.specs.declared.key.Key.{Key};
ghost use Rattle.var_types.specs.Key.{key_cmp, key_of};
ghost use Rattle.var_types.specs.Policies.{denied, question_of};
ghost use Rattle.var_types.specs.Room.{room_used};
ghost use Rattle.var_types.specs.State.{State, stored_at};

use var_types::{Ask, Denied, Guid, Stamp};

/// What is stored at a key, whose bytes are lent.
#[derive(Clone, Copy, Debug)]
pub struct Stored<'a> {
    pub attributes: u32,
    pub stamp: Stamp,
    pub payload: &'a [u8],
}

/// What the set rule asks of whoever keeps the variables. Each answer is right for every state that the view stands for.
pub trait View {
    /// The view stands for this state of the service.
    ghost is_of: { Self → State → Type 0 };

    /// The view can tell what is stored at this key: one over an ordered map knows the key that it was made for, since to make another
    /// takes memory.
    ghost knows: { Self → Key → Type 0 };

    /// What is stored at a key, visible or not.
    fn stored(&self, guid: &Guid, name: &[u16]) -> Option<Stored<'_>>
        requires { knows self.now (key_of guid.now name.now) }
        ensures { (state : State) → is_of self.now state → seen result ≡ stored_at state (key_of guid.now name.now) };

    /// Whether the phase is runtime.
    fn runtime(&self) -> bool
        ensures { (state : State) → is_of self.now state → result ≡ state.runtime };

    /// Whether a policy denies a set, and by which rule.
    fn denied(&self, ask: &Ask<'_>) -> Option<Denied>
        ensures { (state : State) → is_of self.now state → result ≡ denied state (question_of ask.now) };

    /// The room that the variables of a store take, in bytes, without that at a key.
    fn used_without(&self, non_volatile: bool, guid: &Guid, name: &[u16]) -> u32
        requires { knows self.now (key_of guid.now name.now) }
        ensures used { (state : State) → is_of self.now state
            → result ≡ room_used (store_if non_volatile) (remove_entry (is_at (key_cmp (key_of guid.now name.now))) state.variables) }
        ensures small { result ≤ 1000000 };

    /// How many changes were made.
    fn made(&self) -> u64
        ensures { (state : State) → is_of self.now state → result ≡ state.made };

    /// How many changes may be made.
    fn limit(&self) -> u64
        ensures { (state : State) → is_of self.now state → result ≡ state.limit };
}
