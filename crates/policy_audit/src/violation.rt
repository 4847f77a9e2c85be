use var_types::{Key, Rule};

/// A variable that breaks the policy that counts for it: the first rule that it breaks, and the place of the policy from 0.
#[derive(Clone, Copy, Debug)]
pub struct Violation<'a> {
    pub key: &'a Key,
    pub rule: Rule,
    pub place: u32,
}
