ghost use Rattle.std.specs.Prelude.{◌≡◌};

use crate::Bytes;

/// A call about the policies (EDK II, EDKII_VARIABLE_POLICY_PROTOCOL).
#[derive(Debug, Drop)]
pub enum PolicyCall {
    /// Registers the policy of an entry, given as its bytes (EDK II, RegisterVariablePolicy).
    Register(Bytes),
    /// Locks the policies, so that they stay as they are (EDK II, LockVariablePolicy).
    Lock,
    /// Turns policy off (EDK II, DisableVariablePolicy).
    Disable,
    /// Asks whether policy is on (EDK II, IsVariablePolicyEnabled).
    Enabled,
    /// Asks for the entry at a place in the order of registration, from 0 (this project's own; EDK II, DumpVariablePolicy, gives all at
    /// once).
    At(u32),
}

impl PolicyCall {
    ghost use Rattle.var_types.specs.PolicyStep.{takes_memory};

    /// Whether it takes memory.
    pub fn takes_memory(&self) -> bool
        ensures { result ≡ takes_memory self.now }
    {
        match self {
            PolicyCall::Register(_) | PolicyCall::At(_) => true,
            PolicyCall::Lock | PolicyCall::Disable | PolicyCall::Enabled => false,
        }
    }
}
