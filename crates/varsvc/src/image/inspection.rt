use policy_audit::Policies;

/// What is printed of what an image keeps.
#[derive(Clone, Copy, Debug)]
pub enum Inspection<'a> {
    /// The listing of its variables.
    Listing,
    /// The check report.
    Check,
    /// The audit of its variables by policies.
    Audit(&'a Policies),
}
