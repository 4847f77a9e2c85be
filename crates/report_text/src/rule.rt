ghost use Rattle.std.specs.Prelude.{◌≡◌};
ghost use Rattle.report_text.specs.Rule.{rule_text};

use var_types::Rule;

/// The characters of a rule of a policy.
#[tactic(auto, unfolding(crate::specs::Rule::rule_text))]
pub(crate) fn rule_text(rule: Rule) -> &'static str
    ensures { result.now ≡ rule_text rule }
{
    match rule {
        Rule::MinSize => "min-size",
        Rule::MaxSize => "max-size",
        Rule::Must => "must",
        Rule::Cant => "cant",
        Rule::LockNow => "lock-now",
        Rule::LockOnCreate => "lock-on-create",
        Rule::LockOnState => "lock-on-state",
    }
}
