//! Policies, by which the functions of a firmware are put into compartments.

ghost use Rattle.std.specs.Prelude.{◌≡◌, IfSome, IfNone};
ghost use Rattle.plan_model.specs.declared.policy.Policy.{Policy as ThePolicy};
ghost use Rattle.plan_model.specs.PolicyWords.{policy_word};

/// A policy, by which the functions of a firmware are put into compartments.
#[derive(Clone, Copy)]
pub enum Policy {
    /// Each file with functions is a compartment.
    Filename,
    /// The same, but functions without peripherals move to where all their callers are.
    Optimized,
    /// Functions that use the same peripherals are a compartment.
    Peripheral,
}

impl Policy {
    /// The word of a policy.
    pub fn word(self) -> &'static [u8]
        ensures { result.now ≡ policy_word self }
    {
        match self {
            Policy::Filename => b"filename",
            Policy::Optimized => b"optimized",
            Policy::Peripheral => b"peripheral",
        }
    }

    /// The policy of a word, if it is that of one.
    pub fn of_word(word: &str) -> Option<Policy>
        ensures policy { IfSome result (λ p. policy_word p ≡ word.now) }
        ensures none { IfNone result ((p : ThePolicy) → policy_word p ≡ word.now → ⊥) }
    {
        if word == "filename" {
            return Some(Policy::Filename);
        }
        if word == "optimized" {
            return Some(Policy::Optimized);
        }
        if word == "peripheral" {
            return Some(Policy::Peripheral);
        }
        None
    }
}
