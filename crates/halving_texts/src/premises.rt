ghost use Rattle.std.specs.Prelude.{◌≡◌};
ghost use Rattle.halving_texts.specs.HalvingRefusals.{premise_word};

use halving_plan::HalvingPremise;

/// The premise that a line of a halving part fails.
#[derive(Clone, Copy, Debug, PartialEq, Eq)]
pub enum LinePremise {
    /// The line may not stand there, or is not of its form.
    Form,
    /// The numbers of the line are those of no accepted plan.
    Plan(HalvingPremise),
}

impl LinePremise {
    /// The word for it, as a refusal says it.
    pub fn word(self) -> &'static str
        ensures { result.now ≡ premise_word self }
    {
        match self {
            LinePremise::Form => "form",
            LinePremise::Plan(HalvingPremise::Limit) => "limit",
            LinePremise::Plan(HalvingPremise::Modulus) => "modulus",
            LinePremise::Plan(HalvingPremise::Quorum) => "quorum",
            LinePremise::Plan(HalvingPremise::Single) => "single",
        }
    }
}
