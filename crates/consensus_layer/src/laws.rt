//! The laws of consensus, and of what is read of it, on any counter and on plans. Each function is
//! empty: its clause is the law.

ghost use Rattle.std.specs.Prelude.{ℕ, List, IfOk};
ghost use Rattle.construction.specs.Plans.{Plan};
ghost use Rattle.layer_laws.specs.Numbers.{Numbers};
ghost use Rattle.consensus_layer.specs.Agreements.{EveryRunDecides, EveryRunDecidesOver};
ghost use Rattle.consensus_layer.specs.ChangingInputs.{ChangingInputsDecide};
ghost use Rattle.consensus_layer.specs.ChangingInputs.{ChangingInputsDecideOver};
ghost use Rattle.consensus_layer.specs.AgreePart.{part_over, IsForNumbers, part_of, IsAgreeForPlan};
ghost use Rattle.consensus_layer.specs.AgreeTexts.{AgreeTextIsRead, AgreeTextIsReadOver};

use layer_laws::AnyCounter;

/// In every run of a settling counter with consensus above, whose modulus is a multiple of a slot's
/// length, each slot that begins after the counter's bound and ends within the run ends with one
/// decision at all correct nodes. It is their common input if they have one.
pub fn every_run_decides_over<C: AnyCounter>()
    ensures { (c : C) → EveryRunDecidesOver (C.counter c) (C.is_state c) }
{}

/// So it is if each node's input may be another one in each round: a slot's decision is the common
/// input of the round before the slot, if there is one.
pub fn changing_inputs_decide_over<C: AnyCounter>()
    ensures { (c : C) → ChangingInputsDecideOver (C.counter c) (C.is_state c) }
{}

/// Inputs that are read for a counter are as many as its nodes and below the values, of which there
/// are 2 to 65536, and its modulus is a multiple of a slot's length.
pub fn inputs_fit_over()
    ensures { (numbers : Numbers) (number : ℕ) (lines : List (List ℕ))
        → IfOk (part_over numbers number lines) (λ found. IsForNumbers numbers found.value) }
{}

/// The text of values and inputs for a counter is read as these, at the beginning of any text.
pub fn agree_texts_read_back_over()
    ensures { AgreeTextIsReadOver }
{}

/// In every run of an accepted plan with consensus above, whose modulus is a multiple of a slot's
/// length, each slot that begins after the plan's bound and ends within the run ends with one
/// decision at all correct nodes. It is their common input if they have one.
pub fn every_run_decides()
    ensures { EveryRunDecides }
{}

/// So it is if each node's input may be another one in each round: a slot's decision is the common
/// input of the round before the slot, if there is one.
pub fn changing_inputs_decide()
    ensures { ChangingInputsDecide }
{}

/// Inputs that are read are as many as the plan's nodes and below the values, of which there are 2
/// to 65536, and the plan's modulus is a multiple of a slot's length.
pub fn inputs_fit()
    ensures { (plan : Plan) (number : ℕ) (lines : List (List ℕ))
        → IfOk (part_of plan number lines) (λ found. IsAgreeForPlan plan found.value) }
{}

/// The text of values and inputs for an accepted plan is read as these, at the beginning of any
/// text.
pub fn agree_texts_read_back()
    ensures { AgreeTextIsRead }
{}
