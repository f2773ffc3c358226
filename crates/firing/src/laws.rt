//! The laws of firing, and of what is read of it. Each function is empty: its clause is the law.

ghost use Rattle.std.specs.Prelude.{ℕ, List, IfOk};
ghost use Rattle.construction.specs.Plans.{Plan};
ghost use Rattle.layer_laws.specs.Numbers.{Numbers};
ghost use Rattle.firing.specs.Firings.{EveryRunFiresTogetherOver, EveryRunFiresTogether};
ghost use Rattle.firing.specs.FirePart.{part_over, part_of, AreForNumbers, AreFor};
ghost use Rattle.firing.specs.RequestTexts.{RequestTextIsReadOver, RequestTextIsRead};

use layer_laws::AnyCounter;

/// In every run of a settling counter with firing above, whose modulus is a multiple of a slot's
/// length, for each slot that begins after the counter's bound and ends within the run: at its end
/// all correct nodes fire or none does. None does if none of them requests in the round before the
/// slot, and all do if all request in it; and none fires within the slot.
pub fn every_run_fires_together_over<C: AnyCounter>()
    ensures { (c : C) → EveryRunFiresTogetherOver (C.counter c) (C.is_state c) }
{}

/// So it is in every run of an accepted plan with firing above.
pub fn every_run_fires_together()
    ensures { EveryRunFiresTogether }
{}

/// Requests that are read are at most 256, of nodes of the counter, whose modulus is a multiple of
/// a slot's length.
pub fn requests_fit_over()
    ensures { (numbers : Numbers) (number : ℕ) (lines : List (List ℕ))
        → IfOk (part_over numbers number lines) (λ found. AreForNumbers numbers found.value) }
{}

/// So it is for a plan's counter.
pub fn requests_fit()
    ensures { (plan : Plan) (number : ℕ) (lines : List (List ℕ))
        → IfOk (part_of plan number lines) (λ found. AreFor plan found.value) }
{}

/// The text of requests for a counter, each from one round to a later one or the same, is read as
/// these requests, at the beginning of any text.
pub fn request_texts_read_back_over()
    ensures { RequestTextIsReadOver }
{}

/// So is that for the counter of an accepted plan.
pub fn request_texts_read_back()
    ensures { RequestTextIsRead }
{}
