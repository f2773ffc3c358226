//! The laws of runs with a layer, for any layer, over any counter and over plans. Each function is
//! empty: its clause is the law.

ghost use Rattle.counter_core.specs.Overlays.{Layer};
ghost use Rattle.layer_laws.specs.CounterLaws.{RunsWithoutLayerOver, SlotsAgreeOver};
ghost use Rattle.layer_laws.specs.CounterLaws.{ErasAreRunsOver};
ghost use Rattle.layer_laws.specs.Laws.{PlansSettle, RunsWithoutLayer, SlotsAgree, ErasAreRuns};

use crate::counters::AnyCounter;
use counter_core::Overlay;

/// A run with a layer is a run of the counter, once the layer's registers are cut off and what
/// nodes keep is forgotten, if registers after the counter's own change neither its steps nor what
/// it shows, as of a settling one. So what holds of the counter's runs holds of it.
pub fn runs_without_layer_over<C: AnyCounter, O: Overlay>()
    ensures { (c : C) (layer : Layer O.Kept)
        → RunsWithoutLayerOver layer (C.counter c) (C.is_state c) }
{}

/// Each slot that begins at a settling counter's bound or later, and ends within the run, ends in
/// agreement: all correct nodes come out of the last round with one value, the common one if their
/// registers had one before the first.
pub fn slots_agree_over<C: AnyCounter, O: Overlay>()
    ensures { (c : C) (layer : Layer O.Kept)
        → SlotsAgreeOver layer (C.counter c) (C.is_state c) }
{}

/// What is played of a layer whose step keeps values in range, on a settling counter, from states
/// in range and with lies in range, is a run with the layer.
pub fn eras_are_runs_over<C: AnyCounter, O: Overlay>()
    ensures { (c : C) (layer : Layer O.Kept)
        → ErasAreRunsOver layer (C.counter c) (C.is_state c) }
{}

/// The counter of an accepted plan is settling, so that these laws hold of plans.
pub fn plans_settle()
    ensures { PlansSettle }
{}

/// A run with a layer is a run of the plan, once the layer's registers are cut off and what nodes
/// keep is forgotten. So it settles, locks and counts, whatever the layer does.
pub fn runs_without_layer<O: Overlay>()
    ensures { (layer : Layer O.Kept) → RunsWithoutLayer layer }
{}

/// Each slot that begins at the plan's bound or later, and ends within the run, ends in agreement:
/// all correct nodes come out of the last round with one value, the common one if their registers
/// had one before the first.
pub fn slots_agree<O: Overlay>()
    ensures { (layer : Layer O.Kept) → SlotsAgree layer }
{}

/// What is played of a layer whose step keeps values in range, from states in range and with lies
/// in range, is a run with the layer.
pub fn eras_are_runs<O: Overlay>()
    ensures { (layer : Layer O.Kept) → ErasAreRuns layer }
{}
