//! The laws of what is written with a layer. Each function is empty: its clause is the law.

ghost use Rattle.counter_core.specs.Overlays.{Layer};
ghost use Rattle.layer_runner.specs.LineLaws.{DecisionsAsDefined, FiresAsDefined, EntriesAsDefined};
ghost use Rattle.layer_runner.specs.CountedSlots.{PlayedErasCount, SlotsCountOver};
ghost use Rattle.layer_runner.specs.LinePromises.{LinesDecideOver, LinesFireTogetherOver};
ghost use Rattle.layer_runner.specs.LinePromises.{LinesPutOneOver};
ghost use Rattle.layer_runner.specs.PlayedScripts.{ScriptsArePlayedOver};

use counter_core::Overlay;
use layer_laws::AnyCounter;

/// What is written of consensus while a script is played, each line where its slot ends, is a line
/// of each slot that counts and begins in a configuration that is shown: whether one begins may be
/// seen where it ends, by the output there.
pub fn decisions_as_defined()
    ensures { DecisionsAsDefined }
{}

/// What is written of firing while a script is played, each line where its slot ends, is a line of
/// each slot that counts and begins in a configuration that is shown, in the order of these.
pub fn fires_as_defined()
    ensures { FiresAsDefined }
{}

/// What is written of a log while a script is played, each line where its slot ends, is a line of
/// each slot that counts and begins in a configuration that is shown, in the order of these. Its
/// owner is that of the output there, though it is found from the output at the slot's end.
pub fn entries_as_defined()
    ensures { EntriesAsDefined }
{}

/// What is played of a script on a counter of as many nodes, with a layer that keeps something for
/// each of them, has the script's starts, faulty sets and lies: whom a start line puts into a state
/// is in it, and each other node steps, with its layer, from what it hears.
pub fn scripts_are_played_over<O: Overlay>()
    ensures { (layer : Layer O.Kept) → ScriptsArePlayedOver layer }
{}

/// What is played of each era of a script counts from the bound on, if it is a run of a settling
/// counter with the layer.
pub fn played_eras_count<C: AnyCounter, O: Overlay>()
    ensures { (c : C) (layer : Layer O.Kept)
        → PlayedErasCount layer (C.counter c) (C.is_state c) }
{}

/// If what is played of each era is a run of a settling counter with the layer, a line of a slot is
/// written exactly if a slot begins in a configuration that is shown, later than the bound in its
/// era, and ends in that era and within the rounds.
pub fn slots_count_over<C: AnyCounter, O: Overlay>()
    ensures { (c : C) (layer : Layer O.Kept)
        → SlotsCountOver layer (C.counter c) (C.is_state c) }
{}

/// In each line of a slot of consensus the words of all correct nodes are one number, which is
/// their common input if they have one.
pub fn lines_decide_over<C: AnyCounter>()
    ensures { (c : C) → LinesDecideOver (C.counter c) (C.is_state c) }
{}

/// In each line of a slot of firing all words of correct nodes say that they fire, or all that they
/// don't: as the correct nodes requested in the round before the slot, if they did the same.
pub fn lines_fire_together_over<C: AnyCounter>()
    ensures { (c : C) → LinesFireTogetherOver (C.counter c) (C.is_state c) }
{}

/// In each line of a slot of the log the words of all correct nodes are one number, the value of
/// the slot's own entry, which stands newest in the log of each of them. If the owner that the line
/// names is correct, it is what the owner commands at the output with which the slot begins.
pub fn lines_put_one_over<C: AnyCounter>()
    ensures { (c : C) → LinesPutOneOver (C.counter c) (C.is_state c) }
{}
