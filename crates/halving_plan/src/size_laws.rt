//! The laws of the bits of states. The functions are empty: their clauses are the laws.

ghost use Rattle.halving_plan.specs.Sizes.{BitsAreMost, BitsAreWritten};
ghost use Rattle.halving_plan.specs.OutputPlaces.{OutputsStandThere};

/// No node of an accepted plan has states of more bits, and one has states of so many.
pub fn bits_are_most()
    ensures { BitsAreMost }
{}

/// They are the bits of the states that the plan's machine reads and writes.
pub fn bits_are_written()
    ensures { BitsAreWritten }
{}

/// What a state shows stands in its bits where [`crate::output_start`] and [`crate::output_bits`]
/// say.
pub fn outputs_stand_there()
    ensures { OutputsStandThere }
{}
