//! Worked values. The function does nothing: its clause is the law.

ghost use Rattle.halvinglab.specs.Worked.{WorkedValues};

/// Plans have these texts and these tables, a plan and a script this run, with a slot table these
/// lines of who holds, with a layer's part these lines of its slots, texts that fail by each
/// premise these refusals, a node writes these cells, and words ask for this.
pub fn worked_values()
    ensures { WorkedValues }
{}
