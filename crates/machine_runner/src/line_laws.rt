//! The law of slot tables. The function is empty: its clause is the law.

ghost use Rattle.machine_runner.specs.LineLaws.{AtMostOneInALine};

/// In each line of a slot table at most one word of a correct node is 1, from the machine's bound
/// on, counted from the first configuration of the era.
pub fn at_most_one_in_a_line()
    ensures { AtMostOneInALine }
{}
