//! What lines are turned into. The functions are empty: their clauses are what they say.

ghost use Rattle.states.specs.Laws.{EachIsTurned, EachIsTurnedAgain};
ghost use Rattle.states.specs.Worked.{StatesAreSpelled};

/// Of each state of each node the line in digits is turned into that in words, and the line in
/// words, if the node has a field, into that in digits.
pub fn lines_are_turned()
    ensures { EachIsTurned }
{}

/// The line that a line is turned into is one that is turned, if each node has a field.
pub fn turned_lines_are_turned()
    ensures { EachIsTurnedAgain }
{}

/// An input with its text, letter by letter, and one that is refused for each fault of a line.
pub fn states_are_spelled()
    ensures { StatesAreSpelled }
{}
