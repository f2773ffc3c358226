use std::marker::Model;

/// What a node commands, in turn: at least one value.
#[derive(Debug, Drop)]
pub struct Commands {
    values: Vec<u64>,
}

impl Model for Commands {
    ghost use Rattle.std.specs.Prelude.{List, ℕ, ◌<◌, length};

    ghost Value = { List ℕ };

    ghost view = { λ c. c.values.items };

    ghost invariant = { λ c. 0 < length c.values.items };
}

impl Commands {
    ghost use Rattle.std.specs.Prelude.{◌≡◌, ◌%◌, ◌<◌, length, slice_index};

    /// These commands, of which there is at least one.
    pub fn new(values: Vec<u64>) -> Commands
        requires { 0 < length values.items }
        ensures { result ≡ values.items }
    {
        Commands { values }
    }

    /// The command whose turn has this number: after the last the first comes again.
    pub fn in_turn(&self, turn: u64) -> u64
        ensures { result ≡ slice_index self.now (turn % length self.now) }
    {
        self.values[(turn % self.values.len() as u64) as usize]
    }
}
