use std::marker::Model;

/// What an agree part says.
#[derive(Debug, Drop)]
pub struct AgreePart {
    /// How many values there are, 2 to 65536.
    pub values: u64,
    /// The input of each node, below the values.
    pub inputs: Vec<u64>,
}

impl Model for AgreePart {
    ghost use Rattle.consensus_layer.specs.AgreeContent.{AgreeContent};

    ghost Value = { AgreeContent };

    ghost view = { λ p. record { values = p.values; inputs = p.inputs.items } };
}
