use crate::commands::Commands;
use std::marker::Model;

/// What a log part says.
#[derive(Debug, Drop)]
pub struct LogPart {
    /// How many values there are, 2 to 65536.
    pub values: u64,
    /// How many entries a log keeps, 1 to 1024.
    pub keep: usize,
    /// What each node commands.
    pub commands: Vec<Commands>,
}

impl Model for LogPart {
    ghost use Rattle.replicated_log.specs.LogContent.{LogContent};

    ghost Value = { LogContent };

    ghost view = { λ p. record {
      values = p.values;
      keep = p.keep;
      commands = p.commands.items;
    } };
}
