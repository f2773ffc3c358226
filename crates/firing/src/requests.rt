use std::marker::Model;

/// A node requests in the rounds from the first to the last, both included.
#[derive(Clone, Copy, Debug, PartialEq, Eq, Drop)]
pub struct Request {
    /// The id of the node.
    pub node: u32,
    /// The first round in which it requests.
    pub first: u64,
    /// The last round in which it requests.
    pub last: u64,
}

/// All requests, in the order of their lines.
#[derive(Debug, Drop)]
pub struct Requests {
    pub items: Vec<Request>,
}

impl Model for Requests {
    ghost use Rattle.std.specs.Prelude.{List};
    ghost use Rattle.firing.specs.declared.requests.Request.{Request};

    ghost Value = { List Request };

    ghost view = { λ r. r.items.items };
}
