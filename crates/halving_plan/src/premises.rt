use thiserror::Error;

/// A premise of a plan, in the order in which they are tested.
#[derive(Clone, Copy, Debug, PartialEq, Eq, Error)]
pub enum HalvingPremise {
    /// A number is above its limit.
    #[error("there are more than 256 nodes, or the modulus is above 2^40")]
    Limit,
    /// The modulus is less than two.
    #[error("the modulus is less than two")]
    Modulus,
    /// A third of the nodes, or more, may be faulty.
    #[error("a third of the nodes, or more, may be faulty")]
    Quorum,
    /// None may be faulty, and there are several nodes.
    #[error("none may be faulty, and there are several nodes")]
    Single,
}
