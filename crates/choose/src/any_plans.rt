//! The plans of both constructions.

use halving_plan::HalvingPlan;
use plan_numbers::Plan;

/// A plan of either construction.
#[derive(Debug, Drop)]
pub enum AnyPlan {
    /// One of the boosting construction, as `counterlab` reads it.
    Boosting(Plan),
    /// One of the halving construction, as `halvinglab` reads it.
    Halving(HalvingPlan),
}
