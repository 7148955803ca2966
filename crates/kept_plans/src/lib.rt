//! Plans that are kept by the texts of their selections, so that a selection that comes again isn't compiled anew.
//!
//! The lists that selections name stand beside the plans: where a list comes, no plan is kept any more, since each was made under the lists
//! that were there.
#![tactic(auto)]

pub mod examples;
mod kept_plan;
mod limits;
mod next_plans;
mod prepared;
mod recent_plans;

pub use kept_plan::KeptPlan;
pub use limits::MAX_PLANS;
pub use next_plans::NextPlans;
pub use prepared::Prepared;
pub use recent_plans::RecentPlans;
