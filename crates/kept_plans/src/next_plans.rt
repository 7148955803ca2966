//! What is kept after a command that uses plans.

use crate::recent_plans::RecentPlans;

/// What is put in place once a command is accepted that uses plans, for which nothing can fail any more.
#[derive(Drop)]
pub enum NextPlans {
    /// The plans that were kept, in another order: each of those that are used is one of them.
    Same,
    /// The plans that take their place, and how often a text was used again.
    Others { plans: RecentPlans, hits: u64 },
}
