//! What holds in one field, and of windows and scopes by it.

mod accepted;
mod counted;
mod field;
mod fits;
mod form;
mod told;
mod window;

pub use accepted::accepted_law;
pub use counted::{counted_law, events_law, items_law};
pub use field::field_law;
pub use fits::fits_law;
pub use form::{form_law, needs_hit_law};
pub use told::{lies_law, told_law};
pub use window::{scope_law, window_law};
