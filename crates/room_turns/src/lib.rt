//! What callers may do in a room before a change and after it, as far as that differs.
#![tactic(auto)]

mod asked;
mod comparing;
mod earlier;
pub mod laws;
mod spot;
mod standing;
mod telling;
mod walking;

pub use asked::Asked;
pub use comparing::compare;
