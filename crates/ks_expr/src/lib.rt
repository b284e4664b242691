//! Expressions, predicates and projections over rows, and foreign keys, as definitions and as code.
#![tactic(auto)]

mod evaluation;
mod keys;
mod projection;
mod terms;
mod value;

pub use evaluation::{eval, holds};
pub use keys::{fk_of, front_of, fronts_are_keys, spread_part};
pub use projection::project;
pub use terms::{Expr, Fk, JoinKind, Pred, Proj};
