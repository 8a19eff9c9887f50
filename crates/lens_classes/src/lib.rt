//! The classes of a lens that looks at whole lines. A line of such a lens grants some of the tracked bids that only a
//! whole line decides and loses the others. For each choice of those that it grants there are terms, which a lens that
//! looks at pairings one by one can keep: what its credit, its days off and its other bids are to come to.
#![tactic(auto)]

mod classes;
mod laws;
mod sums;
mod terms;

pub use classes::{class_terms, plain_terms};
pub use laws::{
    legal_lines_pass, plain_lenses_pass_as_before, whole_lenses_pass_by_classes,
    wider_terms_pass_more,
};
pub use terms::Terms;
