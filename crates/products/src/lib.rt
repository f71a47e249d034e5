// Products of parts: what a kind of product offers and must show, and what can be done with every kind.
#![tactic(auto)]

mod blank;
mod cutting;
mod groups;
mod kind;
mod pieces;
mod states;
mod text;

pub use blank::blank_products;
pub use cutting::{new_products, pieces_of_all};
pub use groups::Groups;
pub use kind::ProductKind;
pub use pieces::Pieces;
pub use states::{holds, pieces_that_hold};
pub use text::Printed;
