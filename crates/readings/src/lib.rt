// Readings of a sealed book: worths, the covered count, and the products by their must sets and lack groups.
#![tactic(auto)]

mod covered;
mod product;
mod product_worth;
mod worth;

pub use covered::read_covered;
pub use product::{read_group, read_group_count, read_must};
pub use product_worth::read_product_worth;
pub use worth::read_worth;
