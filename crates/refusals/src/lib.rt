// Why a call refuses: one enum for every refusal of the book, with its number and its sentence.
#![tactic(auto)]

mod refusal;

pub use refusal::Refusal;
