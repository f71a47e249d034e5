// Two values of any two measures side by side.
pub mod meaning;

#[derive(Clone, Copy)]
pub struct Pair<V, W> {
    pub first: V,
    pub second: W,
}
