// A life: the remaining life of a part, from 0.0 to 1.0 without a sign bit. It is a plain record.
pub mod making;
pub mod measure;

#[derive(Clone, Copy, Debug)]
pub struct Life {
    pub value: f64,
}
