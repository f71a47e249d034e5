// The three checked types. The ghost field of each is its limit, so that every value that exists is within it.
ghost use Rattle.std.specs.Prelude.{◌^◌, ◌<◌, ◌≤◌};

pub mod list;
pub mod making;
pub mod picking;
pub mod sets;
pub mod text;
pub mod walking;

// How many parts a machine has, from 1 to 24; its parts are numbered from 0.
#[derive(Clone, Copy, PartialEq, Eq, Debug)]
pub struct PartCount {
    count: u32,
    ghost limit: { (1 ≤ count) × (count ≤ 24) },
}

// The number of one part, from 0 to 23.
#[derive(Clone, Copy, PartialEq, Eq, Debug)]
pub struct PartNumber {
    index: u32,
    ghost limit: { index < 24 },
}

// A set of parts: bit i, of value 2^i, stands for part i. A state of the machine and a path are such sets.
#[derive(Clone, Copy, PartialEq, Eq, Debug)]
pub struct PartSet {
    bits: u32,
    ghost limit: { bits < 2 ^ 24 },
}
