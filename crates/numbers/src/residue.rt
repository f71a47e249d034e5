// A residue modulo 2147483647. A record means its remainder.
ghost use Rattle.std.specs.Prelude.{◌≡◌, ◌%◌};
ghost use Rattle.numbers.specs.Limits.{limit};

pub mod measure;

#[derive(Clone, Copy, Debug)]
pub struct Residue {
    pub value: u32,
}

impl Residue {
    pub const MODULUS: u32 = 2_147_483_647;
}

// The residue of a number is its remainder.
impl From<u32> for Residue {
    ghost from_gives = { λ value result. result.value ≡ value % limit };

    fn from(value: u32) -> Residue {
        Residue {
            value: value % Self::MODULUS,
        }
    }
}
