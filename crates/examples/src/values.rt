// Values of measures at their limits, and records that mean another value.
use lives::Life;
use measures::{Measure, Pair, lack_of};
use numbers::{Count, Residue};
use refusals::Refusal;
use std::test::Fail;

#[test]
fn counts_stop_at_the_cap(rt: HostRuntime) -> Result<(), Fail> {
    let most = Count::try_from(2_147_483_647)?;
    assert!(rt; Count::try_from(2_147_483_648).err() == Some(Refusal::ValueOutOfRange));
    assert_eq!(rt; most.plus(Count::one()), most);
    assert_eq!(rt; most.times(most), most);
    assert_eq!(rt; Count { value: u32::MAX }, most);
    Ok(())
}

#[test]
fn residues_leave_the_remainder(rt: HostRuntime) {
    assert_eq!(rt; Residue::from(2_147_483_647), Residue::zero());
    assert_eq!(rt;
        Residue {
            value: 2_147_483_648,
        },
        Residue::one()
    );
    assert_eq!(rt;
        Residue::from(3).plus(Residue::from(2_147_483_645)),
        Residue::one()
    );
}

#[test]
fn lives_from_zero_to_one(rt: HostRuntime) -> Result<(), Fail> {
    assert_eq!(rt; Life::try_from(1.0)?, Life::one());
    assert!(rt; Life::try_from(-0.0).err() == Some(Refusal::ValueOutOfRange));
    assert!(rt; Life::try_from(1.5).err() == Some(Refusal::ValueOutOfRange));
    assert!(rt; Life::try_from(0.0 / 0.0).err() == Some(Refusal::ValueOutOfRange));
    let (half, most) = (Life::try_from(0.5)?, Life::try_from(0.75)?);
    assert_eq!(rt; half.plus(most), most);
    assert_eq!(rt; half.times(most), half);
    assert_eq!(rt; Life { value: 2.0 }, Life::zero());
    Ok(())
}

#[test]
fn pairs_side_by_side(rt: HostRuntime) {
    let two = Pair {
        first: Count { value: 2 },
        second: Residue {
            value: 2_147_483_646,
        },
    };
    let sum = two.plus(Pair::one());
    assert!(rt; sum.first == Count { value: 3 });
    assert!(rt; sum.second == Residue::zero());
    assert!(rt; two == two.times(Pair::one()));
}

// Of two parts that weigh 1 either way, at least one has failed in three of four ways.
#[test]
fn one_of_two_has_failed(rt: HostRuntime) {
    let ones = [Count::one(), Count::one()];
    assert_eq!(rt; lack_of(&ones, &ones), Count { value: 3 });
}
