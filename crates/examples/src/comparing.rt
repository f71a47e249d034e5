// What a caller learns of the comparison of refusals, which is derived.
ghost use Rattle.std.specs.Prelude.{◌≡◌, ◌==◌};
ghost use Rattle.refusals.specs.Numbers.{number_of};

use refusals::Refusal;

// Two refusals are equal when their numbers are.
pub fn are_equal(one: Refusal, other: Refusal) -> bool
    ensures { result ≡ (number_of one == number_of other) }
{
    one == other
}
