// Making a life from a plain number: what is not a number, has a sign bit (minus zero too) or is above 1.0 is refused.
ghost use Rattle.lives.specs.Lives.{Lively};
ghost use Rattle.refusals.specs.Checked.{Checked};
ghost use Rattle.refusals.specs.declared.refusal.Refusal.TheVariants.{ValueOutOfRange};

use super::Life;
use refusals::Refusal;

impl TryFrom<f64> for Life {
    type Error = Refusal;

    ghost try_from_gives = { Checked Lively ValueOutOfRange (λ l. l.value) };

    fn try_from(value: f64) -> Result<Life, Refusal> {
        if value <= 1.0 && value.is_sign_positive() {
            Ok(Life { value })
        } else {
            Err(Refusal::ValueOutOfRange)
        }
    }
}
