// The types that the functions return. They have a module of their own because `real` and `Real` cannot share one.
ghost use Rattle.std.specs.Prelude.{◌≡◌};
ghost use Rattle.tib_real.specs.InNumbers.{whole_number};

use reading::Refusal;

// A real with its hint, and whether it has one. The bits are given beside the value because the value of a not-a-number does not show them.
// Kept: `with_bits` and `real_of`, as the C functions, take the number of a hint and whether there is one apart, and keep a number without a hint.
#[derive(Clone, Copy)]
pub struct Real {
    pub value: f64,
    pub bits: u64,
    pub hint: u64,
    pub hinted: bool,
}

// A real read as a whole number, in fractions or in decimals, as the C functions return it: a refusal and its place, or 0 and the number.
#[derive(Clone, Copy)]
pub struct WholeNumber {
    pub refusal: u64,
    pub place: u64,
    pub value: i64,
}

// The answer in numbers, by the result of reading a real.
impl From<Result<i64, Refusal>> for WholeNumber {
    ghost from_gives = { λ r answer. answer ≡ whole_number r };

    fn from(read: Result<i64, Refusal>) -> WholeNumber {
        match read {
            Ok(value) => WholeNumber {
                refusal: 0,
                place: 0,
                value,
            },
            Err(refusal) => WholeNumber {
                refusal: refusal.number(),
                place: 0,
                value: 0,
            },
        }
    }
}
