// The cases of an open partial, as numbers.
ghost use Rattle.std.specs.Prelude.{◌≡◌};
ghost use Rattle.encoding.specs.Cases.{case_number, CaseOf};
ghost use Rattle.encoding.specs.Written.{case_of};

use engine::partial::Open;

// The cases of an open partial, each with its number.
#[derive(Clone, Copy)]
pub(crate) enum Case {
    Nothing = 0,
    Empty = 1,
    Holding = 2,
}

// The case of an open partial.
impl From<Open> for Case {
    ghost from_gives = { λ partial case. case_number case ≡ case_of partial };

    fn from(partial: Open) -> Case {
        match partial {
            Open::Nothing => Case::Nothing,
            Open::Empty => Case::Empty,
            Open::Holding(_) => Case::Holding,
        }
    }
}

// The number of a case.
impl From<Case> for u64 {
    ghost from_gives = { λ case number. number ≡ case_number case };

    fn from(case: Case) -> u64 {
        case as u64
    }
}

// The case of a number. There is none above 2.
impl TryFrom<u64> for Case {
    type Error = ();

    ghost try_from_gives = { CaseOf };

    fn try_from(number: u64) -> Result<Case, ()> {
        match number {
            0 => Ok(Case::Nothing),
            1 => Ok(Case::Empty),
            2 => Ok(Case::Holding),
            _ => Err(()),
        }
    }
}
