ghost use Rattle.bureau.specs.Texts.{outcome_text};

use day::opening::NewDay;
use day_calls::calls::{Answer, DayCall, NotDone};
use quantity::reserve::ReserveQuantity;
use std::fmt;

/// A call of a bureau, with the prices of an award as a `P`: a new day is opened, or a call is made of a day that was.
#[derive(Clone, Copy, PartialEq, Eq, Debug)]
pub enum Call<Q, P> {
    Open(NewDay),
    On { day: usize, call: DayCall<Q, P> },
}

/// A call of a bureau that is lent its prices.
pub type LentCall<'a, Q> = Call<Q, &'a [u32]>;

/// What a call of a bureau came to, with the handle of the day that it was of.
#[derive(Clone, Copy, PartialEq, Eq, Debug)]
pub struct Reply<Q> {
    pub day: usize,
    pub answer: Result<Answer<Q>, NotDone>,
}

impl<Q: ReserveQuantity + fmt::Display> fmt::Display for Reply<Q> {
    ghost output = { λ x. outcome_text Q.directions Q.output x.day x.answer };

    fn fmt<W: fmt::Write>(&self, f: &mut fmt::Formatter<W>) -> fmt::Result {
        let day = self.day;
        match &self.answer {
            Ok(Answer::Opened) => write!(f, "opened {day}"),
            Ok(answer) => write!(f, "{answer}"),
            Err(why) => write!(f, "{why}"),
        }
    }
}
