ghost use Rattle.std.specs.Prelude.{Some};
ghost use Rattle.day_calls.specs.Texts.{answer_text, not_called_text, not_done_text};

use crate::calls::{Answer, NotCalled, NotDone};
use quantity::reserve::ReserveQuantity;
use quantity::up_down::UpDown;
use std::fmt;

impl fmt::Display for NotCalled {
    ghost output = { λ x. Some (not_called_text x) };

    fn fmt<W: fmt::Write>(&self, f: &mut fmt::Formatter<W>) -> fmt::Result {
        match self {
            NotCalled::NoSuchDay => write!(f, "no such day"),
            NotCalled::NotInThisStage => write!(f, "not in this stage"),
            NotCalled::NoMemory => write!(f, "no memory"),
        }
    }
}

impl fmt::Display for NotDone {
    ghost output = { λ x. Some (not_done_text x) };

    fn fmt<W: fmt::Write>(&self, f: &mut fmt::Formatter<W>) -> fmt::Result {
        match self {
            NotDone::Refused(refusal) => write!(f, "refused {refusal}"),
            NotDone::NotCalled(why) => write!(f, "{why}"),
        }
    }
}

impl<Q: ReserveQuantity + fmt::Display> fmt::Display for Answer<Q> {
    ghost output = { λ x. answer_text Q.directions Q.output x };

    fn fmt<W: fmt::Write>(&self, f: &mut fmt::Formatter<W>) -> fmt::Result {
        match self {
            Answer::Opened => write!(f, "opened"),
            Answer::Awarded => write!(f, "awarded"),
            Answer::Placed(place) => write!(f, "place {place}"),
            Answer::GatePassed => write!(f, "gate passed"),
            Answer::Held(quantity) => write!(f, "holding {quantity}"),
            Answer::Lacking(UpDown { up, down }) => {
                if Q::direction_count() == 1 {
                    write!(f, "missing {up}")
                } else {
                    write!(f, "missing {up}/{down}")
                }
            }
            Answer::Standing(status) => write!(f, "{status}"),
        }
    }
}
