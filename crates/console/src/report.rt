ghost use Rattle.console.specs.Reports.{done_text, report_text};

use crate::fault::Fault;
use script::calls::Answer;
use script::settings::Setting;
use std::fmt;

/// What a line answers that is done once the books are open.
#[derive(Clone, Copy, PartialEq, Eq, Debug)]
pub(crate) enum Done<Q> {
    Set(Setting),
    Called(Answer<Q>),
}

/// What is printed of a line: its number, and what it came to.
#[derive(Clone, Copy, PartialEq, Eq, Debug)]
pub(crate) struct Report<T> {
    pub(crate) number: usize,
    pub(crate) outcome: Result<T, Fault>,
}

impl<Q: fmt::Display> fmt::Display for Done<Q> {
    ghost output = { λ x. done_text Q.output x };

    fn fmt<W: fmt::Write>(&self, f: &mut fmt::Formatter<W>) -> fmt::Result {
        match self {
            Done::Set(setting) => write!(f, "{setting}"),
            Done::Called(answer) => write!(f, "{answer}"),
        }
    }
}

impl<T: fmt::Display> fmt::Display for Report<T> {
    ghost output = { λ x. report_text T.output x.number x.outcome };

    fn fmt<W: fmt::Write>(&self, f: &mut fmt::Formatter<W>) -> fmt::Result {
        let number = self.number;
        match &self.outcome {
            Ok(done) => write!(f, "{done}"),
            Err(Fault::Refused(not_done)) => write!(f, "refused {not_done}"),
            Err(Fault::Malformed(what)) => write!(f, "line {number}: {what}"),
        }
    }
}
