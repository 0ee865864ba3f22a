ghost use Rattle.std.specs.Prelude.{◌≡◌, ◌++◌, Some, codes, decimal};
ghost use Rattle.console.specs.Tallies.{counted};

use crate::choice::Choice;
use crate::fault::Fault;
use crate::report::{Done, Report};
use book::interface::Book;
use full_book::stored::StoredFullBook;
use limit_layer::layer::LimitLayer;
use quantity::afrr::Band;
use quantity::fcr::Volume;
use script::perform::perform;
use script::quantities::Written;
use script::settings::{Bottom, Line, Service, Switch};
use sparse_book::stored::StoredSparseBook;
use std::io::Read;
use std::{fmt, io};

/// How many calls were taken and refused, and how many lines were not understood.
#[derive(Clone, Copy, PartialEq, Eq, Debug, Default)]
pub struct Tally {
    pub taken: u64,
    pub refused: u64,
    pub not_understood: u64,
}

impl Tally {
    // Counts what a line came to.
    fn count<T>(&mut self, outcome: &Result<T, Fault>)
        ensures { self.new ≡ counted self.old outcome.now }
    {
        match outcome {
            Ok(_) => self.taken = self.taken.saturating_add(1),
            Err(Fault::Refused(_)) => self.refused = self.refused.saturating_add(1),
            Err(Fault::Malformed(_)) => self.not_understood = self.not_understood.saturating_add(1),
        }
    }
}

impl fmt::Display for Tally {
    ghost output = { λ x. Some (codes "taken " ++ decimal x.taken ++ codes " refused " ++ decimal x.refused ++ codes " not understood " ++ decimal x.not_understood) };

    fn fmt<W: fmt::Write>(&self, f: &mut fmt::Formatter<W>) -> fmt::Result {
        let Tally {
            taken,
            refused,
            not_understood,
        } = *self;
        write!(
            f,
            "taken {taken} refused {refused} not understood {not_understood}"
        )
    }
}

// A run of a script: where it prints and allocates, what it has chosen, and what its lines came to so far.
#[derive(Drop)]
struct Session<'a, R> {
    rt: &'a R,
    text: &'a str,
    choice: Choice,
    tally: Tally,
}

impl<'a, R: Print + AllocGlobal> Session<'a, R> {
    // Prints what a line comes to, and counts it.
    fn tell<T: fmt::Display + Drop>(
        &mut self,
        place: usize,
        outcome: Result<T, Fault>,
    ) -> io::Result<()> {
        self.tally.count(&outcome);
        let number = place.saturating_add(1);
        println!(self.rt; "{}", Report { number, outcome })
    }

    // Takes the settings of a script up to its first call, and tells that call's place and service.
    fn settle(&mut self) -> io::Result<Option<(usize, Service)>> {
        for (place, line) in self.text.lines().enumerate() {
            let outcome = match line.parse() {
                Ok(Line::Blank) => continue,
                Ok(Line::Setting(setting)) => self.choice.take_early(setting),
                Ok(Line::Call) => match self.choice.open(line) {
                    Ok(service) => return Ok(Some((place, service))),
                    Err(what) => Err(what.into()),
                },
                Err(what) => Err(what.into()),
            };
            self.tell(place, outcome)?;
        }
        Ok(None)
    }

    // Does a line once the books are open; nothing comes of a blank one.
    fn run_line<B: Book>(&mut self, line: &str, book: &mut B) -> Result<Option<Done<B::Q>>, Fault>
    where
        B::Q: Written,
    {
        Ok(match line.parse()? {
            Line::Blank => None,
            Line::Setting(setting) => Some(Done::Set(self.choice.take_late(setting)?)),
            Line::Call => Some(Done::Called(perform(book, line.parse()?)?)),
        })
    }

    // Does the lines from a place on.
    fn run_lines<B: Book + Drop>(&mut self, from: usize, mut book: B) -> io::Result<()>
    where
        B::Q: Written,
    {
        for (place, line) in self.text.lines().enumerate().skip(from) {
            if let Some(outcome) = self.run_line(line, &mut book).transpose() {
                self.tell(place, outcome)?;
            }
        }
        Ok(())
    }

    // Puts the limits over the book if they are on, and runs the lines from a place on.
    fn run_over<B: Book + Drop>(&mut self, from: usize, below: B) -> io::Result<()>
    where
        B::Q: Written,
    {
        match self.choice.limited {
            Switch::Off => self.run_lines(from, below),
            Switch::On => self.run_lines(from, LimitLayer::new(below, self.choice.limits)),
        }
    }

    // Makes the chosen book and runs the lines from a place on over it.
    fn run_books<K: Written>(&mut self, from: usize) -> anyhow::Result<()> {
        let heap = self.rt.alloc();
        match self.choice.bottom {
            Bottom::Full => self.run_over(from, StoredFullBook::<K>::new(heap)?)?,
            Bottom::Sparse(places) => {
                let book = StoredSparseBook::<K>::new(heap, usize::from(places))?;
                self.run_over(from, book)?;
            }
        }
        Ok(())
    }
}

/// Runs a script over the books that it chooses, prints what each call answers, and sums up.
pub fn run_script(rt: &(impl Print + AllocGlobal), text: &str) -> anyhow::Result<Tally> {
    let mut session = Session {
        rt,
        text,
        choice: Choice::new(),
        tally: Tally::default(),
    };
    match session.settle()? {
        Some((from, Service::Fcr)) => session.run_books::<Volume>(from)?,
        Some((from, Service::Afrr)) => session.run_books::<Band>(from)?,
        None => {}
    }
    let tally = session.tally;
    println!(rt; "{tally}")?;
    Ok(tally)
}

/// Runs the script of the standard input.
pub fn run_input(rt: &(impl Input + Print + AllocGlobal)) -> anyhow::Result<()> {
    let mut text = String::new(rt.alloc());
    rt.reader().read_to_string(&mut text)?;
    run_script(rt, text.as_str())?;
    Ok(())
}
