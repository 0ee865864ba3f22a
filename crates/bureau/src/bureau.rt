ghost use Rattle.std.specs.Prelude.{◌≡◌, ◌<◌, min, List, [], ◌∷◌, length, take, drop, nat_lt, slice_set};
ghost use Rattle.bureau.specs.Bureaus.{bureau_of, empty_bureau, is_opened, entry_of, Called, Opening, Stepped};
ghost use Rattle.bureau.specs.Runs.{paired, Ran};
ghost use Rattle.laws.specs.Laws.{Entry, Laws};

use crate::calls::{Call, LentCall, Reply};
use crate::supply::Supply;
use day::opening::NewDay;
use day_calls::calls::{Answer, DayCall, LentDayCall, NotCalled, NotDone};
use desk::day_desk::DayDesk;
use std::alloc::Global;
use std::marker::Model;

/// Any number of days side by side. A day's handle is the number of days that were opened before it.
#[derive(Drop)]
pub struct Bureau<D> {
    desks: Vec<D>,
}

// Clauses see the desks, and not what they mean (`bureau_of`): that holds functions, and a value of a model may hold none.
impl<D> Model for Bureau<D> {
    ghost use Rattle.std.specs.Prelude.{List};

    ghost Value = { List D };

    ghost view = { λ bureau. bureau.desks.items };
}

// Whether a day was opened.
fn is_opened<Q: Copy>(answer: Result<Answer<Q>, NotDone>) -> bool
    ensures { result ≡ is_opened answer }
{
    matches!(answer, Ok(Answer::Opened))
}

// Puts a reply at a place.
fn put_reply<Q: Copy>(replies: &mut [Reply<Q>], place: usize, reply: Reply<Q>)
    requires { place < length replies.old }
    ensures { replies.new ≡ slice_set replies.old place reply }
{
    replies[place] = reply;
}

impl<D: DayDesk + Drop> Bureau<D> {
    /// A bureau without days.
    pub fn new(heap: Global) -> Bureau<D>
        ensures { bureau_of D.Q.measure D.state result ≡ empty_bureau D.Q.measure }
    {
        Bureau {
            desks: Vec::new(heap),
        }
    }

    // Makes a call of a day.
    fn call_day(
        &mut self,
        day: usize,
        call: &LentDayCall<'_, D::Q>,
    ) -> Result<Answer<D::Q>, NotDone>
        ensures { Called D.Q.measure D.Q.tenths_in D.Q.directions (nat_lt day (length self.old)) (bureau_of D.Q.measure D.state self.old) day call.now result (bureau_of D.Q.measure D.state self.new) }
    {
        if day >= self.desks.len() {
            return Err(NotCalled::NoSuchDay.into());
        }
        self.desks[day].perform(call)
    }

    // Opens a new day.
    fn open_day<S: Supply<D>>(&mut self, supply: &S, new: NewDay) -> Result<Answer<D::Q>, NotDone>
        ensures { Opening D.Q.measure D.Q.tenths_in D.Q.directions (bureau_of D.Q.measure D.state self.old) new result (bureau_of D.Q.measure D.state self.new) }
    {
        self.desks.reserve(1)?;
        let mut desk = supply.supply(*self.desks.allocator())?;
        let answer = desk.perform(&DayCall::Open(new));
        // By `is_opened` and no `?`: that no other answer comes is known by its number alone.
        if !is_opened(answer) {
            return answer;
        }
        self.desks.push_reserved(desk);
        answer
    }

    // Makes any call. Apart from `perform`, whose law follows from what this promises.
    fn make<S: Supply<D>>(&mut self, supply: &S, call: &LentCall<'_, D::Q>) -> Reply<D::Q>
        ensures { Stepped D.Q.measure D.Q.tenths_in D.Q.directions (bureau_of D.Q.measure D.state self.old) call.now result (bureau_of D.Q.measure D.state self.new) }
    {
        match call {
            Call::Open(new) => Reply {
                day: self.desks.len(),
                answer: self.open_day(supply, *new),
            },
            Call::On { day, call } => Reply {
                day: *day,
                answer: self.call_day(*day, call),
            },
        }
    }

    /// Makes any call of the bureau. Whatever was called before, the law goes on to hold.
    pub fn perform<S: Supply<D>>(&mut self, supply: &S, call: &LentCall<'_, D::Q>) -> Reply<D::Q>
        ensures stepped { Stepped D.Q.measure D.Q.tenths_in D.Q.directions (bureau_of D.Q.measure D.state self.old) call.now result (bureau_of D.Q.measure D.state self.new) }
        ensures law { (h : List (Entry D.Q)) → Laws D.Q.measure D.Q.tenths_in D.Q.directions h (bureau_of D.Q.measure D.state self.old).days → Laws D.Q.measure D.Q.tenths_in D.Q.directions (entry_of call.now result ∷ h) (bureau_of D.Q.measure D.state self.new).days }
    {
        self.make(supply, call)
    }

    /// Makes the calls in their order, as many as there is room for replies, and tells how many.
    /// Each is made of the state that those before it left, and the law holds after each.
    pub fn run<S: Supply<D>>(
        &mut self,
        supply: &S,
        calls: &[LentCall<'_, D::Q>],
        replies: &mut [Reply<D::Q>],
    ) -> usize
        ensures count { result ≡ min (length calls.now) (length replies.old) }
        ensures rest { drop result replies.new ≡ drop result replies.old }
        ensures ran { (h : List (Entry D.Q)) → Laws D.Q.measure D.Q.tenths_in D.Q.directions h (bureau_of D.Q.measure D.state self.old).days → Ran D.Q.measure D.Q.tenths_in D.Q.directions h (bureau_of D.Q.measure D.state self.old) (paired (take result calls.now) (take result replies.new) []) (bureau_of D.Q.measure D.state self.new) }
    {
        // By an index: after a `zip` over `iter_mut` no proof knows the replies that were written.
        let n = calls.len().min(replies.len());
        for i in 0..n {
            let reply = self.perform(supply, &calls[i]);
            put_reply(replies, i, reply);
        }
        n
    }

    /// Makes the calls in their order from a new bureau, as many as there is room for replies: nothing is presupposed.
    pub fn run_new<S: Supply<D>>(
        supply: &S,
        heap: Global,
        calls: &[LentCall<'_, D::Q>],
        replies: &mut [Reply<D::Q>],
    ) -> (Bureau<D>, usize)
        ensures count { result.1 ≡ min (length calls.now) (length replies.old) }
        ensures rest { drop result.1 replies.new ≡ drop result.1 replies.old }
        ensures ran { Ran D.Q.measure D.Q.tenths_in D.Q.directions [] (empty_bureau D.Q.measure) (paired (take result.1 calls.now) (take result.1 replies.new) []) (bureau_of D.Q.measure D.state result.0) }
    {
        let mut bureau = Bureau::new(heap);
        let made = bureau.run(supply, calls, replies);
        (bureau, made)
    }
}
