ghost use Rattle.std.specs.Prelude.{◌≡◌, refl};
ghost use Rattle.day.specs.Minutes.{deadline_of, opens_at};
ghost use Rattle.gates.specs.declared.gate.Gate.{Gate};
ghost use Rattle.gates.specs.declared.gate.Gate.TheVariants.{First, Second};
ghost use Rattle.requests.specs.declared.finding.Joining.{Joining};
ghost use Rattle.requests.specs.declared.finding.Joining.TheVariants.{Unresolved, NotBalanced};

use gates::gate::Gate;
use requests::finding::Joining;
use std::marker::PhantomData;

/// The plain numbers of a day: its number, how many quarters it has, and the last minute that it took.
// By rule a stage is of plain numbers; the law carries that there are 92, 96 or 100 quarters.
#[derive(Clone, Copy, PartialEq, Eq, Debug)]
pub struct Day {
    pub number: u8,
    pub quarters: u8,
    pub minute: i32,
}

/// A day in its stage `S`. It is moved on, so that a stage that has passed is gone.
#[derive(Drop)]
pub struct InStage<S> {
    pub(crate) day: Day,
    pub(crate) stage: PhantomData<S>,
}

/// The first stage: awards, announcements, the first gate.
pub struct FirstStage;

/// The second stage: announcements that mend what does not balance, the second gate.
pub struct SecondStage;

/// The third stage, after the second gate.
pub struct ThirdStage;

/// A day in its first stage.
pub type Announcing = InStage<FirstStage>;

/// A day in its second stage.
pub type Reconciling = InStage<SecondStage>;

/// A day in its third stage.
pub type Intraday = InStage<ThirdStage>;

/// A stage that a gate ends.
pub trait BeforeGate {
    /// The stage after the gate.
    type Next;

    /// Which requests an announcement may join.
    const JOINING: Joining;

    /// The gate that ends the stage.
    const GATE: Gate;

    ghost JOINING: { Joining };

    ghost GATE: { Gate };

    /// Announcing ends when the gate opens.
    ghost one_minute: { deadline_of JOINING ≡ opens_at GATE };
}

impl BeforeGate for FirstStage {
    type Next = SecondStage;

    const JOINING: Joining = Joining::Unresolved;

    const GATE: Gate = Gate::First;

    ghost JOINING = { Unresolved };

    ghost GATE = { First };

    ghost one_minute = { refl };
}

impl BeforeGate for SecondStage {
    type Next = ThirdStage;

    const JOINING: Joining = Joining::NotBalanced;

    const GATE: Gate = Gate::Second;

    ghost JOINING = { NotBalanced };

    ghost GATE = { Second };

    ghost one_minute = { refl };
}

impl<S> InStage<S> {
    // A day in a stage.
    pub(crate) fn of(day: Day) -> InStage<S>
        ensures { result.day ≡ day }
    {
        InStage {
            day,
            stage: PhantomData,
        }
    }

    /// The plain numbers of the day.
    pub fn day(&self) -> Day
        ensures { result ≡ self.now.day }
    {
        self.day
    }
}
