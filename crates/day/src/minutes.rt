ghost use Rattle.std.specs.Prelude.{◌≡◌};
ghost use Rattle.day.specs.Minutes.{deadline_of, opens_at};

use gates::gate::Gate;
use requests::finding::Joining;

/// The minute from which nothing is announced in the first stage and the first gate opens: 13:30 on the day before.
pub const ANNOUNCING_ENDS: i32 = -630;

/// The minute from which nothing is announced in the second stage and the second gate opens: 14:00 on the day before.
pub const RECONCILING_ENDS: i32 = -600;

/// The minute from which nothing is announced any more, by what an announcement may join.
pub fn deadline(joining: Joining) -> i32
    ensures { result ≡ deadline_of joining }
{
    match joining {
        Joining::Unresolved => ANNOUNCING_ENDS,
        Joining::NotBalanced => RECONCILING_ENDS,
    }
}

/// The minute from which a gate opens: when announcing or reconciling is over.
pub fn gate_opens(gate: Gate) -> i32
    ensures { result ≡ opens_at gate }
{
    match gate {
        Gate::First => ANNOUNCING_ENDS,
        Gate::Second => RECONCILING_ENDS,
    }
}
