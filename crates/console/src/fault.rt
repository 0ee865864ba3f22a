use refusals::refusal::Refusal;
use script::calls::NotDone;
use script::malformed::Malformed;

/// Why a line is not done: it is not understood, or it is refused.
#[derive(Clone, Copy, PartialEq, Eq, Debug)]
pub(crate) enum Fault {
    Malformed(Malformed),
    Refused(NotDone),
}

impl From<Malformed> for Fault {
    ghost use Rattle.std.specs.Prelude.{◌≡◌};
    ghost use Rattle.console.specs.declared.fault.Fault.TheVariants.{Malformed};

    ghost from_gives = { λ what fault. fault ≡ Malformed what };

    fn from(what: Malformed) -> Fault {
        Fault::Malformed(what)
    }
}

impl From<NotDone> for Fault {
    ghost use Rattle.std.specs.Prelude.{◌≡◌};
    ghost use Rattle.console.specs.declared.fault.Fault.TheVariants.{Refused};

    ghost from_gives = { λ not_done fault. fault ≡ Refused not_done };

    fn from(not_done: NotDone) -> Fault {
        Fault::Refused(not_done)
    }
}

impl From<Refusal> for Fault {
    ghost use Rattle.std.specs.Prelude.{◌≡◌};
    ghost use Rattle.script.specs.declared.calls.NotDone.TheVariants.{Span};
    ghost use Rattle.console.specs.declared.fault.Fault.TheVariants.{Refused};

    ghost from_gives = { λ refusal fault. fault ≡ Refused (Span refusal) };

    fn from(refusal: Refusal) -> Fault {
        Fault::Refused(NotDone::from(refusal))
    }
}
