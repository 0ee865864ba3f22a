ghost use Rattle.std.specs.Prelude.{◌≡◌};
ghost use Rattle.figures.specs.Figures.{Figures};

/// The worked figures, proved together over the definitions that the contracts of the code cite. Tells how many there are.
// A function, so that the check lists the theorem.
pub fn figures_hold() -> u8
    ensures figures { Figures }
    ensures count { result ≡ 6 }
{
    6
}
