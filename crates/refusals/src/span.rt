ghost use Rattle.std.specs.Prelude.{◌≡◌, ◌<◌, ◌≤◌, IfOk};
ghost use Rattle.std.specs.Result.{result_err};
ghost use Rattle.refusals.specs.Checks.{no_provider, no_span};

use crate::refusal::Refusal;

/// One of the providers 0 to 31.
#[derive(Clone, Copy, PartialEq, Eq, Debug)]
pub struct Provider {
    pub number: u8,
    ghost there: { number < 32 },
}

impl TryFrom<u8> for Provider {
    type Error = Refusal;

    ghost try_from_gives = { λ number r. (result_err r ≡ no_provider number) × IfOk r (λ p. p.number ≡ number) };

    fn try_from(number: u8) -> Result<Provider, Refusal> {
        if number >= 32 {
            return Err(Refusal::NoSuchProvider);
        }
        Ok(Provider { number })
    }
}

/// Quarters of a day, from the first to the last.
#[derive(Clone, Copy, PartialEq, Eq, Debug)]
pub struct Span {
    pub first: u8,
    pub last: u8,
    ghost ordered: { first ≤ last },
    ghost within: { last < 100 },
}

impl Span {
    /// The span of these ends, or that there is none.
    pub fn new(first: u8, last: u8) -> Result<Span, Refusal>
        ensures refusal { result_err result ≡ no_span first last }
        ensures ends { IfOk result (λ s. (s.first ≡ first) × (s.last ≡ last)) }
    {
        if first > last || last >= 100 {
            return Err(Refusal::NoSuchSpan);
        }
        Ok(Span { first, last })
    }
}
