use quantity::direction::Direction;
use quantity::up_down::UpDown;
use refusals::refusal::Refusal;
use refusals::span::Provider;

/// What a provider may hold at most in each direction, in tenths.
pub type Limits = UpDown<u32>;

/// The prequalified tenths of each provider in each direction.
#[derive(Clone, Copy, PartialEq, Eq, Debug)]
pub struct LimitTable {
    pub(crate) limits: [Limits; 32],
}

impl LimitTable {
    ghost use Rattle.std.specs.Prelude.{◌≡◌, ℕ};
    ghost use Rattle.std.specs.Result.{result_err};
    ghost use Rattle.quantity.specs.Directions.{number};
    ghost use Rattle.refusals.specs.Numbers.{answer_number};
    ghost use Rattle.limit_layer.specs.Limits.{limit_at, set_refusal, after_set};

    /// A table in which every limit is zero.
    pub fn new() -> LimitTable
        ensures { (p d : ℕ) → limit_at result p d ≡ 0 }
    {
        LimitTable {
            limits: [Limits { up: 0, down: 0 }; 32],
        }
    }

    /// Sets a limit, or changes nothing for a provider above 31.
    pub fn set(&mut self, provider: u8, direction: Direction, tenths: u32) -> Result<(), Refusal>
        ensures answer { answer_number (result_err result) ≡ answer_number (set_refusal provider) }
        ensures after { (p d : ℕ) → limit_at self.new p d ≡ after_set (limit_at self.old) provider (number direction) tenths p d }
    {
        let provider = Provider::try_from(provider)?;
        self.limits[usize::from(provider.number)].set(direction, tenths);
        Ok(())
    }

    /// A provider's limit, zero for a provider above 31.
    pub fn limit(&self, provider: u8, direction: Direction) -> u32
        ensures { result ≡ limit_at self.now provider (number direction) }
    {
        self.limits
            .get(usize::from(provider))
            .map_or(0, |limits| limits.get(direction))
    }
}
