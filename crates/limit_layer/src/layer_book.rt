ghost use Rattle.std.specs.Prelude.{◌≡◌};
ghost use Rattle.std.specs.Result.{result_err};
ghost use Rattle.quantity.specs.Directions.{number};
ghost use Rattle.limit_layer.specs.Limits.{limited, next_layer, limit_at, within_one, within};

use crate::layer::LimitLayer;
use crate::table::LimitTable;
use book::answers::{BookRefusal, Cause};
use book::interface::Book;
use book::range::{Position, in_range};
use quantity::direction::Direction;
use quantity::interface::Quantity;
use quantity::reserve::ReserveQuantity;
use quantity::up_down::UpDown;

// Whether tenths in one direction are within a provider's limit.
fn within_limit(
    limits: &LimitTable,
    layer: u8,
    provider: u8,
    direction: Direction,
    tenths: u16,
) -> Result<(), Cause>
    ensures { result_err result ≡ within_one layer direction (limit_at limits.now provider (number direction)) tenths }
{
    if u32::from(tenths) > limits.limit(provider, direction) {
        return Err(Cause::Limit { layer, direction });
    }
    Ok(())
}

// Whether the tenths of a provider's quantity are within its limits: up before down.
fn within_limits(
    limits: &LimitTable,
    layer: u8,
    provider: u8,
    tenths: UpDown<u16>,
) -> Result<(), Cause>
    ensures { result_err result ≡ within layer (limit_at limits.now provider 0) (limit_at limits.now provider 1) tenths.up tenths.down }
{
    within_limit(limits, layer, provider, Direction::Up, tenths.up)?;
    within_limit(limits, layer, provider, Direction::Down, tenths.down)
}

impl<B: Book> Book for LimitLayer<B>
where
    B::Q: ReserveQuantity,
{
    type Q = B::Q;

    ghost holdings = { λ s. B.holdings s.below };

    ghost places = { λ s. B.places s.below };

    ghost admission = { λ s. limited s.limits (next_layer (B.layer_number s.below)) (B.admission s.below) B.Q.tenths_in };

    ghost layer_number = { λ s. next_layer (B.layer_number s.below) };

    fn holding(&self, provider: u8, quarter: u8) -> B::Q {
        self.below.holding(provider, quarter)
    }

    fn free(&self) -> usize {
        self.below.free()
    }

    #[tactic(auto, using(crate::proofs::Layers::plus_nothing), unfolding(crate::specs::Limits::limited))]
    fn admits(&self, provider: u8, quarter: u8, quantity: B::Q) -> Result<(), Cause> {
        let below = self.below.admits(provider, quarter, quantity);
        // Called for what it promises: values of one amount have the same tenths, so they are admitted alike.
        quantity.tenths_add_up(B::Q::zero());
        if !in_range(provider, quarter) {
            return Ok(());
        }
        below?;
        let tenths = UpDown {
            up: quantity.tenths(Direction::Up),
            down: quantity.tenths(Direction::Down),
        };
        within_limits(&self.limits, self.layer(), provider, tenths)
    }

    fn layer(&self) -> u8 {
        self.below.layer().saturating_add(1)
    }

    #[tactic(auto, using(book::proofs::Changes::raised_is), unfolding(book::specs::Calls::raise_refusal, crate::specs::Limits::limited))]
    fn raise(&mut self, provider: u8, quarter: u8, quantity: B::Q) -> Result<(), BookRefusal> {
        Position::new(provider, quarter)?;
        let held = self.below.holding(provider, quarter);
        let sum = held.join(quantity).ok_or(BookRefusal::SumDoesNotFit)?;
        self.admits(provider, quarter, sum)?;
        self.below.raise(provider, quarter, quantity)
    }

    fn lower(&mut self, provider: u8, quarter: u8, quantity: B::Q) -> Result<(), BookRefusal> {
        self.below.lower(provider, quarter, quantity)
    }
}
