ghost use Rattle.std.specs.Prelude.{◌≡◌, IfOk};
ghost use Rattle.std.specs.Result.{result_err};
ghost use Rattle.book.specs.Grid.{amounts};
ghost use Rattle.book.specs.Rest.{ChangesHoldings};
ghost use Rattle.refusals.specs.First.{first_some};
ghost use Rattle.refusals.specs.Numbers.{answer_number};
ghost use Rattle.span_moves.specs.Spans.{Alike};
ghost use Rattle.awards.specs.Sheets.{view};
ghost use Rattle.awards.specs.Awards.{award_conditions, award_refusal, award_after, award_sheet};

use crate::awarded::LentAward;
use crate::blocks::Block;
use crate::prices::{award_earnings, has_large_price};
use crate::sheet::Sheet;
use crate::sheet::entering::MOST_AWARDS;
use book::interface::Book;
use quantity::interface::Quantity;
use quantity::reserve::ReserveQuantity;
use refusals::passage::ProviderSpan;
use refusals::refusal::Refusal;
use refusals::span::Provider;
use span_moves::spans::raise_span;

// The provider of an award, or the first refusal that needs no book.
fn check_award<Q: ReserveQuantity>(
    sheet: &Sheet,
    award: &LentAward<'_, Q>,
) -> Result<Provider, Refusal>
    ensures provider { IfOk result (λ p. p.number ≡ award.now.provider) }
    ensures refusal { result_err result ≡ first_some (award_conditions Q.measure Q.directions (view sheet.now).awards award.now.provider award.now.block award.now.quantity award.now.prices.now) }
{
    let provider = Provider::try_from(award.provider)?;
    if award.block > 6 {
        return Err(Refusal::NoSuchSpan);
    }
    if award.quantity.is_zero() {
        return Err(Refusal::ZeroQuantity);
    }
    if award.prices.len() != usize::from(Q::direction_count()) {
        return Err(Refusal::WrongPriceCount);
    }
    if has_large_price(award.prices) {
        return Err(Refusal::PriceTooLarge);
    }
    if sheet.award_count() >= MOST_AWARDS {
        return Err(Refusal::TooManyAwards);
    }
    Ok(provider)
}

/// Awards a quantity to a provider in every quarter of a block, at a price for each direction: the obligations are raised, and
/// what the award earns is entered in the sheet. Or changes nothing and says why.
#[tactic(auto, using(crate::proofs::Awarding::zero_none), unfolding(crate::specs::Awards::award_refusal, crate::specs::Awards::award_after, crate::specs::Awards::award_sheet, span_moves::specs::Moves::span_refusal, span_moves::specs::Moves::span_after))]
pub fn award<O: Book>(
    quarters: u8,
    obligations: &mut O,
    sheet: &mut Sheet,
    award: &LentAward<'_, O::Q>,
) -> Result<(), Refusal>
where
    O::Q: ReserveQuantity,
    ensures answer { answer_number (result_err result) ≡ answer_number (award_refusal O.Q.measure (O.holdings obligations.old) (O.places obligations.old) (O.admission obligations.old) O.Q.directions quarters (view sheet.old).awards award.now.provider award.now.block award.now.quantity award.now.prices.now) }
    ensures alike { Alike O.Q.measure (O.holdings obligations.old) award.now.quantity (λ other q. award_refusal O.Q.measure other (O.places obligations.old) (O.admission obligations.old) O.Q.directions quarters (view sheet.old).awards award.now.provider award.now.block q award.now.prices.now) (result_err result) }
    ensures after { amounts O.Q.measure (O.holdings obligations.new) ≡ award_after O.Q.measure (O.holdings obligations.old) (O.places obligations.old) (O.admission obligations.old) O.Q.directions quarters (view sheet.old).awards award.now.provider award.now.block award.now.quantity award.now.prices.now }
    ensures rest { ChangesHoldings O.places O.admission O.layer_number obligations.old obligations.new }
    ensures sheet { view sheet.new ≡ award_sheet O.Q.measure (O.holdings obligations.old) (O.places obligations.old) (O.admission obligations.old) O.Q.tenths_in O.Q.directions quarters award.now.provider award.now.block award.now.quantity award.now.prices.now (view sheet.old) }
{
    let provider = check_award(sheet, award)?;
    let block = Block {
        quarters,
        number: award.block,
    };
    raise_span(
        obligations,
        ProviderSpan {
            provider: award.provider,
            first: block.first(),
            last: block.last(),
        },
        award.quantity,
    )?;
    let earned = award_earnings(award.quantity, award.prices, block.count());
    sheet.enter(provider, earned);
    Ok(())
}
