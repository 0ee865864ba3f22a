ghost use Rattle.std.specs.Prelude.{◌≡◌};
ghost use Rattle.std.specs.Result.{result_err};
ghost use Rattle.book.specs.Grid.{amounts};
ghost use Rattle.book.specs.Rest.{ChangesHoldings};
ghost use Rattle.awards.specs.Sheets.{view};
ghost use Rattle.awards.specs.Awards.{award_refusal, award_after, award_sheet};

use crate::stages::Announcing;
use awards::awarded::LentAward;
use awards::sheet::Sheet;
use book::interface::Book;
use quantity::reserve::ReserveQuantity;
use refusals::refusal::Refusal;

impl Announcing {
    /// Awards a quantity to a provider in every quarter of a block of this day, at a price for each direction.
    // Here the refusal itself is promised, in the award that it passes on the number.
    #[tactic(auto, using(refusals::proofs::Once::answer_once))]
    pub fn award<O: Book>(
        &self,
        obligations: &mut O,
        sheet: &mut Sheet,
        award: &LentAward<'_, O::Q>,
    ) -> Result<(), Refusal>
    where
        O::Q: ReserveQuantity,
        ensures answer { result_err result ≡ award_refusal O.Q.measure (O.holdings obligations.old) (O.places obligations.old) (O.admission obligations.old) O.Q.directions self.now.day.quarters (view sheet.old).awards award.now.provider award.now.block award.now.quantity award.now.prices.now }
        ensures after { amounts O.Q.measure (O.holdings obligations.new) ≡ award_after O.Q.measure (O.holdings obligations.old) (O.places obligations.old) (O.admission obligations.old) O.Q.directions self.now.day.quarters (view sheet.old).awards award.now.provider award.now.block award.now.quantity award.now.prices.now }
        ensures rest { ChangesHoldings O.places O.admission O.layer_number obligations.old obligations.new }
        ensures sheet { view sheet.new ≡ award_sheet O.Q.measure (O.holdings obligations.old) (O.places obligations.old) (O.admission obligations.old) O.Q.tenths_in O.Q.directions self.now.day.quarters award.now.provider award.now.block award.now.quantity award.now.prices.now (view sheet.old) }
    {
        awards::award::award(self.day.quarters, obligations, sheet, award)
    }
}
