use refusals::passage::{Passage, ProviderSpan};

pub(crate) fn passage(giver: u8, taker: u8, first: u8, last: u8) -> Passage {
    Passage {
        giver,
        taker,
        first,
        last,
    }
}

pub(crate) fn span(provider: u8, first: u8, last: u8) -> ProviderSpan {
    ProviderSpan {
        provider,
        first,
        last,
    }
}
