use quantity::afrr::{Band, BandRow};
use quantity::interface::Quantity;

// A band from its tenths up and down.
pub fn band(up: u16, down: u16) -> Band {
    Band::of_row(BandRow { up, down })
}

// The row of an answer, if it is a band.
fn row(answer: Option<Band>) -> Option<BandRow> {
    Some(answer?.row())
}

#[test]
fn sum_in_each_direction(rt: HostRuntime) {
    let sums = [
        row(band(9000, 1).join(band(1000, 2))),
        row(band(9000, 1).join(band(1001, 2))),
        row(band(1, 9000).join(band(2, 1001))),
    ];
    let most = BandRow {
        up: 10_000,
        down: 3,
    };
    assert_eq!(rt; sums, [Some(most), None, None]);
}

#[test]
fn remainder_in_each_direction(rt: HostRuntime) {
    let left = [
        row(band(5, 7).remainder(band(5, 3))),
        row(band(5, 7).remainder(band(6, 0))),
        row(band(5, 7).remainder(band(0, 8))),
    ];
    assert_eq!(rt; left, [Some(BandRow { up: 0, down: 4 }), None, None]);
}

#[test]
fn row_above_in_one_direction_tells_zero(rt: HostRuntime) {
    let zero = Band::zero().row();
    assert_eq!(rt;
        [band(10_001, 5).row(), band(5, 10_001).row()],
        [zero, zero]
    );
}
