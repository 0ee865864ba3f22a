use quantity::direction::Direction;
use quantity::fcr::Volume;
use quantity::interface::Quantity;
use quantity::reserve::ReserveQuantity;

// The tenths of a sum, if it fits.
fn sum(a: u16, b: u16) -> Option<u16> {
    let sum = Volume::of_tenths(a)?.join(Volume::of_tenths(b)?)?;
    Some(sum.up())
}

// The tenths of a remainder, if there is one.
fn remainder(a: u16, b: u16) -> Option<u16> {
    let left = Volume::of_tenths(a)?.remainder(Volume::of_tenths(b)?)?;
    Some(left.up())
}

#[test]
fn sum_up_to_the_bound(rt: HostRuntime) {
    assert_eq!(rt; [sum(4000, 6000), sum(4000, 6001)], [Some(10_000), None]);
}

#[test]
fn remainder_down_to_zero(rt: HostRuntime) {
    assert_eq!(rt; [remainder(50, 50), remainder(50, 51)], [Some(0), None]);
}

#[test]
fn row_tells_its_volume_or_zero(rt: HostRuntime) {
    let most = Volume::of_row(10_000);
    let again = Volume::of_row(most.row());
    let above = Volume::of_row(10_001);
    assert_eq!(rt; [most.up(), again.up(), above.up()], [10_000, 10_000, 0]);
    assert!(rt; again.equals(most) && above.equals(Volume::zero()));
}

#[test]
fn no_tenths_down(rt: HostRuntime) {
    let volume = Volume::of_row(123);
    assert_eq!(rt;
        [volume.tenths(Direction::Up), volume.tenths(Direction::Down)],
        [123, 0]
    );
}
