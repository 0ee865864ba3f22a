use book::answers::{BookRefusal, Cause};
use book::interface::Book;
use full_book::lent::FullBook;
use limit_layer::layer::LimitLayer;
use limit_layer::table::LimitTable;
use quantity::direction::Direction;
use quantity::fcr::Volume;
use quantity::interface::Quantity;
use quantity::reserve::ReserveQuantity;
use sparse_book::lent::SparseBook;
use sparse_book::record::Record;
use std::process::Abort;
use std::test::*;

fn tenths(n: u16) -> Volume {
    Volume::of_row(n)
}

// Fills sixteen places, frees two of them and uses them again, the first free one first.
#[test]
fn sixteen_records_freed_and_used_again(rt: HostRuntime) -> Result<(), Fail> {
    let mut slots: [Option<Record<u16>>; 16] = [Some(Record {
        provider: 1,
        quarter: 1,
        row: 7,
    }); 16];
    let mut book: SparseBook<Volume> = SparseBook::blank(&mut slots);
    assert_eq!(rt; book.holding(1, 1).up(), 0);
    assert_eq!(rt; book.free(), 16);
    for quarter in 0..16 {
        assert!(rt; book.raise(0, quarter, tenths(10)).is_ok());
    }
    assert_eq!(rt; book.free(), 0);
    assert_eq!(rt;
        book.raise(0, 16, tenths(10)),
        Err(BookRefusal::NoFreePlace)
    );
    assert_eq!(rt; book.holding(0, 16).up(), 0);
    assert!(rt; book.lower(0, 9, tenths(10)).is_ok());
    assert!(rt; book.lower(0, 4, tenths(10)).is_ok());
    assert!(rt; book.raise(5, 50, tenths(1)).is_ok());
    assert!(rt; book.raise(6, 60, tenths(2)).is_ok());
    assert_eq!(rt; book.free(), 0);
    // the first free record is taken first
    assert_eq!(rt;
        slots[4],
        Some(Record {
            provider: 5,
            quarter: 50,
            row: 1,
        })
    );
    assert_eq!(rt;
        slots[9],
        Some(Record {
            provider: 6,
            quarter: 60,
            row: 2,
        })
    );
    assert_eq!(rt;
        slots[3],
        Some(Record {
            provider: 0,
            quarter: 3,
            row: 10,
        })
    );
    Ok(())
}

#[test]
fn a_sparse_book_without_records(rt: HostRuntime) -> Result<(), Fail> {
    let mut slots: [Option<Record<u16>>; 0] = [];
    let mut book: SparseBook<Volume> = SparseBook::blank(&mut slots);
    assert_eq!(rt; book.free(), 0);
    assert_eq!(rt; book.raise(0, 0, tenths(1)), Err(BookRefusal::NoFreePlace));
    assert!(rt; book.raise(0, 0, tenths(0)).is_ok());
    assert_eq!(rt; book.holding(0, 0).up(), 0);
    Ok(())
}

// Limits at, below and above a quantity, over any book below.
fn limits_hold<B: Book<Q = Volume> + Drop>(rt: &impl Abort, below: B) -> Result<(), Fail> {
    let mut limits = LimitTable::new();
    assert!(rt; limits.set(3, Direction::Up, 100).is_ok());
    assert!(rt; limits.set(3, Direction::Down, 0).is_ok());
    assert!(rt; limits.set(32, Direction::Up, 100).is_err());
    let mut book = LimitLayer::new(below, limits);
    assert_eq!(rt; book.layer(), 1);
    assert_eq!(rt; book.admits(3, 7, tenths(100)), Ok(()));
    let above = Cause::Limit {
        layer: 1,
        direction: Direction::Up,
    };
    assert_eq!(rt; book.admits(3, 7, tenths(101)), Err(above));
    assert_eq!(rt; book.admits(4, 7, tenths(1)), Err(above));
    assert_eq!(rt; book.admits(40, 7, tenths(1)), Ok(()));
    assert!(rt; book.raise(3, 7, tenths(60)).is_ok());
    assert!(rt; book.raise(3, 7, tenths(40)).is_ok());
    assert_eq!(rt;
        book.raise(3, 7, tenths(1)),
        Err(BookRefusal::NotAdmitted(above))
    );
    assert_eq!(rt;
        book.raise(3, 7, tenths(10000)),
        Err(BookRefusal::SumDoesNotFit)
    );
    assert_eq!(rt; book.holding(3, 7).up(), 100);
    assert!(rt; book.lower(3, 7, tenths(100)).is_ok());
    assert_eq!(rt; book.holding(3, 7).up(), 0);
    Ok(())
}

// A pile of two limit layers: the lower one's cause is told where both refuse.
fn lower_layer_first<B: Book<Q = Volume> + Drop>(rt: &impl Abort, below: B) -> Result<(), Fail> {
    let mut wide = LimitTable::new();
    assert!(rt; wide.set(3, Direction::Up, 100).is_ok());
    let mut narrow = LimitTable::new();
    assert!(rt; narrow.set(3, Direction::Up, 50).is_ok());
    let mut book = LimitLayer::new(LimitLayer::new(below, wide), narrow);
    assert_eq!(rt; book.layer(), 2);
    let lower = Cause::Limit {
        layer: 1,
        direction: Direction::Up,
    };
    let upper = Cause::Limit {
        layer: 2,
        direction: Direction::Up,
    };
    assert_eq!(rt;
        book.raise(3, 0, tenths(101)),
        Err(BookRefusal::NotAdmitted(lower))
    );
    assert_eq!(rt;
        book.raise(3, 0, tenths(51)),
        Err(BookRefusal::NotAdmitted(upper))
    );
    assert!(rt; book.raise(3, 0, tenths(50)).is_ok());
    Ok(())
}

#[test]
fn limits_over_lent_books(rt: HostRuntime) -> Result<(), Fail> {
    let mut rows = [0u16; 3200];
    limits_hold(&rt, FullBook::<Volume>::blank(&mut rows))?;
    lower_layer_first(&rt, FullBook::<Volume>::blank(&mut rows))?;
    let mut slots: [Option<Record<u16>>; 4] = [None; 4];
    limits_hold(&rt, SparseBook::<Volume>::blank(&mut slots))?;
    lower_layer_first(&rt, SparseBook::<Volume>::blank(&mut slots))
}
