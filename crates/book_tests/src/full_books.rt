use crate::bands::band;
use book::answers::BookRefusal;
use book::interface::Book;
use full_book::lent::FullBook;
use full_book::rows::{lower, raise};
use quantity::afrr::{Band, BandRow};
use quantity::fcr::Volume;
use quantity::interface::Quantity;
use std::process::Abort;

// What a call answers, and the holding and the free places after it.
type Outcome = (Result<(), BookRefusal>, u16, usize);

// Changes a holding of a book by the tenths.
fn change<B: Book<Q = Volume>, F: FnOnce(&mut B, u8, u8, Volume) -> Result<(), BookRefusal>>(
    book: &mut B,
    call: F,
    provider: u8,
    quarter: u8,
    tenths: u16,
) -> Outcome
    requires { F.IsAlwaysCallable call }
{
    let answer = call(book, provider, quarter, Volume::of_row(tenths));
    (answer, book.holding(provider, quarter).up(), book.free())
}

// Whether every row is as told.
fn each_is(rt: &impl Abort, rows: &[u16], told: u16) {
    for row in rows {
        assert_eq!(rt; *row, told);
    }
}

#[test]
fn no_place_over_too_few_rows(rt: HostRuntime) {
    let mut rows = [7u16; 3199];
    let mut book: FullBook<Volume> = FullBook::blank(&mut rows);
    let answers = [
        change(&mut book, Book::raise, 0, 0, 1),
        change(&mut book, Book::raise, 0, 0, 0),
    ];
    assert_eq!(rt;
        answers,
        [(Err(BookRefusal::NoFreePlace), 0, 0), (Ok(()), 0, 0)]
    );
    each_is(&rt, &rows, 7);
}

#[test]
fn blank_then_raise_and_lower(rt: HostRuntime) {
    let mut rows = [9999u16; 3200];
    let mut book: FullBook<Volume> = FullBook::blank(&mut rows);
    let answers = [
        change(&mut book, Book::raise, 3, 7, 100),
        change(&mut book, Book::lower, 3, 7, 40),
        change(&mut book, Book::lower, 3, 7, 60),
    ];
    assert_eq!(rt;
        answers,
        [(Ok(()), 100, 3199), (Ok(()), 60, 3199), (Ok(()), 0, 3200)]
    );
    each_is(&rt, &rows, 0);
}

#[test]
fn refused_calls_change_nothing(rt: HostRuntime) {
    let mut rows = [60u16; 4000];
    let mut book: FullBook<Volume> = FullBook::over(&mut rows);
    let answers = [
        change(&mut book, Book::raise, 3, 7, 9941),
        change(&mut book, Book::lower, 3, 7, 61),
        change(&mut book, Book::raise, 32, 0, 1),
        change(&mut book, Book::lower, 0, 100, 1),
    ];
    assert_eq!(rt;
        answers,
        [
            (Err(BookRefusal::SumDoesNotFit), 60, 0),
            (Err(BookRefusal::NoRemainder), 60, 0),
            (Err(BookRefusal::OutsideRange), 0, 0),
            (Err(BookRefusal::OutsideRange), 0, 0),
        ]
    );
    each_is(&rt, &rows, 60);
}

#[test]
fn rows_beyond_are_untouched(rt: HostRuntime) {
    let mut rows = [77u16; 4000];
    let mut book: FullBook<Volume> = FullBook::blank(&mut rows);
    let answers = [
        change(&mut book, Book::raise, 31, 99, 5),
        change(&mut book, Book::lower, 31, 99, 2),
    ];
    assert_eq!(rt; answers, [(Ok(()), 5, 3199), (Ok(()), 3, 3199)]);
    assert_eq!(rt; rows[3199], 3);
    each_is(&rt, &rows[3200..4000], 77);
}

#[test]
fn over_rows_as_they_are(rt: HostRuntime) {
    let mut rows = [0u16; 3200];
    rows[0] = 10_000;
    rows[1] = 10_001;
    let mut book: FullBook<Volume> = FullBook::over(&mut rows);
    let answers = [
        change(&mut book, Book::raise, 0, 0, 0),
        change(&mut book, Book::raise, 0, 1, 5),
    ];
    assert_eq!(rt; answers, [(Ok(()), 10_000, 3199), (Ok(()), 5, 3198)]);
}

#[test]
fn bands_of_one_holding(rt: HostRuntime) {
    let mut rows = [BandRow { up: 1, down: 2 }; 3200];
    let mut book: FullBook<Band> = FullBook::blank(&mut rows);
    let answers = [
        book.raise(0, 99, band(40, 20)),
        book.lower(0, 99, band(40, 21)),
        book.lower(0, 99, band(40, 5)),
    ];
    assert_eq!(rt; answers, [Ok(()), Err(BookRefusal::NoRemainder), Ok(())]);
    assert_eq!(rt; rows[99], BandRow { up: 0, down: 15 });
}

#[test]
fn rows_raised_and_lowered(rt: HostRuntime) {
    let mut rows = [7u16; 3201];
    let answers = [
        raise(&mut rows, 31, 99, Volume::of_row(40)),
        lower(&mut rows, 31, 99, Volume::of_row(15)),
        lower(&mut rows, 31, 99, Volume::of_row(33)),
        raise(&mut rows, 32, 0, Volume::of_row(1)),
    ];
    assert_eq!(rt;
        answers,
        [
            Ok(()),
            Ok(()),
            Err(BookRefusal::NoRemainder),
            Err(BookRefusal::OutsideRange),
        ]
    );
    assert_eq!(rt; [rows[3198], rows[3199], rows[3200]], [7, 32, 7]);
}
