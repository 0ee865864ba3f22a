use crate::cents::Cents;
use crate::passages::{passage, span};
use book::interface::Book;
use full_book::lent::FullBook;
use quantity::interface::Quantity;
use refusals::refusal::Refusal;
use span_moves::spans::{lower_span, move_span, raise_span};
use sparse_book::lent::SparseBook;
use sparse_book::record::Record;
use std::process::Abort;

fn cents(n: i32) -> Cents {
    Cents::of_row(n)
}

// What the providers 0 and 1 hold in the quarters 0 and 1.
fn balances<B: Book<Q = Cents>>(rt: &impl Abort, book: &B, giver: i32, taker: i32) {
    for quarter in 0..2 {
        assert_eq!(rt; book.holding(0, quarter).count(), giver);
        assert_eq!(rt; book.holding(1, quarter).count(), taker);
    }
}

// From nothing a move leaves a debt and a credit, each in a place of its own, and the move back frees them all.
fn there_and_back<B: Book<Q = Cents>>(rt: &impl Abort, book: &mut B) {
    let free = book.free();
    assert_eq!(rt; move_span(book, passage(0, 1, 0, 1), cents(5)), Ok(()));
    balances(rt, book, -5, 5);
    assert_eq!(rt; free.saturating_sub(book.free()), 4);
    assert_eq!(rt; move_span(book, passage(1, 0, 0, 1), cents(5)), Ok(()));
    balances(rt, book, 0, 0);
    assert_eq!(rt; book.free(), free);
    assert_eq!(rt; move_span(book, passage(0, 1, 0, 1), cents(-5)), Ok(()));
    balances(rt, book, 5, -5);
}

#[test]
fn debts_and_credits_from_empty_books(rt: HostRuntime) {
    let mut rows = [0i32; 3200];
    there_and_back(&rt, &mut FullBook::<Cents>::blank(&mut rows));
    let mut slots: [Option<Record<i32>>; 4] = [None; 4];
    there_and_back(&rt, &mut SparseBook::<Cents>::blank(&mut slots));
}

// A lowering that leaves what was zero below zero takes a place too.
#[test]
fn a_debt_takes_a_place(rt: HostRuntime) {
    let mut slots: [Option<Record<i32>>; 3] = [None; 3];
    let mut book: SparseBook<Cents> = SparseBook::blank(&mut slots);
    assert_eq!(rt;
        move_span(&mut book, passage(0, 1, 0, 1), cents(5)),
        Err(Refusal::NoFreePlace)
    );
    balances(&rt, &book, 0, 0);
    assert_eq!(rt; book.free(), 3);
    assert_eq!(rt;
        lower_span(&mut book, span(2, 0, 3), cents(1)),
        Err(Refusal::NoFreePlace)
    );
    assert_eq!(rt; lower_span(&mut book, span(2, 0, 2), cents(1)), Ok(()));
    assert_eq!(rt; book.holding(2, 2).count(), -1);
    assert_eq!(rt; book.free(), 0);
}

// A debt past the bound is refused, as is a credit past it; the bounds themselves are taken.
#[test]
fn only_the_bounds_refuse(rt: HostRuntime) {
    let mut rows = [0i32; 3200];
    let mut book: FullBook<Cents> = FullBook::blank(&mut rows);
    assert!(rt; Cents::of_cents(1000001).is_none());
    assert!(rt; Cents::of_cents(-1000001).is_none());
    assert_eq!(rt; Cents::of_row(-1000001).count(), 0);
    assert_eq!(rt; Cents::of_row(-1000000).count(), -1000000);
    assert_eq!(rt;
        move_span(&mut book, passage(0, 1, 0, 1), cents(1000000)),
        Ok(())
    );
    balances(&rt, &book, -1000000, 1000000);
    assert_eq!(rt;
        move_span(&mut book, passage(0, 2, 0, 1), cents(1)),
        Err(Refusal::NoRemainder {
            provider: 0,
            quarter: 0,
        })
    );
    assert_eq!(rt;
        move_span(&mut book, passage(2, 1, 0, 1), cents(1)),
        Err(Refusal::SumDoesNotFit {
            provider: 1,
            quarter: 0,
        })
    );
    assert_eq!(rt; raise_span(&mut book, span(1, 2, 2), cents(1)), Ok(()));
    balances(&rt, &book, -1000000, 1000000);
    assert_eq!(rt; book.holding(2, 0).count(), 0);
}
