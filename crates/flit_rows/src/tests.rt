ghost use Rattle.std.specs.Prelude.{◌≤◌, ◌≡◌, IfOk, [], ◌∷◌};

use crate::{Pool, TakeRow, Took};
use flit_model::Event;
use flit_pv::Hand;
use flit_words::NoMemory;
use std::alloc::Global;
use std::process::Abort;
use std::test::Fail;

fn pool_of_three(alloc: Global) -> Result<Pool, NoMemory> {
    Pool::new(alloc, &[3, 5, 8])
}

/// The answer to each Draw is what the counter was.
fn draw(rt: &impl Abort, taking: &mut TakeRow, hand: &mut Hand, pool: &Pool, counter: u64) {
    assert_eq!(rt; taking.ask(hand), Some(Event::Draw));
    taking.take(hand, pool, counter);
}

#[test]
fn one_row_and_two(rt: HostRuntime) -> Result<(), Fail> {
    let pool = pool_of_three(rt.alloc())?;
    let mut hand = Hand::first(1);
    let mut taking = TakeRow::start(&hand, 1, &pool);
    assert!(rt; taking.ended().is_none());
    draw(&rt, &mut taking, &mut hand, &pool, 0);
    assert!(rt; taking.ask(&hand).is_none());
    assert_eq!(rt; taking.ended(), Some(Took::Taken));
    assert_eq!(rt; (hand.ticket, hand.spare), (0, [3, 0]));
    let again = TakeRow::start(&hand, 1, &pool);
    assert_eq!(rt; again.ended(), Some(Took::Taken), "a spare row is there");
    let mut taking = TakeRow::start(&hand, 2, &pool);
    draw(&rt, &mut taking, &mut hand, &pool, 1);
    assert_eq!(rt; taking.ended(), Some(Took::Taken));
    assert_eq!(rt; (hand.ticket, hand.spare), (1, [3, 5]));
    let empty = Pool::new(rt.alloc(), &[])?;
    let taking = TakeRow::start(&Hand::first(2), 1, &empty);
    assert_eq!(rt; taking.ended(), Some(Took::None { ticket: 0 }));
    Ok(())
}

#[test]
fn two_hands_past_the_end(rt: HostRuntime) -> Result<(), Fail> {
    let pool = pool_of_three(rt.alloc())?;
    let mut one = Hand::first(1);
    let mut two = Hand::first(2);
    let mut left = TakeRow::start(&one, 2, &pool);
    let mut right = TakeRow::start(&two, 2, &pool);
    draw(&rt, &mut right, &mut two, &pool, 0);
    draw(&rt, &mut left, &mut one, &pool, 1);
    draw(&rt, &mut left, &mut one, &pool, 2);
    draw(&rt, &mut right, &mut two, &pool, 3);
    assert_eq!(rt; (left.ended(), one.spare), (Some(Took::Taken), [5, 8]));
    assert_eq!(rt; right.ended(), Some(Took::None { ticket: 3 }));
    assert_eq!(rt; two.spare, [3, 0], "a row that was taken stays spare");
    let next = TakeRow::start(&two, 2, &pool);
    assert_eq!(rt;
        next.ended(),
        Some(Took::None { ticket: 3 }),
        "no second Draw past the end"
    );
    assert_eq!(rt; TakeRow::start(&two, 1, &pool).ended(), Some(Took::Taken));
    Ok(())
}
