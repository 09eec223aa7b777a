use super::rig::Rig;
use crate::*;
use arrayvec::ArrayVec;
use flit_model::Tally;
use flit_place::Placement;
use std::process::Abort;
use std::test::Fail;

macro_rules! make_events {
    ($rt:expr, $rig:expr, $most:expr, $ask:expr, $told:ident => $take:expr) => {
        for _ in 0..$most {
            if let Some(event) = $ask {
                let $told = $rig.make($rt, event)?;
                $take;
            }
        }
    };
}

pub fn p_load<P: Placement>(
    rt: &impl Abort,
    rig: &mut Rig,
    place: &P,
    hand: &mut Hand,
    word: u32,
) -> Result<u64, Fail> {
    let mut load = PLoad::start(word);
    make_events!(rt, rig, 18, load.ask(hand, place), told => load.take(hand, place, told));
    Ok(load.loaded().ok_or("loaded")?)
}

pub fn v_load(rt: &impl Abort, rig: &mut Rig, hand: &Hand, word: u32) -> Result<u64, Fail> {
    let mut load = VLoad::start(word);
    make_events!(rt, rig, 1, load.ask(hand), told => load.take(hand, told));
    Ok(load.loaded().ok_or("loaded")?)
}

pub fn confirm<P: Placement>(
    rt: &impl Abort,
    rig: &mut Rig,
    place: &P,
    hand: &mut Hand,
    word: u32,
    raw: u64,
) -> Result<(), Fail> {
    let mut confirm = Confirm::start(word, raw);
    make_events!(rt, rig, 17, confirm.ask(hand, place), told => confirm.take(hand, place, told));
    assert!(rt; confirm.ask(hand, place).is_none());
    confirm.end(hand);
    Ok(())
}

/// Makes at most so many events of an exchange.
pub fn p_exchange<P: Placement>(
    rt: &impl Abort,
    rig: &mut Rig,
    place: &P,
    hand: &mut Hand,
    exchange: &mut PExchange,
    most: u32,
) -> Result<(), Fail> {
    make_events!(rt, rig, most, exchange.ask(hand, place), told => exchange.take(hand, place, told));
    Ok(())
}

pub fn v_exchange(
    rt: &impl Abort,
    rig: &mut Rig,
    hand: &Hand,
    exchange: VExchange,
) -> Result<Exchanged, Fail> {
    let mut exchange = exchange;
    make_events!(rt, rig, 1, exchange.ask(hand), told => exchange.take(hand, told));
    Ok(exchange.ended().ok_or("ended")?)
}

pub fn private_store(
    rt: &impl Abort,
    rig: &mut Rig,
    hand: &mut Hand,
    first: u32,
    values: &[u32],
    limit: u32,
) -> Result<Stored, Fail> {
    let mut given = ArrayVec::new();
    assert!(rt; given.try_extend_from_slice(values).is_ok());
    assert!(rt; first < 1000);
    assert!(rt; limit <= 2147483647);
    let mut store = PrivateStore::start(first, given, limit);
    make_events!(rt, rig, 22, store.ask(hand), told => store.take(hand, told));
    Ok(store.ended().ok_or("ended")?)
}

pub fn complete(rt: &impl Abort, rig: &mut Rig, hand: &mut Hand) -> Result<Tally, Fail> {
    make_events!(rt, rig, 16, Complete.ask(hand), told => Complete.take(hand, told));
    assert!(rt; hand.queue.is_empty());
    Ok(hand.tally)
}
