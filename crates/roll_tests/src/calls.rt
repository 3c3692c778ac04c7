// The calls on rolls.
use crate::samples::{opened, passage, refused_so, sample, saved, with_passages};
use drill_press::Drill;
use passages::passage::Passage;
use press::Block;
use refusals::refusal::Refusal;
use roll_contents::contents::Total;
use rolls::state::OpenRoll;
use std::test::Fail;

#[test]
fn cancels_first_middle_and_last_of_32(rt: HostRuntime) -> Result<(), Fail> {
    let mut roll = opened()?;
    let mut rest = opened()?;
    for serial in 1..33u32 {
        roll.pass(&passage(serial))?;
        if serial != 1 && serial != 17 && serial != 32 {
            rest.pass(&passage(serial))?;
        }
    }
    roll.cancel(17)?;
    roll.cancel(32)?;
    roll.cancel(1)?;
    assert!(rt; saved(&roll)? == saved(&rest)?);
    Ok(())
}

#[test]
fn cancels_after_close_and_reopen(rt: HostRuntime) -> Result<(), Fail> {
    let mut roll = with_passages(&[1, 2, 3, 4])?;
    let mut block = [0; 64];
    roll.ship(&mut block)?;
    assert!(rt; block == passage(1));
    let mut roll = roll.close().reopen();
    roll.cancel(3)?;
    let mut rest = with_passages(&[1, 2, 4])?;
    rest.ship(&mut block)?;
    assert!(rt; saved(&roll)? == saved(&rest)?);
    let (roll, rest) = (roll.close(), rest.close());
    assert_eq!(rt;
        roll.total(),
        Total {
            cents: 750,
            count: 3
        }
    );
    let mut digest = [0; 64];
    let mut other = [0; 64];
    roll.digest(&mut digest)?;
    rest.digest(&mut other)?;
    assert!(rt; digest == other);
    Ok(())
}

#[test]
fn refuses_passes_in_order(rt: HostRuntime) -> Result<(), Fail> {
    let mut roll = with_passages(&[5])?;
    let before = saved(&roll)?;
    refused_so(&rt, roll.pass(&[0; 63]), Refusal::Length, &before, &roll)?;
    refused_so(&rt, roll.pass(&passage(5)), Refusal::Serial, &before, &roll)?;
    let unformed = Passage {
        class: 10,
        ..sample(6)
    };
    refused_so(
        &rt,
        roll.pass(&Block::from(&unformed)),
        Refusal::Form,
        &before,
        &roll,
    )?;
    let mut reserved = passage(6);
    reserved[19] = 1;
    refused_so(&rt, roll.pass(&reserved), Refusal::Form, &before, &roll)?;
    let unpriced = Passage {
        charged: 251,
        ..sample(6)
    };
    refused_so(
        &rt,
        roll.pass(&Block::from(&unpriced)),
        Refusal::Price,
        &before,
        &roll,
    )?;
    roll.cancel(5)?;
    roll.pass(&passage(5))?;
    assert!(rt; saved(&roll)? == before);
    Ok(())
}

#[test]
fn refuses_the_33rd_until_one_is_shipped(rt: HostRuntime) -> Result<(), Fail> {
    let mut roll = opened()?;
    for serial in 1..33u32 {
        roll.pass(&passage(serial))?;
    }
    let before = saved(&roll)?;
    refused_so(&rt, roll.pass(&passage(33)), Refusal::Full, &before, &roll)?;
    let mut short = [0xaa; 63];
    refused_so(&rt, roll.ship(&mut short), Refusal::Buffer, &before, &roll)?;
    assert!(rt; short == [0xaa; 63]);
    let mut block = [0; 64];
    roll.ship(&mut block)?;
    roll.pass(&passage(33))?;
    assert_eq!(rt; roll.total().count, 33);
    Ok(())
}

#[test]
fn refuses_cancels_and_empty_ships(rt: HostRuntime) -> Result<(), Fail> {
    let mut roll = with_passages(&[3, 4])?;
    let before = saved(&roll)?;
    refused_so(&rt, roll.cancel(2), Refusal::Unknown, &before, &roll)?;
    let mut block = [0; 64];
    roll.ship(&mut block)?;
    let before = saved(&roll)?;
    refused_so(&rt, roll.cancel(3), Refusal::Shipped, &before, &roll)?;
    refused_so(&rt, roll.cancel(5), Refusal::Unknown, &before, &roll)?;
    roll.cancel(4)?;
    let before = saved(&roll)?;
    let mut kept = [0xaa; 64];
    refused_so(&rt, roll.ship(&mut kept), Refusal::Empty, &before, &roll)?;
    assert!(rt; kept == [0xaa; 64]);
    Ok(())
}

#[test]
fn refuses_short_buffers_and_wrong_sizes(rt: HostRuntime) -> Result<(), Fail> {
    let roll = with_passages(&[1])?;
    let mut short = [0xaa; 127];
    assert_eq!(rt; roll.seal(&mut short), Err(Refusal::Buffer));
    assert_eq!(rt; roll.save(&mut short), Err(Refusal::Buffer));
    assert!(rt; short == [0xaa; 127]);
    let closed = roll.close();
    assert_eq!(rt; closed.digest(&mut short[0..63]), Err(Refusal::Buffer));
    assert!(rt; short == [0xaa; 127]);
    match OpenRoll::open(Drill, 513) {
        Ok(_) => Err(Fail::new("opened")),
        Err(declined) => {
            assert_eq!(rt; declined.refusal, Refusal::Size);
            Ok(())
        },
    }
}
