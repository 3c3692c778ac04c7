// Passages and rolls that the tests use, over the drill press.
use drill_press::Drill;
use passages::passage::Passage;
use press::Block;
use refusals::refusal::Refusal;
use rolls::state::OpenRoll;
use std::process::Abort;
use std::test::Fail;

// A passage of 400 cents less 150.
pub fn sample(serial: u32) -> Passage {
    Passage {
        gate: 17,
        serial,
        time: 1_700_000_000,
        class: 1,
        version: 1,
        full_price: 400,
        discount: 150,
        charged: 250,
        tag: [7; 32],
    }
}

pub fn passage(serial: u32) -> Block {
    Block::from(&sample(serial))
}

// A new roll of 512 bits.
pub fn opened() -> Result<OpenRoll<Drill>, Fail> {
    OpenRoll::open(Drill, 512).map_err(|_| Fail::new("not opened"))
}

// A roll of 512 bits with the passages of these serials.
pub fn with_passages(serials: &[u32]) -> Result<OpenRoll<Drill>, Fail> {
    let mut roll = opened()?;
    for serial in serials {
        roll.pass(&passage(*serial))?;
    }
    Ok(roll)
}

// The saved text of a roll, with zeros behind it: all that the roll holds.
pub fn saved(roll: &OpenRoll<Drill>) -> Result<[u8; 4700], Refusal> {
    let mut text = [0; 4700];
    roll.save(&mut text)?;
    Ok(text)
}

// Whether a call was refused for that reason, and left the roll as it was.
pub fn refused_so(
    rt: &impl Abort,
    res: Result<(), Refusal>,
    reason: Refusal,
    before: &[u8; 4700],
    roll: &OpenRoll<Drill>,
) -> Result<(), Fail> {
    assert_eq!(rt; res, Err(reason));
    assert!(rt; saved(roll)? == *before);
    Ok(())
}
