// Damaged saved texts, one for each clause of 14 and 15, and texts that are resumed.
use crate::samples::{opened, saved, with_passages};
use drill_press::Drill;
use rolls::state::OpenRoll;
use saved_text::snapshot::TextFault;
use std::process::Abort;
use std::test::Fail;

// Line 1 of the sample, and where it and the other three lines end.
const HEAD: &[u8] = b"roll\t512\t1\t3\t250\t2\n";

const LINE_1: usize = 19;

const LINE_2: usize = 282;

const LINE_3: usize = 416;

const LINE_4: usize = 550;

// A roll with passage 3 shipped, and 4 and 5 in the window.
fn sample_roll() -> Result<OpenRoll<Drill>, Fail> {
    let mut roll = with_passages(&[3, 4, 5])?;
    let mut block = [0; 64];
    roll.ship(&mut block)?;
    Ok(roll)
}

// Resumes a new roll from a line 1 and the rest of a text; a refused roll stays as it was.
fn resumed(
    rt: &(impl Abort + AllocGlobal),
    head: &[u8],
    rest: &[u8],
) -> Result<Result<(), (u8, u32)>, Fail> {
    let mut text = Vec::new(rt.alloc());
    text.extend_from_slice(head)?;
    text.extend_from_slice(rest)?;
    let mut roll = opened()?;
    let result = roll.resume(text.as_slice()).map_err(told);
    if result.is_err() {
        assert!(rt; saved(&roll)? == saved(&opened()?)?);
    }
    Ok(result)
}

// The number and the line that a fault tells.
fn told(fault: TextFault) -> (u8, u32) {
    (fault.refusal.into(), fault.line)
}

// Kept: by number, so that the tests keep the values that docs/refusals.md has.
fn fault(number: u8, line: u32) -> Result<(), (u8, u32)> {
    Err((number, line))
}

#[test]
fn resumes_what_was_saved(rt: HostRuntime) -> Result<(), Fail> {
    let text = saved(&sample_roll()?)?;
    assert_eq!(rt; resumed(&rt, HEAD, &text[LINE_1..LINE_4])?, Ok(()));
    let mut roll = opened()?;
    roll.resume(&text[0..LINE_4])?;
    assert!(rt; saved(&roll)? == text);
    Ok(())
}

#[test]
fn refuses_line_1(rt: HostRuntime) -> Result<(), Fail> {
    let text = saved(&sample_roll()?)?;
    let rest = &text[LINE_1..LINE_4];
    assert_eq!(rt; resumed(&rt, b"", b"")?, fault(14, 1));
    assert_eq!(rt;
        resumed(&rt, b"roll\t512\t1\t3\t250\t2", b"")?,
        fault(14, 1)
    );
    for (head, number) in [
        ("roll\t512\t1\t3\t250\n", 14),
        ("roll\t0512\t1\t3\t250\t2\n", 14),
        ("", 14),
        ("roll\t513\t1\t3\t250\t2\n", 15),
        ("roll\t512\t999999\t4000000\t250\t2\n", 15),
        ("roll\t512\t1\t3\t250\t33\n", 15),
        ("roll\t512\t1\t4294967296\t250\t2\n", 15),
        ("roll\t512\t4\t3\t250\t2\n", 15),
        ("roll\t512\t0\t3\t0\t2\n", 15),
        ("roll\t512\t0\t0\t5\t2\n", 15),
        ("roll\t512\t1\t3\t4294967296\t2\n", 15),
    ] {
        assert_eq!(rt; resumed(&rt, head.as_bytes(), rest)?, fault(number, 1));
    }
    Ok(())
}

#[test]
fn refuses_other_lines(rt: HostRuntime) -> Result<(), Fail> {
    let text = saved(&sample_roll()?)?;
    let chain = &text[LINE_1..LINE_2];
    let rest = &text[LINE_1..LINE_4];
    assert_eq!(rt; resumed(&rt, HEAD, &text[LINE_2..LINE_4])?, fault(14, 2));
    assert_eq!(rt; resumed(&rt, HEAD, chain)?, fault(14, 3));
    assert_eq!(rt; resumed(&rt, HEAD, &text[LINE_1..LINE_3])?, fault(14, 4));
    assert_eq!(rt;
        resumed(&rt, HEAD, &text[LINE_1..LINE_4 - 1])?,
        fault(14, 4)
    );
    for (head, number, line) in [
        ("roll\t512\t1\t3\t250\t1\n", 14, 4),
        ("roll\t512\t1\t3\t250\t3\n", 14, 5),
        ("roll\t512\t1\t4\t250\t2\n", 15, 3),
    ] {
        assert_eq!(rt; resumed(&rt, head.as_bytes(), rest)?, fault(number, line));
    }
    Ok(())
}

// The sample with one character of line 3 replaced: 14 where it is no digit, else 15 by the field that it spoils.
#[test]
fn refuses_a_damaged_passage(rt: HostRuntime) -> Result<(), Fail> {
    let text = saved(&sample_roll()?)?;
    let mut roll = opened()?;
    for (place, digit, number) in [
        (32, b'g', 14),
        (32, b'a', 15),
        (37, b'1', 15),
        (44, b'1', 15),
    ] {
        let mut damaged = text;
        damaged[LINE_2 + 5 + place] = digit;
        assert_eq!(rt;
            roll.resume(&damaged[0..LINE_4]).map_err(told),
            fault(number, 3)
        );
    }
    Ok(())
}
