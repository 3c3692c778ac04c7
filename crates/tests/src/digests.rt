// Digests in one call and in parts, and their refusals.
use grouped::Grouped;
use jh_digest::feeder::JhFeeder;
use jh_digest::whole::digest;
use jh_press::JhPress;
use refusals::refusal::Refusal;
use refusals::size::DigestSize;
use std::array;
use std::test::Fail;

// A message of 200 bytes.
fn message() -> [u8; 200] {
    array::from_fn(|i| (i * 7 % 251) as u8)
}

// The digest of 512 bits in one call.
fn in_one_call(bytes: &[u8], bits: u64) -> Result<[u8; 64], Refusal> {
    let mut out = [0; 64];
    digest(&JhPress::new(Grouped), 512, bytes, bits, &mut out)?;
    Ok(out)
}

fn feeder() -> JhFeeder<Grouped> {
    JhFeeder::new(JhPress::new(Grouped), DigestSize::D512)
}

fn finished(feeder: &mut JhFeeder<Grouped>) -> Result<[u8; 64], Refusal> {
    let mut out = [0; 64];
    feeder.finish(&mut out)?;
    Ok(out)
}

#[test]
fn one_call_refuses_in_order(rt: HostRuntime) {
    let press = JhPress::new(Grouped);
    let m = message();
    let mut out = [0xaa; 64];
    assert_eq!(rt;
        digest(&press, 225, &m, 1601, &mut out[0..3]),
        Err(Refusal::Size)
    );
    assert_eq!(rt;
        digest(&press, 224, &m, 1601, &mut out[0..3]),
        Err(Refusal::Bits)
    );
    assert_eq!(rt;
        digest(&press, 224, &m, 1600, &mut out[0..27]),
        Err(Refusal::Buffer)
    );
    assert!(rt; out == [0xaa; 64]);
}

#[test]
fn refused_feeder_stays(rt: HostRuntime) -> Result<(), Fail> {
    let mut f = feeder();
    f.feed(b"abc")?;
    let chunk = Vec::from_elem(rt.alloc(), 0u8, 1 << 24)?;
    let parts = Vec::from_elem(rt.alloc(), chunk.as_slice(), 1 << 16)?;
    assert_eq!(rt; f.feed_all(parts.as_slice()), Err(Refusal::Bytes));
    let mut short = [0xaa; 63];
    assert_eq!(rt; f.finish(&mut short), Err(Refusal::Buffer));
    assert!(rt; short == [0xaa; 63]);
    assert!(rt; finished(&mut f)? == in_one_call(b"abc", 24)?);
    Ok(())
}

#[test]
fn unstarted_feeder_hands_its_press_back(rt: HostRuntime) -> Result<(), Fail> {
    match JhFeeder::start(JhPress::new(Grouped), 200) {
        Ok(_) => Err(Fail::new("started")),
        Err(declined) => {
            assert_eq!(rt; declined.refusal, Refusal::Size);
            let mut f = JhFeeder::new(declined.press, DigestSize::D512);
            assert!(rt; finished(&mut f)? == in_one_call(b"", 0)?);
            Ok(())
        }
    }
}

#[test]
fn parts_do_not_matter(rt: HostRuntime) -> Result<(), Fail> {
    let m = message();
    let mut f = feeder();
    f.feed_all(&[
        &m[0..0],
        &m[0..1],
        &m[1..64],
        &m[64..128],
        &m[128..193],
        b"",
        &m[193..200],
    ])?;
    assert!(rt; finished(&mut f)? == in_one_call(&m, 1600)?);
    f.feed(&m[0..65])?;
    f.feed(&m[65..128])?;
    assert!(rt; finished(&mut f)? == in_one_call(&m, 1024)?);
    assert!(rt; finished(&mut f)? == in_one_call(b"", 0)?);
    Ok(())
}

#[test]
fn unused_bits_are_ignored(rt: HostRuntime) -> Result<(), Fail> {
    for bits in 1..8u32 {
        let used = in_one_call(&[0x5a >> (8 - bits) << (8 - bits)], u64::from(bits))?;
        assert!(rt; used == in_one_call(&[0x5a], u64::from(bits))?);
        assert!(rt; used != in_one_call(&[0xa5], u64::from(bits))?);
    }
    Ok(())
}
