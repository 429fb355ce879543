// Evaluations, run: dates of three kinds, and each refusal.
use crate::sums::long_sum;
use algebra::Refusal;
use dates::{Cause, Date, ShiftTick, Tick};
use std::test::Fail;
use texts::evaluation::evaluate;
use texts::scan::{is_text, term_end};

// What came of an evaluation, in numbers: the date's, or else the refusal's.
fn ticks(text: &[u8], a: u32, b: u32) -> Result<u32, u8> {
    let mut dating = [Tick::never(); 24];
    dating[0] = Tick { value: a };
    dating[1] = Tick { value: b };
    let mut work = [Tick::never(); 256];
    evaluate(text, &dating, &mut work)
        .map(|at| at.value)
        .map_err(|refusal| refusal.code())
}

#[test]
fn a_priority_and_counts_a_tie(rt: HostRuntime) {
    assert_eq!(rt; ticks(b"*b[ab", 5, 5), Ok(5));
    assert_eq!(rt; ticks(b"*b[ab", 7, 5), Ok(u32::MAX));
    assert_eq!(rt; ticks(b"*b[ab", 3, 5), Ok(5));
}

#[test]
fn before_counts_no_tie(rt: HostRuntime) {
    assert_eq!(rt; ticks(b"<ab", 5, 5), Ok(u32::MAX));
    assert_eq!(rt; ticks(b"<aN", 4, 5), Ok(4));
    assert_eq!(rt; ticks(b"=ab", 5, 5), Ok(5));
}

#[test]
fn shifts_come_before_ticks(rt: HostRuntime) -> Result<(), Fail> {
    let a = ShiftTick::read(&[0, 2, 0x70, 0x7f]).ok_or("no date")?;
    let b = ShiftTick::read(&[0, 3, 0, 0]).ok_or("no date")?;
    let mut dating = [ShiftTick::never(); 24];
    dating[0] = a;
    dating[1] = b;
    let mut work = [ShiftTick::never(); 256];
    let at = evaluate(b"<ab", &dating, &mut work)?;
    assert_eq!(rt; at.value, 2 * 28_800 + 28_799);
    Ok(())
}

#[test]
fn two_causes_are_the_same(rt: HostRuntime) -> Result<(), Fail> {
    let a = Cause::read(b"M").ok_or("no date")?;
    let b = Cause::read(b"S").ok_or("no date")?;
    assert!(rt; Cause::read(b"X").is_none());
    assert!(rt; a.no_later(b) && b.no_later(a));
    let mut dating = [Cause::never(); 24];
    dating[0] = a;
    dating[1] = b;
    let mut work = [Cause::never(); 256];
    let at = evaluate(b"<ab", &dating, &mut work)?;
    assert!(rt; Cause::never().no_later(at));
    Ok(())
}

#[test]
fn each_refusal(rt: HostRuntime) {
    assert_eq!(rt; ticks(b"", 1, 2), Err(51));
    assert_eq!(rt; ticks(b"+a", 1, 2), Err(51));
    assert_eq!(rt; ticks(b"ab", 1, 2), Err(51));
    assert_eq!(rt; ticks(b"y", 1, 2), Err(51));
    let mut work = [Tick::never(); 256];
    let dating = [Tick::never(); 25];
    let few = evaluate(b"a", &dating[..23], &mut work).map_err(|refusal| refusal.code());
    assert_eq!(rt; few.err(), Some(52));
    let small = evaluate(b"a", &dating[..24], &mut work[..255]).map_err(|refusal| refusal.code());
    assert_eq!(rt; small.err(), Some(53));
}

#[test]
fn the_longest_text(rt: HostRuntime) {
    // The first 511 bytes are one whole term.
    let text: [u8; 513] = long_sum(255);
    assert!(rt; is_text(&text[0..511]));
    assert_eq!(rt; ticks(&text[0..511], 9, 0), Ok(9));
    assert!(rt; !is_text(&text[0..512]));
    assert_eq!(rt; term_end(&text, 0), Some(511));
}
