// Closings, dates and lines of tables, run: what is granted, and each refusal.
use crate::sums::long_sum;
use algebra::Refusal;
use dates::{Date, Tick};
use sequences::table::Table;
use std::test::Fail;

// What came of closing a text in a new table: the number of rows, or else the refusal's number.
fn closed(text: &[u8]) -> Result<usize, u8> {
    let mut table = Table::new();
    table.close(text).map_err(|refusal| refusal.code())?;
    Ok(table.len())
}

// Whether the row prints as the line.
fn prints_as(table: &Table, row: usize, line: &[u8]) -> bool {
    let mut buffer = [0; 512];
    let Ok(length) = table.line(row, &mut buffer) else {
        return false;
    };
    buffer.get(..length) == Some(line)
}

#[test]
fn a_circle_is_impossible(rt: HostRuntime) {
    assert_eq!(rt; closed(b"**<ab<bc<ca"), Err(24));
    assert_eq!(rt; closed(b"**<ab=bc<ca"), Err(24));
    assert_eq!(rt; closed(b"**=ab=bc=ca"), Ok(1));
    assert_eq!(rt; closed(b"**<ab<bc<ac"), Ok(1));
}

#[test]
fn two_lines(rt: HostRuntime) {
    let mut table = Table::new();
    assert!(rt; table.close(b"+*b<ab*b=ab").is_ok());
    assert_eq!(rt; table.len(), 2);
    assert!(rt; prints_as(&table, 0, b"b a<b\n"));
    assert!(rt; prints_as(&table, 1, b"b a=b\n"));
}

#[test]
fn a_line_in_order(rt: HostRuntime) {
    let mut table = Table::new();
    assert!(rt; table.close(b"*****=ca<xb<abxc=ac").is_ok());
    assert!(rt; prints_as(&table, 0, b"c x a<b x<b a=c\n"));
}

#[test]
fn at_most_64_sequences(rt: HostRuntime) {
    // The 127 bytes from place 1 are a sum of 64 sequences, all 129 one of 65.
    let text: [u8; 129] = long_sum(64);
    assert_eq!(rt; closed(&text[1..128]), Ok(64));
    assert_eq!(rt; closed(&text[..129]), Err(23));
}

#[test]
fn no_sums(rt: HostRuntime) {
    assert_eq!(rt; closed(b"N"), Ok(0));
    assert_eq!(rt; closed(b""), Err(22));
    assert_eq!(rt; closed(b"*a"), Err(22));
    assert_eq!(rt; closed(b"ab"), Err(22));
    assert_eq!(rt; closed(b"y"), Err(22));
    assert_eq!(rt; closed(b"+aN"), Err(22));
    assert_eq!(rt; closed(b"*a+bc"), Err(22));
    assert_eq!(rt; closed(b"<aa"), Err(22));
    assert_eq!(rt; closed(b"[ab"), Err(22));
    assert_eq!(rt; closed(b"<a*bc"), Err(22));
}

#[test]
fn a_refusal_leaves_the_table(rt: HostRuntime) {
    let mut table = Table::new();
    assert!(rt; table.close(b"<ab").is_ok());
    assert!(rt; table.close(b"*<ab<ba").is_err());
    assert_eq!(rt; table.len(), 1);
    assert!(rt; prints_as(&table, 0, b"a<b\n"));
}

// The longest text of one sequence: 127 times *, and then 128 different pairs.
fn long_sequence() -> [u8; 511] {
    let mut bytes = [b'*'; 511];
    for (k, pair) in bytes[127..].chunks_mut(3).enumerate() {
        pair.copy_from_slice(&[b'<', b'a' + (k / 16) as u8, b'i' + (k % 16) as u8]);
    }
    bytes
}

#[test]
fn the_longest_line(rt: HostRuntime) -> Result<(), Fail> {
    let mut table = Table::new();
    table.close(&long_sequence())?;
    let mut buffer = [0; 512];
    assert_eq!(rt; table.line(0, &mut buffer)?, 512);
    assert_eq!(rt; buffer[0], b'a');
    assert_eq!(rt; buffer[510], b'x');
    assert_eq!(rt; buffer[511], b'\n');
    Ok(())
}

#[test]
fn no_line(rt: HostRuntime) {
    let mut table = Table::new();
    assert!(rt; table.close(b"a").is_ok());
    let mut buffer = [7; 513];
    let small = table
        .line(5, &mut buffer[..511])
        .map_err(|refusal| refusal.code());
    assert_eq!(rt; small, Err(54));
    let none = table.line(1, &mut buffer).map_err(|refusal| refusal.code());
    assert_eq!(rt; none, Err(55));
    assert!(rt; table.line(0, &mut buffer).is_ok());
    assert_eq!(rt; buffer[1], b'\n');
    assert_eq!(rt; buffer[2], 7);
}

// The date of the table that the text closes to, where a, b and c have these dates.
fn ticks(text: &[u8], a: u32, b: u32, c: u32) -> Result<u32, u8> {
    let mut table = Table::new();
    table.close(text).map_err(|refusal| refusal.code())?;
    let mut dating = [Tick::never(); 24];
    dating[0] = Tick { value: a };
    dating[1] = Tick { value: b };
    dating[2] = Tick { value: c };
    table
        .date(&dating)
        .map(|at| at.value)
        .map_err(|refusal| refusal.code())
}

#[test]
fn dates_of_tables(rt: HostRuntime) {
    assert_eq!(rt; ticks(b"<ab", 3, 9, 0), Ok(3));
    assert_eq!(rt; ticks(b"<ab", 9, 9, 0), Ok(u32::MAX));
    assert_eq!(rt; ticks(b"=ab", 9, 9, 0), Ok(9));
    assert_eq!(rt; ticks(b"*c<ab", 3, 9, 5), Ok(5));
    assert_eq!(rt; ticks(b"+*ab*bc", 3, 9, 5), Ok(9));
    assert_eq!(rt; ticks(b"+*ab*bc", 7, 4, 5), Ok(5));
    assert_eq!(rt; ticks(b"N", 1, 2, 3), Ok(u32::MAX));
    let table = Table::new();
    let dating = [Tick::never(); 25];
    let few = table.date(&dating[..23]).map_err(|refusal| refusal.code());
    assert_eq!(rt; few.err(), Some(52));
    assert!(rt; table.date(&dating).is_err());
}
