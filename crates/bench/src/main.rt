// Reads a tree and steps from two files, and prints the cut sequences left, or why there are none.
#![tactic(auto)]

ghost use Rattle.std.specs.Prelude.{◌<◌, length};

use derivation::job::derive;
use front_of_file::read;
use sequences::table::Table;
use std::io::{self, Write};

// The line of a row.
fn tell_row(rt: &impl Print, table: &Table, row: usize) -> io::Result<()>
    requires { row < length table.now }
{
    let mut buffer = [0u8; 512];
    let length = table.line(row, &mut buffer).unwrap();
    io::writer(rt).write_all(&buffer[0..length])
}

// The lines of the table, or N where it has no rows. A table gives its lines by number, and has no iterator of them.
fn tell_table(rt: &impl Print, table: &Table) -> io::Result<()> {
    if table.is_empty() {
        return println!(rt; "N");
    }
    for row in 0..table.len() {
        tell_row(rt, table, row)?;
    }
    Ok(())
}

// A file that cannot be read counts as empty.
fn main(rt: HostRuntime) -> io::Result<()> {
    let alloc = rt.alloc();
    let tree = read(&rt, alloc, "tree.bin").unwrap_or(Vec::new(alloc));
    let steps = read(&rt, alloc, "steps.bin").unwrap_or(Vec::new(alloc));
    let mut table = Table::new();
    match derive(tree.as_slice(), steps.as_slice(), &mut table) {
        Ok(()) => tell_table(&rt, &table),
        Err(fault) => println!(rt; "{fault}"),
    }
}
