// Reads the bytes of a tree and of steps, and prints them as lines that can be read and assembled again.
#![tactic(auto)]

use assembly::tree_bytes::{Layout, read_layout};
use front_of_file::read;
use notation::records::record_line;
use notation::step_words::step_line;
use std::io;
use std::str::from_utf8;
use steps::record::read_step;
use steps::records::Records;

// The lines of a tree.
fn tell_tree(rt: &(impl Print + AllocGlobal), layout: &Layout) -> io::Result<()> {
    let events = layout.events;
    println!(rt; "events {events}")?;
    for one in layout.records.as_slice() {
        let line = record_line(rt.alloc(), *one)?;
        println!(rt; "{line}")?;
    }
    Ok(())
}

// The line of a step record, or that it is not well-formed. Where the tree has more than 31 events, a term may hold bytes
// that are no plain text, and no line can say such a step either.
fn tell_step(
    rt: &(impl Print + AllocGlobal),
    events: u8,
    number: usize,
    bytes: &[u8],
) -> io::Result<()> {
    let Ok(said) = read_step(bytes, events) else {
        return println!(rt; "# step {number} is not well-formed");
    };
    let line = step_line(rt.alloc(), &said)?;
    match from_utf8(line.as_slice()) {
        Ok(text) => println!(rt; "{text}"),
        Err(_) => println!(rt; "# step {number} is not well-formed"),
    }
}

// The lines of a file of steps.
fn tell_steps(rt: &(impl Print + AllocGlobal), events: u8, file: &[u8]) -> io::Result<()> {
    for record in Records::of(file) {
        match record {
            Ok((number, bytes)) => tell_step(rt, events, number, bytes)?,
            Err(fault) => {
                let number = fault.step;
                println!(rt; "# step {number} is cut off by the end of the file")?;
            }
        }
    }
    Ok(())
}

// A file that cannot be read counts as empty. That of the steps is read only once the tree is told.
fn main(rt: HostRuntime) -> io::Result<()> {
    let alloc = rt.alloc();
    let tree = read(&rt, alloc, "tree.bin").unwrap_or(Vec::new(alloc));
    let Ok(layout) = read_layout(alloc, tree.as_slice()) else {
        return println!(rt; "# tree.bin is not made of records");
    };
    tell_tree(&rt, &layout)?;
    let steps = read(&rt, alloc, "steps.bin").unwrap_or(Vec::new(alloc));
    tell_steps(&rt, layout.events, steps.as_slice())
}
