// Tells how a date of loss comes about: from a tree and a log of failures, term by term.
#![tactic(auto)]

use algebra::Refusal;
use dates::{Date, Tick};
use failure_log::{Entry, Log, LogRefusal};
use holds::drop_under_hold;
use std::rt::Files;
use std::{fs, io};
use terms::date_at;
use trees::reader::{Tree, read_tree};
use words::{letter, shown};

mod holds;
mod terms;
mod words;

// How many entries the log of this program has room for.
const ROOM: usize = 16;

// The number of its log.
const LOG: u8 = 7;

// Who holds the log.
const CUSTODIAN: u8 = 1;

// The bytes of a file; one that cannot be read counts as empty.
fn file(rt: &(impl Files + AllocGlobal), name: &str) -> Vec<u8> {
    fs::read(rt, name).unwrap_or_else(|_| Vec::new(rt.alloc()))
}

// The tick of four bytes, as it is told; bytes that are no date are told as never, and the log refuses them.
fn told(bytes: &[u8]) -> Tick {
    Tick::read(bytes).unwrap_or(Tick::never())
}

// Enters what `entries.bin` holds: for each entry an event and four bytes of date.
fn tell_entries(rt: &impl Print, log: &mut Log<Tick>, bytes: &[u8]) -> io::Result<()> {
    for one in bytes.chunks(5) {
        let (event, date) = one.split_first().unwrap();
        let name = letter(*event);
        let when = told(date);
        match log.enter(*event, date) {
            Ok(()) => println!(rt; "entry: {name} at {when}")?,
            Err(refusal) => println!(rt;
                "entry: {name} at {when}, refused with {}: {refusal}",
                refusal.code()
            )?,
        }
    }
    Ok(())
}

// What came of a drop.
fn tell_drop(rt: &impl Print, dropped: Result<(), LogRefusal>, kept: usize) -> io::Result<()> {
    match dropped {
        Ok(()) => println!(rt; "  granted, {kept} entries are kept"),
        Err(refusal) => println!(rt;
            "  refused with {}: {refusal}; {kept} entries are kept",
            refusal.code()
        ),
    }
}

// A drop while a hold stands, and again after it is lifted.
fn tell_holds(rt: &impl Print, log: &mut Log<Tick>, bytes: &[u8]) -> io::Result<()> {
    let when = told(bytes);
    println!(rt; "custodian {CUSTODIAN} holds the log; drop before {when}:")?;
    match drop_under_hold(log, CUSTODIAN, bytes) {
        Ok(attempt) => {
            tell_drop(rt, attempt.dropped, log.kept())?;
            let holder = attempt.custodian;
            println!(rt; "custodian {holder} lifts the hold; drop before {when}:")?;
        }
        Err(refusal) => println!(rt; "  the hold is refused with {}", refusal.code())?,
    }
    let dropped = log.drop_before(bytes);
    tell_drop(rt, dropped, log.kept())
}

// Each term of the text from the inside out with its date, and then that of the whole.
fn tell_terms(rt: &impl Print, text: &[u8], dating: &[Tick]) -> io::Result<()> {
    let mut work = [Tick::never(); 256];
    for place in (0..text.len()).rev() {
        let Some((end, tick)) = date_at(text, place, dating, &mut work) else {
            return println!(rt; "place {place}: no term");
        };
        let term = shown(&text[place..end]);
        println!(rt; "place {place}: {term} is dated {tick}")?;
    }
    Ok(())
}

// The log's dates of the tree's events, and the dates of its terms.
fn tell_dates(rt: &impl Print, log: &Log<Tick>, tree: &Tree) -> io::Result<()> {
    let dating = log.dating();
    for (event, tick) in (0..tree.events).zip(&dating) {
        let name = letter(event);
        println!(rt; "event {name} is dated {tick}")?;
    }
    tell_terms(rt, tree.source.as_bytes(), &dating)
}

fn tell_tree(rt: &impl Print, tree: &Tree) -> io::Result<()> {
    let events = tree.events;
    let text = shown(tree.source.as_bytes());
    println!(rt; "the tree has {events} events, and its text is {text}")
}

fn main(rt: HostRuntime) -> io::Result<()> {
    let bytes = file(&rt, "tree.bin");
    match read_tree(bytes.as_slice()) {
        Err(refusal) => println!(rt; "tree.bin is refused with {}: {refusal}", refusal.code()),
        Ok(tree) => {
            tell_tree(&rt, &tree)?;
            let mut memory = [Entry {
                event: 0,
                date: Tick::never(),
            }; ROOM];
            let mut log = Log::new(LOG, &mut memory);
            println!(rt; "log {LOG} has room for {ROOM} entries")?;
            tell_entries(&rt, &mut log, file(&rt, "entries.bin").as_slice())?;
            tell_holds(&rt, &mut log, file(&rt, "drop.bin").as_slice())?;
            tell_dates(&rt, &log, &tree)
        }
    }
}
