// Reads a tree and steps written by hand, and writes their bytes.
#![tactic(auto)]

use job::{Job, LineFault};
use notation::words::split_words;
use std::alloc::AllocError;
use std::rt::Files;
use std::{env, fs, io};
use thiserror::Error;

mod job;

// The file that is read where no other is named.
const TEXT: &str = "job.txt";

// The number of a line that cannot be taken, and why it cannot.
#[derive(Clone, Copy, Debug, Error)]
#[error("line {line}: {fault}")]
struct BadLine {
    line: usize,
    fault: LineFault,
}

// The line before a comment.
fn before_comment(line: &str) -> &str {
    line.split_once('#').map_or(line, |(text, _)| text)
}

// Reads the lines of a job one after another, up to the first that cannot be taken.
fn read_job(rt: &impl AllocGlobal, text: &str) -> Result<Result<Job, BadLine>, AllocError> {
    let mut job = Job::new(rt.alloc());
    for (line, words) in (1usize..).zip(text.lines()) {
        let words = split_words(rt.alloc(), before_comment(words))?;
        if let Err(fault) = job.add_line(rt.alloc(), words.as_slice()) {
            return Ok(Err(BadLine { line, fault }));
        }
    }
    Ok(Ok(job))
}

// Writes the two files of a job.
fn write_job(rt: &(impl Files + Print + AllocGlobal), job: &Job) -> io::Result<()> {
    let tree = match job.tree_bytes(rt.alloc()) {
        Ok(tree) => tree,
        Err(fault) => return println!(rt; "{fault}"),
    };
    fs::write(rt, "tree.bin", tree.as_slice())?;
    fs::write(rt, "steps.bin", job.step_bytes())?;
    let tree_size = tree.len();
    let steps_size = job.step_bytes().len();
    println!(rt; "tree.bin: {tree_size} bytes")?;
    println!(rt; "steps.bin: {steps_size} bytes")
}

fn main(rt: HostRuntime) -> io::Result<()> {
    let name = env::args(&rt)?.nth(1);
    let text = fs::read_to_string(&rt, name.as_ref().map_or(TEXT, |name| name.as_str()))?;
    match read_job(&rt, text.as_str())? {
        Ok(job) => write_job(&rt, &job),
        Err(fault) => println!(&rt; "{fault}"),
    }
}
