//! What the tests of whole texts share: runs of the program, and calls made again on a set of keys.
use crate::*;
use std::collections::BTreeSet;
use std::sync::Wait;
use std::test::Fail;
use std::thread::Threads;

/// What the program writes, of at most so many bytes, where it is given this input and ends well.
pub fn written<R: AllocGlobal + Threads + Wait + Sync>(
    rt: &R,
    line: &[&str],
    input: &str,
    room: usize,
) -> Result<String, Fail> {
    let alloc = rt.alloc();
    let mut words = Words::new(alloc);
    for word in line {
        words.push(word)?;
    }
    let bytes = input.as_bytes().to_vec(alloc)?;
    let mut source = MemSource::new(bytes, 4096, Vec::new(alloc));
    let mut sink = MemSink::new(alloc, 4096, Vec::new(alloc), room)?;
    let Ended { status, told: _ } = flit(rt, alloc, &words, &mut source, &mut sink);
    if status != Status::Done {
        return Err(Fail::from("it didn't end well"));
    }
    match str::from_utf8(sink.bytes()) {
        Ok(text) => Ok(String::from_str(alloc, text)?),
        Err(_) => Err(Fail::from("it didn't write a text")),
    }
}

/// What a call of a set of keys asks for.
#[derive(Clone, Copy, PartialEq, Eq)]
pub enum Kind {
    Insert,
    Remove,
    Contains,
}

/// A call, as a line of a trace or of a report has it; with no reply where it has none, or was stopped.
#[derive(Clone, Copy)]
pub struct Line {
    pub worker: u64,
    pub kind: Kind,
    pub key: u64,
    pub reply: Option<bool>,
}

fn kind_of(word: &str) -> Option<Kind> {
    if word == "insert" {
        Some(Kind::Insert)
    } else if word == "remove" {
        Some(Kind::Remove)
    } else if word == "contains" {
        Some(Kind::Contains)
    } else {
        None
    }
}

fn reply_of(line: &str) -> Option<bool> {
    if line.ends_with(" yes") {
        Some(true)
    } else if line.ends_with(" no") {
        Some(false)
    } else {
        None
    }
}

/// The call of a line, if it has one.
pub fn call_of(line: &str) -> Option<Line> {
    let mut words = line.split_whitespace();
    let worker = words.next()?.parse::<u64>().ok()?;
    let kind = kind_of(words.next()?)?;
    let key = words.next()?.parse::<u64>().ok()?;
    Some(Line {
        worker,
        kind,
        key,
        reply: reply_of(line),
    })
}

/// Makes a call on a set of keys, and answers what its reply is.
pub fn made(keys: &mut BTreeSet<u64>, call: Line) -> Result<bool, Fail> {
    match call.kind {
        Kind::Insert => Ok(keys.insert(call.key)?),
        Kind::Remove => Ok(keys.remove(&call.key)),
        Kind::Contains => Ok(keys.contains(&call.key)),
    }
}
