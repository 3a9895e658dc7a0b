//! Calls that no program of this repository makes: each is made here, so that it is known to answer where there is memory.

use book::Item;
use journals::{LoadFault, load_journal};
use releases::{Matching, Releases};
use rows::{AnswerText, CallResult, Unread, both, given_if, size_at, text_at};
use serde_json::Value;
use std::alloc::{AllocError, Global};
use versions::{Need, Published};
use wire::read_lock;

pub fn further_call(alloc: Global, name: &str, row: &Value) -> Result<CallResult, Unread> {
    match name {
        "load_journal" => loaded(alloc, text_at(row, "text")?.as_bytes()),
        "read_lock" => given_if(alloc, read_lock(alloc, text_at(row, "text")?.as_bytes())),
        "matching_at" => matching_at(alloc, row),
        _ => Err(Unread::Row),
    }
}

// ---- journals

/// How many items a journal's file has, as `{"items":2,"learnt":1}`, or its first line at fault.
fn loaded(alloc: Global, text: &[u8]) -> Result<CallResult, Unread> {
    let mut reader = text;
    match load_journal(alloc, &mut reader) {
        Ok(items) => {
            let answer = counted(alloc, &items);
            drop(items);
            answer
        }
        Err(LoadFault::Line(line)) => at_fault(alloc, line),
        Err(LoadFault::Memory) => Err(Unread::from(AllocError)),
        Err(LoadFault::Input) => Ok(CallResult::Word("input")),
    }
}

fn counted(alloc: Global, items: &[Item]) -> Result<CallResult, Unread> {
    let mut learnt: usize = 0;
    for item in items {
        if let Item::Learnt(_) = item {
            learnt = learnt.saturating_add(1);
        }
    }
    let mut text = AnswerText::new(alloc);
    text.put("{\"items\":");
    text.put_plain(items.len());
    text.put(",\"learnt\":");
    text.put_plain(learnt);
    text.put("}");
    text.answer()
}

fn at_fault(alloc: Global, line: usize) -> Result<CallResult, Unread> {
    let mut text = AnswerText::new(alloc);
    text.put("{\"line\":");
    text.put_plain(line);
    text.put("}");
    text.answer()
}

// ---- releases

/// What meets a requirement where one version is published. The requirement is looked for at a place, and was not named.
fn matching_at(alloc: Global, row: &Value) -> Result<CallResult, Unread> {
    let place = size_at(row, "place")?;
    let (need, version) = both::<Need, Published>(alloc, row, "need", "version")?;
    let mut releases = Releases::new(alloc);
    let answer = match publish(&mut releases, version) {
        Ok(()) => set_told(alloc, releases.matching_at(&need, place)),
        Err(why) => Err(why),
    };
    drop(releases);
    drop(need);
    answer
}

fn publish(releases: &mut Releases, version: Published) -> Result<(), Unread> {
    if releases.find(&version).is_some() || releases.len() > u32::MAX as usize {
        drop(version);
        return Err(Unread::Row);
    }
    if let Err(why) = releases.reserve() {
        drop(version);
        return Err(Unread::from(why));
    }
    releases.push(version);
    Ok(())
}

fn set_told(
    alloc: Global,
    matching: Result<Matching<'_>, AllocError>,
) -> Result<CallResult, Unread> {
    let matching = matching?;
    let answer = given_if(alloc, matching.set(alloc));
    drop(matching);
    answer
}
