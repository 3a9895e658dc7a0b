//! Lines as answers tell them: in the form in which rows give them.

use crate::answer_text::AnswerText;
use crate::showing::Shows;
use derivations::{Cause, Learnt, Line, Premise};
use store::Store;
use terms::VSet;

impl Shows for Line {
    fn show(&self, text: &mut AnswerText) {
        text.put("{\"conclusion\":");
        self.conclusion.show(text);
        text.put(",\"causes\":");
        self.causes.show(text);
        text.put(",\"pivot\":");
        text.put_plain(self.pivot);
        text.put("}");
    }
}

impl Shows for Cause {
    fn show(&self, text: &mut AnswerText) {
        match self {
            Cause::Line(number) => put_number(text, "{\"line\":", *number),
            Cause::Premise(premise) => premise.show(text),
            Cause::Need(index) => put_number(text, "{\"need_at\":", *index),
            Cause::NotAllowed(pkg, versions) => put_barred(text, *pkg, versions),
            Cause::Root => text.put("{\"root\":true}"),
        }
    }
}

fn put_number(text: &mut AnswerText, kind: &str, number: usize) {
    text.put(kind);
    text.put_plain(number);
    text.put("}");
}

fn put_barred(text: &mut AnswerText, pkg: u32, versions: &VSet) {
    text.put("{\"not_allowed\":[");
    text.put_plain(pkg);
    text.put(",");
    versions.show(text);
    text.put("]}");
}

impl Shows for Premise {
    fn show(&self, text: &mut AnswerText) {
        text.put("{\"package\":");
        text.put_plain(self.package);
        text.put(",\"versions\":");
        self.versions.show(text);
        text.put(",\"target\":");
        text.put_plain(self.target);
        text.put(",\"need\":");
        self.need.show(text);
        text.put(",\"within\":");
        self.within.show(text);
        text.put("}");
    }
}

/// What is learnt by what it concludes.
impl Shows for Learnt {
    fn show(&self, text: &mut AnswerText) {
        self.conclusion().show(text);
    }
}

/// What is stored by what its members conclude, in order of learning.
impl Shows for Store {
    fn show(&self, text: &mut AnswerText) {
        let mut is_first = true;
        text.put("[");
        for member in self.members() {
            text.put_between(is_first);
            member.show(text);
            is_first = false;
        }
        text.put("]");
    }
}
