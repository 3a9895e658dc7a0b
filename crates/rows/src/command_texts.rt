//! Commands as answers tell them.

use crate::answer_text::AnswerText;
use crate::showing::Shows;
use registry::Command;
use versions::{Name, Published};

/// A command, as `["publish","a","1.0.0",[["b","^1"]]]` or `["yank","a","1.0.0"]`.
impl Shows for Command {
    fn show(&self, text: &mut AnswerText) {
        match self {
            Command::Publish(name, version, needs) => {
                put_begun(text, "[\"publish\",", name, version);
                text.put(",");
                needs.needs().show(text);
            }
            Command::Yank(name, version) => put_begun(text, "[\"yank\",", name, version),
            Command::Unyank(name, version) => put_begun(text, "[\"unyank\",", name, version),
        }
        text.put("]");
    }
}

fn put_begun(text: &mut AnswerText, kind: &str, name: &Name, version: &Published) {
    text.put(kind);
    name.show(text);
    text.put(",");
    version.show(text);
}
