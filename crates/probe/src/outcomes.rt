//! Outcomes of requests.

use derivations::Learnt;
use rows::{AnswerText, Shows, Unread, whole};
use serde_json::Value;
use solver::{Options, Outcome};

/// How a row asks its request to be answered.
pub fn options_at(row: &Value) -> Result<Options, Unread> {
    Ok(Options {
        budget: budget_at(row)?,
        explain: explains(row),
    })
}

/// The budget of conflicts that a row may give.
fn budget_at(row: &Value) -> Result<Option<u32>, Unread> {
    match row.get("budget") {
        Some(budget) => Ok(Some(whole(budget)?)),
        None => Ok(None),
    }
}

/// Whether a row asks why no selection meets its request: unless it says `"explain":false`.
fn explains(row: &Value) -> bool {
    match row.get("explain") {
        Some(explain) => explain.as_bool() != Some(false),
        None => true,
    }
}

/// Puts `{"selected":[["a","1.0.0"]]`, `{"derivation":[..]`, or `{"selected":null` where no selection meets the request
/// and it was not asked why; without the end.
pub fn put_outcome(text: &mut AnswerText, outcome: &Outcome) {
    match outcome {
        Outcome::Selection(list, _) => put_begun(text, "{\"selected\":", list),
        Outcome::NoSelection(_) => text.put("{\"selected\":null"),
        Outcome::Refused(derivation, _) => put_begun(text, "{\"derivation\":", &derivation.lines()),
    }
}

fn put_begun<T: Shows>(text: &mut AnswerText, kind: &str, told: &T) {
    text.put(kind);
    told.show(text);
}

/// What an outcome offers to be learnt.
pub fn offered(outcome: &Outcome) -> &[Learnt] {
    match outcome {
        Outcome::Selection(_, offered) => offered,
        Outcome::NoSelection(offered) => offered,
        Outcome::Refused(_, offered) => offered,
    }
}
