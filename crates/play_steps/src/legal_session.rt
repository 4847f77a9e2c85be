//! A check of a session so far, from the definition of a legal one.
use crate::same_reply::same_reply;
use crate::test_worlds::LIMIT;
use std::alloc::Global;
use svc_plain::Plain;
use var_trace::{Change, Session};
use var_types::{Answered, Call, Route};

/// A call's reply is the one-thread service's after so many changes.
fn is_right(alloc: Global, changes: &[Change], answered: &Answered) -> bool {
    let mut plain = Plain::new(alloc, LIMIT);
    let Some(before) = changes.get(..answered.place as usize) else {
        return false;
    };
    for change in before {
        plain.step(&change.entry.call);
    }
    same_reply(&answered.reply, &plain.step(&answered.call))
}

/// The entries are numbered from 0, and each call is a change where it stands.
fn are_changes(alloc: Global, changes: &[Change]) -> bool {
    let mut plain = Plain::new(alloc, LIMIT);
    let mut number: u64 = 0;
    for change in changes {
        if change.entry.number != number || !plain.step(&change.entry.call).is_change() {
            return false;
        }
        number = number.saturating_add(1);
    }
    true
}

/// A change is the history's entry at its place.
fn is_entered(changes: &[Change], processor: u8, index: u32, answered: &Answered) -> bool {
    match changes.get(answered.place as usize) {
        Some(change) => change.entry.processor == processor && change.entry.index == index,
        None => false,
    }
}

/// What holds the cache is another of so many processors.
fn is_other(processors: usize, processor: u8, holder: u64) -> bool {
    let own = u64::from(processor).saturating_add(1);
    holder != 0 && holder <= processors as u64 && holder != own
}

/// The route is one that such a call may have.
fn is_routed(processors: usize, processor: u8, answered: &Answered) -> bool {
    let reads = matches!(answered.call, Call::Get(_) | Call::Next(_));
    let changed = answered.reply.is_change();
    match answered.route {
        Route::Cache => reads,
        Route::Merged { made, held } => reads && held < made && made <= answered.place,
        Route::Writer { holder } => {
            reads && (holder == 255 || is_other(processors, processor, holder))
        }
        Route::Flushed => changed,
        Route::Deferred { holder } => changed && is_other(processors, processor, holder),
        Route::Plain => !reads && !changed,
    }
}

/// A processor's answers are right, in order, entered and routed; how many of them are changes.
fn changes_of(
    alloc: Global,
    session: &Session,
    processor: u8,
    answers: &[Answered],
) -> Option<usize> {
    let changes = session.entries.changes();
    let mut least: u64 = 0;
    let mut index: u32 = 0;
    let mut count: usize = 0;
    for answered in answers {
        if answered.place < least
            || !is_routed(session.processors.len(), processor, answered)
            || !is_right(alloc, changes, answered)
        {
            return None;
        }
        least = answered.place;
        if answered.reply.is_change() {
            if !is_entered(changes, processor, index, answered) {
                return None;
            }
            least = least.saturating_add(1);
            count = count.saturating_add(1);
        }
        index = index.saturating_add(1);
    }
    Some(count)
}

/// The entries of a processor are those of so many answered changes, and at most one of the call behind them.
fn has_its_entries(changes: &[Change], processor: u8, answers: usize, count: usize) -> bool {
    let mut entries: usize = 0;
    let mut unanswered: usize = 0;
    for change in changes {
        if change.entry.processor == processor {
            entries = entries.saturating_add(1);
            if change.entry.index as usize == answers {
                unanswered = unanswered.saturating_add(1);
            }
        }
    }
    unanswered <= 1 && entries == count.saturating_add(unanswered)
}

/// A session so far is legal.
pub(crate) fn is_legal(alloc: Global, session: &Session) -> bool {
    let changes = session.entries.changes();
    let mut processor: u8 = 0;
    for answers in &session.processors {
        let answers = answers.as_slice();
        let Some(count) = changes_of(alloc, session, processor, answers) else {
            return false;
        };
        if !has_its_entries(changes, processor, answers.len(), count) {
            return false;
        }
        processor = processor.saturating_add(1);
    }
    changes.iter().all(|c| c.entry.processor < processor) && are_changes(alloc, changes)
}

/// Each processor has answered so many calls.
pub(crate) fn are_answered(session: &Session, calls: usize) -> bool {
    session
        .processors
        .iter()
        .all(|answers| answers.as_slice().len() == calls)
}
