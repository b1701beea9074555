//! What was asked, as a text.
use cx_base::{Answer, FileCall, FileRequest, Path, SeenEntry, Stored};
use std::alloc::{AllocError, Global};

// Whether the file of a path has these bytes.
fn is_stored(stored: &[Stored], path: &Path, bytes: &[u8]) -> bool {
    stored.iter().any(|file| file.path.as_str() == path.as_str() && file.bytes.as_slice() == bytes)
}

fn answer_name(entry: &SeenEntry, stored: &[Stored]) -> &'static str {
    match &entry.answer {
        Answer::Present(bytes) => {
            if is_stored(stored, &entry.path, bytes.as_slice()) {
                "file"
            } else {
                "other bytes"
            }
        }
        Answer::Absent => "nothing",
        Answer::Folder(_) => "folder",
        Answer::Unreadable => "unreadable",
        Answer::TooLarge => "too large",
    }
}

fn call_name(call: &FileCall, most: u64) -> &'static str {
    match (call.request, call.failed) {
        (FileRequest::List, false) => "list ",
        (FileRequest::List, true) => "list! ",
        (FileRequest::Read { most: read }, failed) => {
            if read != most {
                "read otherwise "
            } else if failed {
                "read! "
            } else {
                "read "
            }
        }
    }
}

// Whether the call with a number is the last one in a row on its path.
fn ends_path(calls: &[FileCall], number: usize) -> bool {
    match (calls.get(number), calls.get(number.saturating_add(1))) {
        (Some(call), Some(next)) => call.path.as_str() != next.path.as_str(),
        _ => true,
    }
}

// What stands at a path, by the entry of a number.
fn push_answer(
    text: &mut String,
    path: &Path,
    entry: Option<&SeenEntry>,
    stored: &[Stored],
) -> Result<(), AllocError> {
    text.push_str(": ")?;
    match entry {
        Some(entry) if entry.path.as_str() == path.as_str() => {
            text.push_str(answer_name(entry, stored))
        }
        Some(entry) => text.push_str(entry.path.as_str()),
        None => text.push_str("not seen"),
    }
}

/// The calls in order, and behind the last one on each path what was seen there.
pub(crate) fn shown_asked(
    alloc: Global,
    seen: &[SeenEntry],
    calls: &[FileCall],
    stored: &[Stored],
    most: u64,
) -> Result<String, AllocError> {
    let mut text = String::new(alloc);
    let mut entries = seen.iter();
    for (number, call) in calls.iter().enumerate() {
        if number > 0 {
            text.push_str(", ")?;
        }
        text.push_str(call_name(call, most))?;
        text.push_str(call.path.as_str())?;
        if ends_path(calls, number) {
            push_answer(&mut text, &call.path, entries.next(), stored)?;
        }
    }
    if entries.next().is_some() {
        text.push_str(", more was seen")?;
    }
    Ok(text)
}
