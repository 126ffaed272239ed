//! Typical calls, with their answers.
mod bank_report_calls;
mod smallbank_calls;

use std::alloc::{AllocError, Global};

/// The words of a text, each behind a space.
fn words(alloc: Global, text: &str) -> Result<Vec<String>, AllocError> {
    let mut all = Vec::new(alloc);
    for word in text.split(' ') {
        all.push(String::from_str(alloc, word)?)?;
    }
    Ok(all)
}
