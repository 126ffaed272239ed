mod audits;
mod leases;
mod storms;

use std::alloc::{AllocError, Global};

fn words(alloc: Global, texts: &[&str]) -> Result<Vec<String>, AllocError> {
    let mut all = Vec::new(alloc);
    for text in texts {
        all.push(String::from_str(alloc, *text)?)?;
    }
    Ok(all)
}
