// That memory ran out.
use std::alloc::{AllocError, Global};

/// What is said where memory ran out in a script whose cache holds so many pages, each of that many bytes.
pub fn shortage(alloc: Global, cache: u32, page_size: u32) -> Result<String, AllocError> {
    let mib = u64::from(cache) * u64::from(page_size) / 1_048_576;
    format!(in alloc;
        "memory ran out; the script's cache of {cache} pages of {page_size} bytes alone asks for {mib} MiB"
    )
}
