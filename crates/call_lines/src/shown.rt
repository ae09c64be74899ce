// Answers in short.
use crate::stop::Stop;
use mesh_doc::{DocError, fault_text};
use std::alloc::Global;

pub fn truth(alloc: Global, is_so: bool) -> Result<Option<String>, Stop> {
    Ok(Some(format!(in alloc; "{is_so}")?))
}

/// The text in quotes, or None.
pub fn quoted(alloc: Global, text: Option<&str>) -> Result<Option<String>, Stop> {
    match text {
        None => none(alloc),
        Some(text) => Ok(Some(format!(in alloc; "\"{text}\"")?)),
    }
}

pub fn none(alloc: Global) -> Result<Option<String>, Stop> {
    Ok(Some(format!(in alloc; "None")?))
}

/// `PLACE: REASON`.
pub fn refused(alloc: Global, error: DocError) -> Result<String, Stop> {
    match error {
        DocError::Memory => Err(Stop::Memory),
        DocError::Fault(fault) => Ok(format!(in alloc; "{}", fault_text(alloc, &fault)?)?),
    }
}
