//! Texts that rows are made of.

use ft_base::{Line, Memory, QueryFault};
use reply_lines::{Refusal, Reply, print_reply};
use std::alloc::{AllocError, Global};

/// The texts, one after the other.
pub fn joined(alloc: Global, parts: &[&str]) -> Result<String, AllocError> {
    let mut text = String::new(alloc);
    for part in parts {
        text.push_str(part)?;
    }
    Ok(text)
}

/// The text between two others, so many times.
pub fn repeated(
    alloc: Global,
    before: &str,
    count: usize,
    piece: &str,
    suffix: &str,
) -> Result<String, AllocError> {
    let mut text = String::from_str(alloc, before)?;
    for _ in 0..count {
        text.push_str(piece)?;
    }
    text.push_str(suffix)?;
    Ok(text)
}

/// The reply that refuses a query for the fault.
pub fn query_refusal(alloc: Global, fault: QueryFault) -> Result<Line, Memory> {
    let reply = Reply::Refused(Refusal::Query(fault));
    let printed = print_reply(alloc, &reply);
    std::mem::drop(reply);
    printed
}
