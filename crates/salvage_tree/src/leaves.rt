//! The records of a leaf, each read by itself.

use crate::node::{FRONT, front_of, offset_of};
use std::alloc::{AllocError, Global};

/// The lengths of a record's key, without the number before it, and of its value.
#[derive(Clone, Copy, Debug, PartialEq, Eq)]
pub(crate) struct Length {
    pub(crate) key: usize,
    pub(crate) value: usize,
}

/// What records are taken by.
pub(crate) trait Takes {
    /// The lengths of the record that begins at a place, if one does.
    fn length(&self, bytes: &[u8], at: usize) -> Option<Length>;

    /// Takes the key and the value of a record.
    fn take(&mut self, key: &[u8], value: &[u8]) -> Result<(), AllocError>;
}

/// Where a record's parts lie in its node.
#[derive(Clone, Copy, Debug, PartialEq, Eq)]
pub(crate) struct Span {
    pub(crate) key: usize,
    pub(crate) value: usize,
    pub(crate) end: usize,
}

// The record that begins at a place, if one does and it ends before the offsets.
fn span_at<T: Takes>(taker: &T, node: &[u8], at: usize, limit: usize) -> Option<Span> {
    let length = taker.length(node, at)?;
    let key = at.saturating_add(2);
    let value = key.saturating_add(length.key);
    let end = value.saturating_add(length.value);
    if end > limit {
        return None;
    }
    Some(Span { key, value, end })
}

/// Where the records of a leaf lie, those that can be read: where the node's offsets say, or where that is none, behind the one before.
pub(crate) fn spans_of<T: Takes>(
    alloc: Global,
    taker: &T,
    node: &[u8],
) -> Result<Vec<Span>, AllocError> {
    let mut spans = Vec::new(alloc);
    let Some(front) = front_of(node) else {
        return Ok(spans);
    };
    if !front.is_leaf {
        return Ok(spans);
    }
    let limit = node
        .len()
        .saturating_sub(front.records.saturating_add(1).saturating_mul(2));
    let mut behind = FRONT;
    for record in 0..front.records {
        if let Some(span) = span_of(taker, node, record, behind, limit) {
            behind = span.end;
            spans.push(span)?;
        }
    }
    Ok(spans)
}

/// Hands over the records that lie there.
pub(crate) fn hand_over<T: Takes>(
    node: &[u8],
    spans: &[Span],
    taker: &mut T,
) -> Result<(), AllocError> {
    for span in spans {
        if let (Some(key), Some(value)) = (
            node.get(span.key..span.value),
            node.get(span.value..span.end),
        ) {
            taker.take(key, value)?;
        }
    }
    Ok(())
}

// The record of this number: by its offset, or behind the one before it.
fn span_of<T: Takes>(
    taker: &T,
    node: &[u8],
    record: usize,
    behind: usize,
    limit: usize,
) -> Option<Span> {
    if let Some(offset) = offset_of(node, record) {
        if offset >= behind {
            if let Some(span) = span_at(taker, node, offset, limit) {
                return Some(span);
            }
        }
    }
    span_at(taker, node, behind, limit)
}
