// Copies and fills of ranges.
ghost use Rattle.std.specs.Prelude.{◌≡◌, ◌<◌, ◌≤◌, ◌+◌, ℕ, true, false, length, take, drop, ◌++◌, vec_len, vec_capacity, slice_index, nat_le, nat_lt, ◌&&◌};
ghost use Rattle.disk_mem.specs.FileState.{is_within, is_written, overwritten};

use crate::span::Span;

// Puts the bytes at their place.
pub(crate) fn overwrite(bytes: &mut Vec<u8>, at: usize, new: &[u8])
    requires place { at ≤ vec_len bytes.old }
    requires room { at + length new.now ≤ vec_capacity bytes.old }
    ensures items { bytes.new.items ≡ overwritten at new.now bytes.old.items }
    ensures capacity { vec_capacity bytes.old ≤ vec_capacity bytes.new }
{
    let inside = new.len().min(bytes.len() - at);
    copy_to(bytes, at, &new[..inside]);
    let grown = bytes.extend_from_slice(&new[inside..]);
    prove!(grown.is_ok());
}

// Copies all of `from` to a place within `to`.
fn copy_to(to: &mut [u8], at: usize, from: &[u8])
    requires { at + length from.now ≤ length to.old }
    ensures { to.new ≡ overwritten at from.now to.old }
{
    to[at..at + from.len()].copy_from_slice(from);
}

// Copies the part of a range that both have.
fn copy_span(to: &mut [u8], from: &[u8], span: Span)
    requires { length to.old ≡ length from.now }
    ensures within { (k : ℕ) → k < length from.now → is_within k span ≡ true → slice_index to.new k ≡ slice_index from.now k }
    ensures outside { (k : ℕ) → is_within k span ≡ false → slice_index to.new k ≡ slice_index to.old k }
{
    let end = span.end.min(from.len());
    if span.start < end {
        copy_to(to, span.start, &from[span.start..end]);
    }
}

// Makes `to` equal to `from`, where they differ in the ranges alone.
fn copy_spans(to: &mut [u8], from: &[u8], spans: &[Span])
    requires len { length to.old ≡ length from.now }
    requires agree { (k : ℕ) → k < length from.now → is_written k spans.now ≡ false → slice_index to.old k ≡ slice_index from.now k }
    ensures { to.new ≡ from.now }
{
    for span in spans {
        copy_span(to, from, *span);
    }
}

// Makes `to` equal to `from`, where they differ in the ranges and from the least end on.
pub(crate) fn settle(to: &mut Vec<u8>, from: &[u8], spans: &[Span], least: usize)
    requires least { (least ≤ vec_len to.old) × (least ≤ length from.now) }
    requires room { length from.now ≤ vec_capacity to.old }
    requires agree { (k : ℕ) → k < least → is_written k spans.now ≡ false → slice_index to.old.items k ≡ slice_index from.now k }
    ensures items { to.new.items ≡ from.now }
    ensures capacity { vec_capacity to.old ≤ vec_capacity to.new }
{
    to.truncate(least);
    copy_spans(to, &from[..least], spans);
    let grown = to.extend_from_slice(&from[least..]);
    prove!(grown.is_ok());
}

// Fills the part of a range that there is.
fn fill_span(bytes: &mut [u8], span: Span, byte: u8)
    ensures within { (k : ℕ) → k < length bytes.old → is_within k span ≡ true → slice_index bytes.new k ≡ byte }
    ensures outside { (k : ℕ) → is_within k span ≡ false → slice_index bytes.new k ≡ slice_index bytes.old k }
{
    let end = span.end.min(bytes.len());
    if span.start < end {
        bytes[span.start..end].fill(byte);
    }
}

// Fills the ranges.
pub(crate) fn fill_spans(bytes: &mut [u8], spans: &[Span], byte: u8)
    ensures within { (k : ℕ) → k < length bytes.old → is_written k spans.now ≡ true → slice_index bytes.new k ≡ byte }
    ensures outside { (k : ℕ) → is_written k spans.now ≡ false → slice_index bytes.new k ≡ slice_index bytes.old k }
{
    for span in spans {
        fill_span(bytes, *span, byte);
    }
}
