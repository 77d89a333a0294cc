//! Scripts that are played.
use rmt_outside::{Bytes, Gate, Open, Page};
use rmt_play::{Status, run};
use std::alloc::{AllocError, Global};
use std::sync::Wait;
use std::thread::Threads;

/// The status of a script, of whose reads and writes these fail, counted from 0; and the page that it wrote.
pub(crate) fn played<R: Threads + Wait + Sync>(
    rt: &R,
    alloc: Global,
    script: &str,
    reads: &[u64],
    writes: &[u64],
) -> Result<(Status, Page), AllocError> {
    let words = words_of(alloc, &["play"])?;
    let mut source = source_of(alloc, script, reads)?;
    let mut page = Page::new(alloc, Vec::from_slice(alloc, writes)?);
    let (status, _) = run(rt, alloc, &words, &mut source, &mut page, &Open);
    Ok((status, page))
}

/// The status of a script that is played among two workers, with this gate; and the page that it wrote.
pub(crate) fn played_among_two<R: Threads + Wait + Sync, G: Gate + Sync>(
    rt: &R,
    alloc: Global,
    script: &str,
    gate: &G,
) -> Result<(Status, Page), AllocError> {
    let words = words_of(alloc, &["play", "--workers", "2"])?;
    let mut source = source_of(alloc, script, &[])?;
    let mut page = Page::new(alloc, Vec::new(alloc));
    let (status, _) = run(rt, alloc, &words, &mut source, &mut page, gate);
    Ok((status, page))
}

/// The status of a workload of two turns from the seed 1, of whose writes these fail, counted from 0; and the page that it wrote. The
/// first read of its source would fail.
pub(crate) fn summed<R: Threads + Wait + Sync>(
    rt: &R,
    alloc: Global,
    writes: &[u64],
) -> Result<(Status, Page), AllocError> {
    let words = words_of(alloc, &["storm", "1", "2"])?;
    let mut source = source_of(alloc, "KILL r1", &[0])?;
    let mut page = Page::new(alloc, Vec::from_slice(alloc, writes)?);
    let (status, _) = run(rt, alloc, &words, &mut source, &mut page, &Open);
    Ok((status, page))
}

/// The words of a call.
fn words_of(alloc: Global, words: &[&str]) -> Result<Vec<String>, AllocError> {
    let mut all = Vec::with_capacity(alloc, words.len())?;
    for word in words {
        all.push(String::from_str(alloc, word)?)?;
    }
    Ok(all)
}

/// A script as a source, of whose reads these fail.
fn source_of(alloc: Global, script: &str, reads: &[u64]) -> Result<Bytes, AllocError> {
    let bytes = Vec::from_slice(alloc, script.as_bytes())?;
    Ok(Bytes::new(bytes, Vec::from_slice(alloc, reads)?))
}
