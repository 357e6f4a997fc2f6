//! Single calls of the counting crates, blocks merged into boards, the bytes and texts of a full
//! segment, columns of CSV texts, and rounds, for the benchmark.
//!
//! With the word `time` it also tells the processor time of each, and with `call_times`,
//! `block_times`, `text_times`, `column_times` or `round_times` that part alone.
#![tactic(auto)]

mod block_times;
mod call_times;
mod column_times;
mod round_times;
mod text_times;

use std::{env, io};

fn main(rt: HostRuntime) -> io::Result<()> {
    if is_asked(&rt, "call_times")? {
        call_times::run(&rt)?;
    }
    if is_asked(&rt, "block_times")? {
        block_times::run(&rt)?;
    }
    if is_asked(&rt, "text_times")? {
        text_times::run(&rt)?;
    }
    if is_asked(&rt, "column_times")? {
        column_times::run(&rt)?;
    }
    if is_asked(&rt, "round_times")? {
        round_times::run(&rt, &rt)?;
    }
    Ok(())
}

// Whether the words ask for a part: those that they name, or all.
fn is_asked(rt: &HostRuntime, part: &str) -> io::Result<bool> {
    let mut is_named = false;
    for word in env::args(rt)?.skip(1) {
        if word.as_str() == part {
            return Ok(true);
        }
        if word.as_str() == "call_times"
            || word.as_str() == "block_times"
            || word.as_str() == "text_times"
            || word.as_str() == "column_times"
            || word.as_str() == "round_times"
        {
            is_named = true;
        }
    }
    Ok(!is_named)
}
