ghost use Rattle.std.specs.Prelude.{◌≡◌, ◌≤◌, IfOk, IfSome, map, option_map, string_bytes};
ghost use Rattle.command_words.specs.Line.{command_of, table_line, bare_line, count_line, watch_line, demo_line, column_line, window_line, workers_at, number_at, id_at, instant_at, demo_with, column_with, window_with};
ghost use Rattle.command_words.specs.Commands.{AreWorkers, IsWithinRanges, ReadsInRanges, IsInstant, command_in, meaning_of};

use crate::command::MAX_PERIOD_US;
use crate::id::id_in;
use crate::instant::instant_in;
use crate::number::number_in;
use crate::parse::read_by;
use crate::{Command, options};
use calibration::{MAX_DEMO_SAMPLES, MAX_SEED, MAX_WORKERS};
use std::alloc::{AllocError, Global};

/// The command that the words name, or `None` where they are no command.
pub fn read_words<'a>(alloc: Global, words: &'a [String]) -> Result<Option<Command<'a>>, AllocError>
    ensures line { IfOk result (λ read. meaning_of read ≡
        command_of (map string_bytes words.entry.now)) }
    ensures ranges { ReadsInRanges result }
{
    let [first, ..] = words else {
        return Ok(None);
    };
    if first.as_str() == "table" {
        return read_table(alloc, words);
    }
    if first.as_str() == "init" {
        return read_bare(alloc, "init", Command::Init, words);
    }
    if first.as_str() == "count" {
        return read_count(alloc, words);
    }
    if first.as_str() == "report" {
        return read_bare(alloc, "report", Command::Report, words);
    }
    if first.as_str() == "audit" {
        return read_bare(alloc, "audit", Command::Audit, words);
    }
    if first.as_str() == "demo" {
        return read_demo(alloc, words);
    }
    if first.as_str() == "repeat" {
        return read_bare(alloc, "repeat", Command::Repeat, words);
    }
    if first.as_str() == "column" {
        return read_column(alloc, words);
    }
    if first.as_str() == "sheet" {
        return read_bare(alloc, "sheet", Command::Sheet, words);
    }
    if first.as_str() == "window" {
        return read_window(alloc, words);
    }
    if first.as_str() == "compact" {
        return read_bare(alloc, "compact", Command::Compact, words);
    }
    if first.as_str() == "watch" {
        return read_watch(alloc, words);
    }
    Ok(None)
}

fn read_table<'a>(alloc: Global, words: &'a [String]) -> Result<Option<Command<'a>>, AllocError>
    ensures line { IfOk result (λ read. meaning_of read ≡
        table_line (map string_bytes words.entry.now)) }
    ensures ranges { ReadsInRanges result }
{
    let Some(matches) = read_by(options::table_app(alloc)?, words)? else {
        return Ok(None);
    };
    match matches.get_str("file") {
        None => Ok(None),
        Some(file) => Ok(Some(Command::Table { file })),
    }
}

// A command without arguments, by its name.
fn read_bare<'a>(
    alloc: Global,
    name: &'a str,
    command: Command<'a>,
    words: &'a [String],
) -> Result<Option<Command<'a>>, AllocError>
    requires ranges { IsWithinRanges command }
    ensures line { IfOk result (λ read. meaning_of read ≡
        bare_line name.entry.now (command_in command.entry) (map string_bytes words.entry.now)) }
    ensures ranges { ReadsInRanges result }
{
    match read_by(clap::Command::new(alloc, name), words)? {
        None => Ok(None),
        Some(_) => Ok(Some(command)),
    }
}

fn read_count<'a>(alloc: Global, words: &'a [String]) -> Result<Option<Command<'a>>, AllocError>
    ensures line { IfOk result (λ read. meaning_of read ≡
        count_line (map string_bytes words.entry.now)) }
    ensures ranges { ReadsInRanges result }
{
    let Some(matches) = read_by(options::count_app(alloc)?, words)? else {
        return Ok(None);
    };
    match workers_of(matches.get_str("workers")) {
        None => Ok(None),
        Some(workers) => Ok(Some(Command::Count { workers })),
    }
}

fn read_watch<'a>(alloc: Global, words: &'a [String]) -> Result<Option<Command<'a>>, AllocError>
    ensures line { IfOk result (λ read. meaning_of read ≡
        watch_line (map string_bytes words.entry.now)) }
    ensures ranges { ReadsInRanges result }
{
    let Some(matches) = read_by(options::watch_app(alloc)?, words)? else {
        return Ok(None);
    };
    match workers_of(matches.get_str("workers")) {
        None => Ok(None),
        Some(workers) => Ok(Some(Command::Watch { workers })),
    }
}

// The workers' number, where it is given.
fn workers_of(text: Option<&str>) -> Option<Option<u8>>
    ensures value { result ≡ workers_at (option_map (λ s. s.now) text.entry) }
    ensures ranges { IfSome result AreWorkers }
{
    match text {
        None => Some(None),
        Some(text) => match number_in(1, MAX_WORKERS as u64, text) {
            None => None,
            Some(n) => Some(Some(n as u8)),
        },
    }
}

fn read_demo<'a>(alloc: Global, words: &'a [String]) -> Result<Option<Command<'a>>, AllocError>
    ensures line { IfOk result (λ read. meaning_of read ≡
        demo_line (map string_bytes words.entry.now)) }
    ensures ranges { ReadsInRanges result }
{
    let Some(matches) = read_by(options::demo_app(alloc)?, words)? else {
        return Ok(None);
    };
    Ok(demo_with(
        matches.get_str("seed"),
        matches.get_str("samples"),
        matches.get_str("workers"),
    ))
}

// `demo` with the texts of its options.
fn demo_with<'a>(
    seed: Option<&str>,
    samples: Option<&str>,
    workers: Option<&str>,
) -> Option<Command<'a>>
    ensures line { meaning_of result ≡ demo_with (option_map (λ s. s.now) seed.entry)
        (option_map (λ s. s.now) samples.entry) (option_map (λ s. s.now) workers.entry) }
    ensures ranges { IfSome result IsWithinRanges }
{
    let Some(seed) = number_of(seed, 0, MAX_SEED) else {
        return None;
    };
    let Some(samples) = number_of(samples, 1, MAX_DEMO_SAMPLES) else {
        return None;
    };
    let Some(workers) = number_of(workers, 1, MAX_WORKERS as u64) else {
        return None;
    };
    Some(Command::Demo {
        seed,
        samples,
        workers: workers as u8,
    })
}

// The number of an option, where it is given.
fn number_of(text: Option<&str>, low: u64, high: u64) -> Option<u64>
    ensures value { result ≡ number_at low high (option_map (λ s. s.now) text.entry) }
    ensures from { IfSome result (λ n. low ≤ n) }
    ensures to { IfSome result (λ n. n ≤ high) }
{
    match text {
        None => None,
        Some(text) => number_in(low, high, text),
    }
}

fn read_column<'a>(alloc: Global, words: &'a [String]) -> Result<Option<Command<'a>>, AllocError>
    ensures line { IfOk result (λ read. meaning_of read ≡
        column_line (map string_bytes words.entry.now)) }
    ensures ranges { ReadsInRanges result }
{
    let Some(matches) = read_by(options::column_app(alloc)?, words)? else {
        return Ok(None);
    };
    Ok(column_with(
        matches.get_str("file"),
        matches.get_str("name"),
        matches.get_str("id"),
        matches.get_str("period"),
    ))
}

// `column` with the texts of its arguments.
fn column_with<'a>(
    file: Option<&'a str>,
    name: Option<&'a str>,
    id: Option<&str>,
    period: Option<&str>,
) -> Option<Command<'a>>
    ensures line { meaning_of result ≡ column_with (option_map (λ s. s.now) file.entry)
        (option_map (λ s. s.now) name.entry)
        (option_map (λ s. s.now) id.entry) (option_map (λ s. s.now) period.entry) }
    ensures ranges { IfSome result IsWithinRanges }
{
    let id = id_of(id)?;
    let period_us = number_of(period, 0, MAX_PERIOD_US)?;
    Some(Command::Column {
        file: file?,
        name: name?,
        id,
        period_us: period_us as u32,
    })
}

// The id of an argument, where it is given.
fn id_of(text: Option<&str>) -> Option<[u8; 16]>
    ensures { result ≡ id_at (option_map (λ s. s.now) text.entry) }
{
    match text {
        None => None,
        Some(text) => id_in(text),
    }
}

fn read_window<'a>(alloc: Global, words: &'a [String]) -> Result<Option<Command<'a>>, AllocError>
    ensures line { IfOk result (λ read. meaning_of read ≡
        window_line (map string_bytes words.entry.now)) }
    ensures ranges { ReadsInRanges result }
{
    let Some(matches) = read_by(options::window_app(alloc)?, words)? else {
        return Ok(None);
    };
    Ok(window_with(
        matches.get_str("start"),
        matches.get_str("from"),
        matches.get_str("to"),
    ))
}

// `window` with the texts of its arguments.
fn window_with<'a>(start: Option<&str>, from: Option<&str>, to: Option<&str>) -> Option<Command<'a>>
    ensures line { meaning_of result ≡ window_with (option_map (λ s. s.now) start.entry)
        (option_map (λ s. s.now) from.entry) (option_map (λ s. s.now) to.entry) }
    ensures ranges { IfSome result IsWithinRanges }
{
    let start = instant_of(start)?;
    let from = instant_of(from)?;
    let to = instant_of(to)?;
    if from <= to {
        Some(Command::Window { start, from, to })
    } else {
        None
    }
}

// The instant of an argument, where it is given.
fn instant_of(text: Option<&str>) -> Option<i128>
    ensures value { result ≡ instant_at (option_map (λ s. s.now) text.entry) }
    ensures limits { IfSome result IsInstant }
{
    match text {
        None => None,
        Some(text) => instant_in(text),
    }
}
