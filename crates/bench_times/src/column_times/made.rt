use csv::{ByteRecord, ReaderBuilder};
use csv_recording::{Samples, column, sheet};
use std::alloc::{AllocError, Global};
use std::io;

const NAMES: &[u8] = b"time,north,south,web\n";

/// A text of so many rows of four columns: a number that rises, and three that walk.
pub fn text_of(alloc: Global, rows: u32) -> Result<Vec<u8>, AllocError> {
    let mut text = NAMES.to_vec(alloc)?;
    let mut state = 1u64;
    for row in 0..rows {
        state = state
            .wrapping_mul(6364136223846793005)
            .wrapping_add(1442695040888963407);
        let north = (state >> 56) as i64 - 128;
        let south = (state >> 48) as i64 % 5000;
        let web = (state >> 32) as i64 % 100_000 - 50_000;
        let line = format!(in alloc; "{row},{north},{south},{web}\n")?;
        text.extend_from_slice(line.as_bytes())?;
    }
    Ok(text)
}

fn mixed(state: u64, value: u64) -> u64 {
    (state ^ value).wrapping_mul(0x9e37_79b9_7f4a_7c15)
}

/// The records of a text, counted, and the bytes of their last fields.
pub fn walk_digest(alloc: Global, text: &[u8]) -> io::Result<u64> {
    let mut reader = ReaderBuilder::new()
        .has_headers(false)
        .flexible(true)
        .from_reader(alloc, text);
    let mut row = ByteRecord::new(alloc);
    let mut digest = 1;
    for _ in 0..u64::MAX {
        match reader.read_byte_record(&mut row) {
            Ok(true) => digest = mixed(digest, row.get(3).map_or(0, |field| field.len() as u64)),
            _ => return Ok(digest),
        }
    }
    Ok(digest)
}

/// The samples of the last column.
pub fn column_digest(alloc: Global, text: &[u8]) -> io::Result<u64> {
    match column(alloc, text, b"web") {
        Ok(samples) => Ok(digest_of(&samples)),
        Err(_) => Ok(0),
    }
}

fn digest_of(samples: &Samples) -> u64 {
    let mut digest = 1;
    for &sample in samples.as_slice() {
        digest = mixed(digest, u64::from(sample.unsigned_abs()));
    }
    digest
}

/// The sheet of one recording, which has the samples of the last column.
pub fn sheet_digest(alloc: Global, text: &[u8]) -> io::Result<u64> {
    let Ok(samples) = column(alloc, text, b"web") else {
        return Ok(0);
    };
    let names = [String::from_str(alloc, "web")?];
    let mut text = Vec::new(alloc);
    sheet(alloc, &names, &[samples], &mut text)?;
    let mut digest = 1;
    for &byte in text.as_slice() {
        digest = mixed(digest, u64::from(byte));
    }
    Ok(digest)
}
