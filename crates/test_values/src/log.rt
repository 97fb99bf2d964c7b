//! The lines that are written: each tells what was asked, and the answer.

use eio_value::NoMemory;

/// Appends a heading.
pub fn push_heading(log: &mut Vec<u8>, heading: &str) -> Result<(), NoMemory> {
    log.extend_from_slice(b"== ")?;
    log.extend_from_slice(heading.as_bytes())?;
    log.push(b'\n')?;
    Ok(())
}

/// Appends what is asked, before its answer.
pub fn push_asked(log: &mut Vec<u8>, asked: &str) -> Result<(), NoMemory> {
    log.extend_from_slice(asked.as_bytes())?;
    log.extend_from_slice(b": ")?;
    Ok(())
}

/// Appends a number in decimal.
pub fn push_number(log: &mut Vec<u8>, number: u64) -> Result<(), NoMemory> {
    let mut digits = itoa::Buffer::new();
    log.extend_from_slice(digits.format(number).as_bytes())?;
    Ok(())
}

/// Appends a line: what is asked, and its answer in bytes.
pub fn push_line(log: &mut Vec<u8>, asked: &str, answer: &[u8]) -> Result<(), NoMemory> {
    push_asked(log, asked)?;
    log.extend_from_slice(answer)?;
    log.push(b'\n')?;
    Ok(())
}

/// Appends a line: what is asked, and the number that is answered.
pub fn push_count(log: &mut Vec<u8>, asked: &str, answer: u64) -> Result<(), NoMemory> {
    push_asked(log, asked)?;
    push_number(log, answer)?;
    log.push(b'\n')?;
    Ok(())
}
