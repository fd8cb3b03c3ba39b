use ground_text::read_problem_text;
use std::alloc::Global;
use std::io;
use tp_spec::Problem;
use tp_world::Files;

/// The greatest length of a file in bytes.
const MOST: u64 = 4_096;

/// What a case ends with where memory is refused.
pub fn no_memory() -> io::Error {
    io::Error::from(io::ErrorKind::OutOfMemory)
}

/// What a case ends with that is not as it should be.
pub fn unfit() -> io::Error {
    io::Error::from(io::ErrorKind::InvalidData)
}

/// The bytes of a file.
fn bytes_of(alloc: Global, files: &mut impl Files, name: &str) -> Option<Vec<u8>> {
    files.load(alloc, name, MOST).ok()
}

/// The problem of a text, none where it is too long or has none.
fn problem_of(alloc: Global, text: &[u8]) -> Option<Problem> {
    if text.len() > 4_096 {
        return None;
    }
    read_problem_text(alloc, text).ok()
}

/// The problem of a file.
pub fn read(alloc: Global, files: &mut impl Files, name: &str) -> io::Result<Problem> {
    let Some(text) = bytes_of(alloc, files, name) else {
        return Err(io::Error::from(io::ErrorKind::NotFound));
    };
    match problem_of(alloc, &text) {
        Some(problem) => Ok(problem),
        None => Err(unfit()),
    }
}
