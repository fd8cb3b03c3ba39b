use std::alloc::{AllocError, Global};

/// The byte that a letter behind a backslash stands for: `n`, `r` and `t` as in Rust, `f` the byte
/// 255, which is in no UTF-8; every other one stands for itself.
fn meant(letter: u8) -> u8 {
    match letter {
        b'n' => b'\n',
        b'r' => b'\r',
        b't' => b'\t',
        b'f' => 255,
        other => other,
    }
}

/// The bytes that a text with backslashes stands for.
pub fn unescaped(alloc: Global, text: &str) -> Result<Vec<u8>, AllocError> {
    let mut bytes = Vec::new(alloc);
    let mut behind_backslash = false;
    for byte in text.as_bytes() {
        if behind_backslash {
            bytes.push(meant(*byte))?;
            behind_backslash = false;
        } else if *byte == b'\\' {
            behind_backslash = true;
        } else {
            bytes.push(*byte)?;
        }
    }
    Ok(bytes)
}

/// ASCII lines on one line, each ended by `|`.
pub fn on_one_line(alloc: Global, lines: &[u8]) -> Result<String, AllocError> {
    let mut text = String::new(alloc);
    for byte in lines {
        if *byte == b'\n' {
            text.push('|')?;
        } else if *byte < 128 {
            text.push(char::from(*byte))?;
        }
    }
    Ok(text)
}
