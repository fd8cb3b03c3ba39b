use std::alloc::Global;

/// The value of a digit in base 16.
fn digit(c: u8) -> u8 {
    if c.is_ascii_digit() {
        c.wrapping_sub(b'0')
    } else {
        c.wrapping_sub(b'a').wrapping_add(10)
    }
}

/// The bytes that a text of a table stands for: `%` and two digits in base 16 stand for one.
pub fn bytes_of(alloc: Global, text: &str) -> anyhow::Result<Vec<u8>> {
    let mut bytes = Vec::new(alloc);
    let mut left = 0u8;
    let mut value = 0u8;
    for c in text.as_bytes() {
        if left > 0 {
            value = value.wrapping_mul(16).wrapping_add(digit(*c));
            left -= 1;
            if left == 0 {
                bytes.push(value)?;
            }
        } else if *c == b'%' {
            left = 2;
            value = 0;
        } else {
            bytes.push(*c)?;
        }
    }
    Ok(bytes)
}

/// Puts a text so many times behind another.
fn push_often(text: &mut String, part: &str, count: u32) -> anyhow::Result<()> {
    for _ in 0..count {
        text.push_str(part)?;
    }
    Ok(())
}

/// A text in which `{5 PART}` stands for a part that stands five times.
fn repeated(alloc: Global, text: &str) -> anyhow::Result<String> {
    let mut out = String::new(alloc);
    let mut rest = text;
    for _ in 0..text.len() {
        let Some((before, behind)) = rest.split_once('{') else {
            break;
        };
        let (run, more) = behind.split_once('}').unwrap_or((behind, ""));
        let (count, part) = run.split_once(' ').unwrap_or((run, ""));
        out.push_str(before)?;
        push_often(&mut out, part, count.parse()?)?;
        rest = more;
    }
    out.push_str(rest)?;
    Ok(out)
}

/// The bytes that a text of a table of domains or problems stands for, with its runs.
pub fn text_of(alloc: Global, text: &str) -> anyhow::Result<Vec<u8>> {
    let text = repeated(alloc, text)?;
    bytes_of(alloc, &text)
}
