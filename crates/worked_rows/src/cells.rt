use std::alloc::{AllocError, Global};

/// What a cell of a table spells. The picture of a control character (U+2400 and the 31 behind it) stands for that character, and
/// `~N~TEXT~` for so many times that text.
pub fn spelled(alloc: Global, cell: &str) -> Result<String, AllocError> {
    let mut out = String::new(alloc);
    let parts: Vec<&str> = cell.split('~').collect(alloc)?;
    for group in parts.chunks(3) {
        match group {
            [plain, count, again] => {
                push(&mut out, plain)?;
                push_times(&mut out, count, again)?;
            }
            others => push_all(&mut out, others)?,
        }
    }
    Ok(out)
}

fn push_times(out: &mut String, count: &str, text: &str) -> Result<(), AllocError> {
    for _ in 0..count.parse::<u32>().unwrap_or(0) {
        push(out, text)?;
    }
    Ok(())
}

fn push_all(out: &mut String, texts: &[&str]) -> Result<(), AllocError> {
    for text in texts {
        push(out, text)?;
    }
    Ok(())
}

fn push(out: &mut String, text: &str) -> Result<(), AllocError> {
    for character in text.chars() {
        out.push(pictured(character))?;
    }
    Ok(())
}

/// The control character of a picture. Any other character stands for itself.
fn pictured(character: char) -> char {
    match character {
        '\u{2400}'..='\u{241f}' => char::from_u32(u32::from(character) - 0x2400).unwrap_or(
            character,
        ),
        _ => character,
    }
}
