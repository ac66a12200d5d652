//! Tables of cases, a line each: a text, ` => `, and what is to come of it. A `¶` stands for a newline.
ghost use Rattle.std.specs.Prelude.{◌<◌, ◌^◌, length, IfOk};

use std::alloc::{AllocError, Global};
use std::test::Fail;

/// The two sides of a row.
pub fn sides(alloc: Global, row: &str) -> Result<(String, String), Fail> {
    let (text, want) = row.split_once(" => ").ok_or("a row without its end")?;
    Ok((unfold(alloc, text)?, unfold(alloc, want)?))
}

// A text with a newline for each `¶`.
fn unfold(alloc: Global, row: &str) -> Result<String, AllocError> {
    let mut text = String::new(alloc);
    for (place, line) in row.split('¶').enumerate() {
        if place > 0 {
            text.push('\n')?;
        }
        text.push_str(line)?;
    }
    Ok(text)
}

/// The text, which is short enough to be read.
pub fn short(text: &str) -> Result<&str, Fail>
    ensures { IfOk result (λ short. length short.now < 2 ^ 32) }
{
    if text.len() < 2_000_000 {
        Ok(text)
    } else {
        Err(Fail::from("a long text"))
    }
}
