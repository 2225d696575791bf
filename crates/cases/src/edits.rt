// The parts of a case, and the text that it makes.
use std::alloc::{AllocError, Global};

// What stands before the first bar and what stands after it.
pub fn parts(text: &str) -> (&str, &str) {
    text.split_once('|').unwrap_or((text, ""))
}

// The text with \n, \r, \0 and \\ as the characters that they stand for. The flag is where the scan stands: one replacement
// after another would misread an escaped backslash before an n.
fn plain(heap: Global, text: &str) -> Result<String, AllocError> {
    let mut all = String::new(heap);
    let mut escaped = false;
    for c in text.chars() {
        if escaped {
            escaped = false;
            all.push(match c {
                'n' => '\n',
                'r' => '\r',
                '0' => '\0',
                other => other,
            })?;
        } else if c == '\\' {
            escaped = true;
        } else {
            all.push(c)?;
        }
    }
    Ok(all)
}

// The base with its first `old` replaced; where it has none, `new` is added.
pub fn edited(heap: Global, base: &str, old: &str, new: &str) -> Result<String, AllocError> {
    let after = plain(heap, new)?;
    if old == "*" {
        return Ok(after);
    }
    let before = plain(heap, old)?;
    let (front, back) = base.split_once(before.as_str()).unwrap_or((base, ""));
    let mut all = String::new(heap);
    all.push_str(front)?;
    all.push_str(after.as_str())?;
    all.push_str(back)?;
    Ok(all)
}
