use std::alloc::AllocError;

/// Writes lines that are parted by ` / `.
pub fn push_lines(text: &mut String, lines: &str) -> Result<(), AllocError> {
    for line in lines.split(" / ") {
        text.push_str(line)?;
        text.push_str("\n")?;
    }
    Ok(())
}

// Writes a line that gives a name a value.
fn push_pair(text: &mut String, name: &str, value: &str) -> Result<(), AllocError> {
    text.push_str(name)?;
    text.push_str(" ")?;
    text.push_str(value)?;
    text.push_str("\n")
}

// Writes a parameter of a block by its word: `name=value`, or a value alone, which is the block's type where it is
// first, and else its name.
fn push_word(text: &mut String, at: usize, word: &str) -> Result<(), AllocError> {
    match word.split_once('=') {
        Some((name, value)) => push_pair(text, name, value),
        None if at == 0 => push_pair(text, "BlockType", word),
        None => push_pair(text, "Name", word),
    }
}

// Writes the parameters of a block by their words, each in a line.
pub(crate) fn push_words(text: &mut String, words: &str) -> Result<(), AllocError> {
    for (at, word) in words.split(' ').enumerate() {
        push_word(text, at, word)?;
    }
    Ok(())
}

// Writes an end of a line, as `a 1`: the block, and its port if there is one.
pub(crate) fn push_end(text: &mut String, side: &str, end: &str) -> Result<(), AllocError> {
    text.push_str(side)?;
    match end.split_once(' ') {
        Some((block, port)) => {
            push_pair(text, "Block", block)?;
            text.push_str(side)?;
            push_pair(text, "Port", port)
        }
        None => push_pair(text, "Block", end),
    }
}
