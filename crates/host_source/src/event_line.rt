//! Where the table of an event begins in a host file.

/// What a byte of a line of TOML belongs to.
#[derive(Clone, Copy, PartialEq, Eq)]
enum State {
    Code,
    /// A string in double quotes, and there the character after a backslash.
    Basic,
    Escaped,
    /// A string in single quotes.
    Literal,
    Comment,
}

impl State {
    /// The state after a byte.
    fn after(self, byte: u8) -> State {
        match (self, byte) {
            (State::Code, b'"') => State::Basic,
            (State::Code, b'\'') => State::Literal,
            (State::Code, b'#') => State::Comment,
            (State::Basic, b'\\') => State::Escaped,
            (State::Escaped, _) => State::Basic,
            (State::Basic, b'"') | (State::Literal, b'\'') => State::Code,
            _ => self,
        }
    }
}

/// The line, counted from 1, at which the table of the event of this number begins: a table `[[event]]`, or one of an array
/// `event = [..]`. None where that isn't sure, as of a text with strings of several lines.
pub fn event_line(text: &str, number: usize) -> Option<usize> {
    if text.contains("\"\"\"") || text.contains("'''") {
        return None;
    }
    match headed_line(text, number) {
        Some(line) => Some(line),
        None => array_line(text, number),
    }
}

/// The line of a table `[[event]]`.
fn headed_line(text: &str, number: usize) -> Option<usize> {
    let mut count: usize = 0;
    for (above, line) in text.lines().enumerate() {
        if !line.trim_start().starts_with("[[event]]") {
            continue;
        }
        if count == number {
            return above.checked_add(1);
        }
        count = count.saturating_add(1);
    }
    None
}

/// The line at which a table of the array `event` begins.
fn array_line(text: &str, number: usize) -> Option<usize> {
    let mut left = number;
    let mut depth: usize = 0;
    let mut is_inside = false;
    for (above, line) in text.lines().enumerate() {
        is_inside = is_inside || opens_array(line);
        if !is_inside {
            continue;
        }
        let tables = tables_in(line, &mut depth);
        if left < tables {
            return above.checked_add(1);
        }
        left = left.saturating_sub(tables);
    }
    None
}

/// Whether the array of the events begins in a line.
fn opens_array(line: &str) -> bool {
    match line.trim_start().strip_prefix("event") {
        Some(rest) => rest.trim_start().starts_with('='),
        None => false,
    }
}

/// How many tables begin in a line that are in no other table, where so many are open before it.
fn tables_in(line: &str, depth: &mut usize) -> usize {
    let mut tables: usize = 0;
    let mut state = State::Code;
    for byte in line.as_bytes() {
        state = state.after(*byte);
        match (state, *byte) {
            (State::Code, b'{') => {
                if *depth == 0 {
                    tables = tables.saturating_add(1);
                }
                *depth = depth.saturating_add(1);
            }
            (State::Code, b'}') => *depth = depth.saturating_sub(1),
            _ => {}
        }
    }
    tables
}
