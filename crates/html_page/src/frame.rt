//! What stands before and after the body of a page.

use std::io;
use std::io::Write;

/// The parts of a page that the program brings. None has a word from outside.
#[derive(Clone, Copy)]
pub struct Frame<'a> {
    /// The title until the script gives another one.
    pub title: &'a str,
    pub style: &'a str,
    /// The parts of the script, one after the other.
    pub script: [&'a str; 2],
    /// The SHA-256 of the style, and of the whole script, in base64.
    pub style_hash: &'a str,
    pub script_hash: &'a str,
}

const BEGIN: &str = r##"<!DOCTYPE html>
<html lang="en">
<head>
<meta charset="utf-8">
"##;

const VIEWPORT: &str = r##"<meta name="viewport" content="width=device-width, initial-scale=1">
<meta name="referrer" content="no-referrer">
"##;

/// Writes the head of a page, and where its body begins.
pub fn write_head<W: Write>(output: &mut W, frame: &Frame<'_>) -> io::Result<()> {
    output.write_all(BEGIN.as_bytes())?;
    write_policy(output, frame)?;
    output.write_all(VIEWPORT.as_bytes())?;
    write!(output, "<title>{}</title>\n", frame.title)?;
    write!(output, "<style>{}</style>\n", frame.style)?;
    write!(output, "</head>\n<body>\n")
}

/// Writes the policy: nothing is loaded or sent, and nothing runs but the script of the page.
fn write_policy<W: Write>(output: &mut W, frame: &Frame<'_>) -> io::Result<()> {
    write!(
        output,
        "<meta http-equiv=\"Content-Security-Policy\" content=\"default-src 'none'; script-src 'sha256-{}'; \
        style-src 'sha256-{}'; base-uri 'none'; form-action 'none'\">\n",
        frame.script_hash, frame.style_hash
    )
}

/// Writes the script of a page, and its end.
pub fn write_end<W: Write>(output: &mut W, frame: &Frame<'_>) -> io::Result<()> {
    let [first, second] = frame.script;
    write!(
        output,
        "<script>{first}{second}</script>\n</body>\n</html>\n"
    )
}
