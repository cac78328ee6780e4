//! What the page lets run.

/// The SHA-256 of the style in base64. `tools/pages` computes it again.
pub const STYLE_HASH: &str = "7VvtodT7T0NwiZPCEoBz1gEkYj6S0Oy8/z+GPADeGcc=";

/// The SHA-256 of both parts of the script, one after the other.
pub const SCRIPT_HASH: &str = "OsKK1HVcYDdsoQvu9jhkdctpWnroBLy+yum/2fF10ec=";
