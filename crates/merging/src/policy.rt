//! What the page lets run.

/// The SHA-256 of the style in base64. `tools/pages` computes it again.
pub const STYLE_HASH: &str = "KNZel+rynGoTLsbQyWbY2S0cR+CU0vLFlxagVLpnFBU=";

/// The SHA-256 of the script.
pub const SCRIPT_HASH: &str = "HOM/Oew/3bXXd5IE8vWEC/zfGildI2iLFiTagiE7mDg=";
