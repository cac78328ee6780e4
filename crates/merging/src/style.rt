//! The style of the page.

/// The style, in light and dark colours.
pub const STYLE: &str = r##":root {
  --bg: #ffffff; --soft: #f5f6f8; --ink: #1c2127; --dim: #667080; --line: #e2e5ea; --accent: #0b5fd0; --focus: #dbe9ff;
  --frames_free: #6b7280; --pages_shared: #1b7837; --pages_sharing: #2166ac; --ksm_zero_pages: #762a83;
  --pages_volatile: #b2182b; --pages_unshared: #b35900;
  --mono: ui-monospace, SFMono-Regular, Menlo, Consolas, "DejaVu Sans Mono", "Liberation Mono", monospace;
  --sans: system-ui, -apple-system, "Segoe UI", Roboto, "Noto Sans", "DejaVu Sans", "Liberation Sans", sans-serif;
  color-scheme: light dark;
}
@media (prefers-color-scheme: dark) {
  :root {
    --bg: #101418; --soft: #171c22; --ink: #e3e8ee; --dim: #8e99a8; --line: #2a313a; --accent: #78b2ff; --focus: #1b2f4d;
    --frames_free: #a6b0bd; --pages_shared: #6fd58c; --pages_sharing: #78b2ff; --ksm_zero_pages: #c4a5ff;
    --pages_volatile: #ff9189; --pages_unshared: #ffb27d;
  }
}
* { box-sizing: border-box; }
html { background: var(--bg); color: var(--ink); font: 15px/1.5 var(--sans); }
body { max-width: 1236px; margin: 0 auto; padding: 26px 28px; }
h1 { margin: 0 0 6px; font-size: 21px; line-height: 1.3; }
h1 .program { font: 600 17px var(--mono); overflow-wrap: anywhere; }
h2 { min-height: 1.4em; margin: 0; font: 600 15px/1.4 var(--mono); overflow-wrap: anywhere; }
.facts { margin: 0; color: var(--dim); }
figure { margin: 18px 0 0; outline-offset: 4px; touch-action: pan-y; }
svg { display: block; width: 100%; }
svg text { fill: var(--ink); font-family: var(--sans); }
.ground { fill: var(--bg); }
.axis { stroke: var(--dim); }
.line { stroke-width: 2; }
.line.frames_free { stroke: var(--frames_free); }
.line.pages_shared { stroke: var(--pages_shared); }
.line.pages_sharing { stroke: var(--pages_sharing); }
.line.ksm_zero_pages { stroke: var(--ksm_zero_pages); }
.line.pages_volatile { stroke: var(--pages_volatile); }
.line.pages_unshared { stroke: var(--pages_unshared); }
.cursor { stroke: var(--accent); stroke-width: 1.5; }
#now:empty { display: none; }
#now { margin: 12px 0 0; padding: 12px 18px 14px; border: 1px solid var(--line); border-left: 4px solid var(--accent);
  border-radius: 8px; background: var(--soft); }
#now .reply { min-height: 1.5em; margin: 2px 0 8px; color: var(--dim); font: 13px/1.5 var(--mono); overflow-wrap: anywhere;
  white-space: pre-line; }
#now dl { display: grid; grid-template-columns: repeat(3, max-content minmax(0, 1fr)); gap: 3px 14px; margin: 0; }
dt { padding-left: 9px; border-left: 3px solid transparent; color: var(--dim); font: 13px/1.5 var(--mono); }
dt.frames_free { border-color: var(--frames_free); }
dt.pages_shared { border-color: var(--pages_shared); }
dt.pages_sharing { border-color: var(--pages_sharing); }
dt.ksm_zero_pages { border-color: var(--ksm_zero_pages); }
dt.pages_volatile { border-color: var(--pages_volatile); }
dt.pages_unshared { border-color: var(--pages_unshared); }
dd { margin: 0; font: 600 13px/1.5 var(--mono); font-variant-numeric: tabular-nums; }
.change { margin-left: 8px; color: var(--accent); font-weight: 400; }
.keys { margin: 8px 0 0; color: var(--dim); font-size: 13px; }
kbd { padding: 0 5px; border: 1px solid var(--line); border-bottom-width: 2px; border-radius: 4px; background: var(--bg);
  font: 12px var(--mono); }
.box { max-height: 480px; margin: 22px 0 0; overflow: auto; border: 1px solid var(--line); border-radius: 8px; }
table { width: 100%; border-collapse: collapse; font: 13px/1.4 var(--mono); }
th { position: sticky; z-index: 1; top: 0; padding: 6px 8px; background: var(--soft); color: var(--dim); font: 12px/1.3 var(--sans);
  text-align: right; vertical-align: bottom; }
td { padding: 3px 8px; border-top: 1px solid var(--line); text-align: right; vertical-align: top; font-variant-numeric: tabular-nums; }
th:nth-child(2), td:nth-child(2), th:nth-child(3), td:nth-child(3) { text-align: left; }
td:nth-child(2) { min-width: 300px; overflow-wrap: anywhere; }
td:nth-child(3) { min-width: 100px; color: var(--dim); overflow-wrap: anywhere; }
tr.current td { background: var(--focus); }
:focus-visible { outline: 2px solid var(--accent); }
@media (max-width: 720px) {
  body { padding: 18px 16px; }
  figure { overflow-x: auto; }
  svg { min-width: 620px; }
  #now dl { grid-template-columns: max-content minmax(0, 1fr); }
}
"##;
