//! The style of the page.

/// The style, in light and dark colours.
pub const STYLE: &str = r##":root {
  --bg: #ffffff; --soft: #f5f6f8; --ink: #1c2127; --dim: #667080; --line: #e2e5ea; --accent: #0b5fd0; --focus: #dbe9ff;
  --good: #17722f; --good-bg: #e5f5e9; --bad: #b3261e; --bad-bg: #fdeceb; --warn: #855800; --warn-bg: #fff6dc;
  --number: #0a4fa8; --number-bg: #e9f2fe; --context: #14652f; --context-bg: #e6f5ea; --stack: #6034ad; --stack-bg: #f1ebfc;
  --value: #8f3a00; --value-bg: #fdefe3; --map: #0a6470; --map-bg: #e1f4f6; --quiet: #55606e; --quiet-bg: #eef0f3;
  --same: #ffe08a; --same-ink: #2b2100; --arrow: #8a94a3; --row: 30px; --bytes: 172px; --code: 300px; --margin: 76px;
  --mono: ui-monospace, SFMono-Regular, Menlo, Consolas, "DejaVu Sans Mono", "Liberation Mono", monospace;
  --sans: system-ui, -apple-system, "Segoe UI", Roboto, "Noto Sans", "DejaVu Sans", "Liberation Sans", sans-serif;
  color-scheme: light dark;
}
@media (prefers-color-scheme: dark) {
  :root {
    --bg: #101418; --soft: #171c22; --ink: #e3e8ee; --dim: #8e99a8; --line: #2a313a; --accent: #78b2ff; --focus: #1b2f4d;
    --good: #6fd58c; --good-bg: #12301c; --bad: #ff9189; --bad-bg: #3a1817; --warn: #f0c35a; --warn-bg: #332807;
    --number: #8cc1ff; --number-bg: #14273f; --context: #7fdc9b; --context-bg: #133020; --stack: #c4a5ff; --stack-bg: #271d40;
    --value: #ffb27d; --value-bg: #38210f; --map: #74d6e2; --map-bg: #0e2d32; --quiet: #a6b0bd; --quiet-bg: #232a32;
    --same: #6b5200; --same-ink: #fff2c4; --arrow: #66717f;
  }
}
* { box-sizing: border-box; }
html { background: var(--bg); color: var(--ink); font: 15px/1.5 var(--sans); scroll-padding-top: 90px; }
body { margin: 0; }
a { color: var(--accent); text-decoration: none; }
a:hover { text-decoration: underline; }
code, .mono { font-family: var(--mono); font-size: 13px; }
header { padding: 26px 28px 20px; max-width: 1180px; }
h1 { display: flex; flex-wrap: wrap; align-items: center; gap: 12px; margin: 0 0 6px; font-size: 21px; line-height: 1.3; }
h1 .program { font: 600 17px var(--mono); overflow-wrap: anywhere; }
.badge { padding: 3px 12px; border-radius: 99px; font-size: 14px; font-weight: 650; letter-spacing: .02em; }
.badge.good { color: var(--good); background: var(--good-bg); }
.badge.bad { color: var(--bad); background: var(--bad-bg); }
.facts { margin: 0; color: var(--dim); }
.facts b { color: var(--ink); font-weight: 600; }
.card { margin: 16px 0 0; padding: 14px 18px; border: 1px solid var(--line); border-left: 4px solid var(--bad); border-radius: 8px;
  background: var(--soft); }
.card.note { border-left-color: var(--warn); }
.card p { margin: 4px 0; overflow-wrap: anywhere; }
.card dl, .panel dl { display: grid; grid-template-columns: max-content 1fr; gap: 4px 16px; margin: 8px 0 0; }
dt { color: var(--dim); }
dd { margin: 0; overflow-wrap: anywhere; }
.further { display: flex; flex-wrap: wrap; gap: 8px; margin: 10px 0 0; padding: 0; list-style: none; }
.further a { display: inline-block; padding: 2px 10px; border-radius: 6px; color: var(--bad); background: var(--bad-bg); font-size: 13px; }
.bar { position: sticky; top: 0; z-index: 5; border-block: 1px solid var(--line); background: var(--soft); }
.tools { display: flex; align-items: center; gap: 8px; padding: 7px 28px; }
.tools .status { flex: 1; min-width: 0; overflow: hidden; color: var(--dim); font-size: 13px; text-overflow: ellipsis;
  white-space: nowrap; }
button, input { height: 28px; border: 1px solid var(--line); border-radius: 6px; background: var(--bg); color: var(--ink);
  font: 13px var(--sans); }
button { padding: 0 10px; cursor: pointer; white-space: nowrap; }
button:hover { border-color: var(--accent); }
button[aria-pressed="true"] { border-color: var(--accent); color: var(--accent); background: var(--focus); }
input { width: 190px; padding: 0 9px; }
kbd { padding: 0 5px; border: 1px solid var(--line); border-bottom-width: 2px; border-radius: 4px; background: var(--bg);
  font: 12px var(--mono); }
.heads, .line { display: grid; grid-template-columns: var(--margin) 46px var(--origin, 0) var(--bytes) var(--code) minmax(0, 1fr); }
.heads { padding: 3px 36px 3px 0; border-top: 1px solid var(--line); color: var(--dim); font-size: 12px; }
.heads .slot, .heads .origin { text-align: right; }
.heads .bytes, .heads .code { padding-left: 16px; }
.list { position: relative; margin-right: 16px; outline: none; }
.row { position: absolute; top: 0; right: 0; left: 0; cursor: pointer; }
.line { height: var(--row); align-items: center; font: 13px/1.2 var(--mono); }
.row:hover > .line { background: var(--soft); }
.row.current > .line { background: var(--focus); }
.row.refused > .line { background: var(--bad-bg); box-shadow: inset 4px 0 var(--bad); }
.row.current.refused > .line { box-shadow: inset 4px 0 var(--bad), inset 0 0 0 1px var(--bad); }
.row.unreached .code, .row.unreached .bytes { opacity: .5; }
.row.gap, .row.folded { cursor: default; }
.row.gap .note, .row.folded .note { grid-column: 2 / -1; padding-left: 14px; color: var(--dim); font: italic 13px var(--sans); }
.row.source { cursor: default; }
.row.source .words { grid-column: 2 / -1; padding-left: 14px; overflow: hidden; color: var(--good); text-overflow: ellipsis;
  white-space: nowrap; }
.slot { color: var(--dim); text-align: right; user-select: none; }
.row.refused .slot { color: var(--bad); font-weight: 700; }
.origin { overflow: hidden; color: var(--stack); text-align: right; }
.bytes { overflow: hidden; padding-left: 16px; color: var(--dim); white-space: nowrap; }
.bytes i { font-style: normal; margin-right: 5px; }
.code { overflow: hidden; padding-left: 16px; text-overflow: ellipsis; white-space: nowrap; }
.known { position: relative; display: flex; flex-wrap: wrap; gap: 8px 6px; height: 22px; padding-right: 36px; overflow: hidden; }
.chip { display: inline-block; max-width: 100%; height: 22px; overflow: hidden; padding: 0 7px; border-radius: 5px;
  font: 12px/22px var(--mono); text-overflow: ellipsis; vertical-align: bottom; white-space: nowrap; }
.number { color: var(--number); background: var(--number-bg); }
.context { color: var(--context); background: var(--context-bg); }
.stack { color: var(--stack); background: var(--stack-bg); }
.value, .lookup { color: var(--value); background: var(--value-bg); }
.lookup { box-shadow: inset 0 0 0 1px var(--value); }
.map { color: var(--map); background: var(--map-bg); }
.quiet { color: var(--quiet); background: var(--quiet-bg); }
.unset, .wrong { color: var(--bad); background: var(--bad-bg); box-shadow: inset 0 0 0 1px var(--bad); }
.differs { color: var(--warn); background: var(--warn-bg); }
.chip .from { color: inherit; text-decoration: underline dotted; }
.more { position: absolute; top: 0; right: 12px; height: 22px; color: var(--dim); font-size: 12px; line-height: 22px; }
.name { border-radius: 3px; font-weight: 600; }
.code .name { font-weight: 400; }
.same { color: var(--same-ink); background: var(--same); box-shadow: 0 0 0 2px var(--same); }
.same.set { text-decoration: underline 2px; text-underline-offset: 3px; }
.panel { margin: 0 12px 8px var(--margin); padding: 10px 16px 14px; border: 1px solid var(--line); border-radius: 8px;
  background: var(--soft); cursor: auto; }
.panel .cards { display: flex; flex-wrap: wrap; gap: 8px 40px; }
.panel h2 { margin: 4px 0; color: var(--dim); font-size: 12px; font-weight: 600; letter-spacing: .03em; }
.panel .grid { display: grid; grid-template-columns: max-content max-content; gap: 3px 14px; align-items: center; font: 13px var(--mono); }
.panel .grid .chip { justify-self: start; }
.panel .grid.wide { grid-template-columns: repeat(2, max-content max-content); }
.differing { display: flex; flex-wrap: wrap; gap: 5px 8px; }
.panel .wrong-text { margin: 0 0 8px; color: var(--bad); }
.arrows { position: absolute; z-index: 1; top: 0; left: 0; width: var(--margin); overflow: hidden; pointer-events: none; }
.arrows path { fill: none; stroke: var(--arrow); stroke-width: 1.3; pointer-events: none; }
.arrows .wide { stroke: transparent; stroke-width: 9; pointer-events: stroke; cursor: pointer; }
.arrows .head { fill: var(--arrow); stroke: none; }
.arrows .branch .drawn { stroke-dasharray: 4 2.5; }
.arrows .back .drawn { stroke: var(--bad); }
.arrows .back .head { fill: var(--bad); }
.arrows a:hover .drawn, .arrows .near .drawn { stroke: var(--accent); stroke-width: 2; }
.arrows a:hover .head, .arrows .near .head { fill: var(--accent); }
.overview { position: fixed; right: 0; bottom: 0; width: 16px; border-left: 1px solid var(--line); background: var(--soft);
  cursor: pointer; }
dialog { max-width: 560px; padding: 20px 26px; border: 1px solid var(--line); border-radius: 10px; background: var(--bg);
  color: var(--ink); }
dialog::backdrop { background: rgb(0 0 0 / .35); }
dialog dl { display: grid; grid-template-columns: max-content 1fr; gap: 6px 18px; margin: 12px 0 16px; }
:focus-visible { outline: 2px solid var(--accent); outline-offset: 1px; }
.list:focus-visible { outline: none; }
.list:focus-visible .row.current > .line { box-shadow: inset 0 0 0 2px var(--accent); }
@media (max-width: 1080px) { :root { --bytes: 0px; --code: 280px; --margin: 60px; } .bytes { visibility: hidden; } }
@media (max-width: 720px) {
  :root { --row: 58px; --margin: 44px; }
  header { padding: 18px 16px 14px; }
  .tools { flex-wrap: wrap; padding: 7px 16px; }
  .tools .status { flex-basis: 100%; order: 9; }
  .heads { display: none; }
  .line { grid-template-columns: var(--margin) 40px var(--origin, 0) minmax(0, 1fr); grid-template-rows: 28px 24px; }
  .bytes { display: none; }
  .line .known { grid-row: 2; grid-column: 2 / -1; padding-left: 12px; }
  .card dl, .panel dl { grid-template-columns: minmax(0, 1fr); }
  dd { margin-bottom: 6px; }
}
"##;
