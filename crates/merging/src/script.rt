//! The script of the page: a cursor over the picture, and what it stands on.

/// It reads the rows of the table. What it shows becomes text of an element by `textContent` or `append` alone, so that none
/// of it is read as HTML.
pub const SCRIPT: &str = r##""use strict";
(() => {
/** Where the lines stand in the picture. */
const [LEFT, RIGHT, TOP, BOTTOM] = [60, 940, 20, 320];
const SVG = "http://www.w3.org/2000/svg";
const find = id => document.getElementById(id);
const name = find("name");
const figure = find("figure");
const box = find("box");
const picture = figure.querySelector("svg");
const rows = [...find("values").tBodies[0].rows];
const counters = [...find("values").tHead.rows[0].cells].slice(3).map(cell => cell.textContent);
const last = rows.length - 1;
let current = -1;

function make(tag, names, text, ...children) {
    const element = document.createElement(tag);
    if (names) element.className = names;
    if (text) element.textContent = text;
    element.append(...children);
    return element;
}

const title = make("h2");
const reply = make("p", "reply");
const values = counters.map(() => make("dd"));
const cursor = document.createElementNS(SVG, "path");

const cellsOf = index => [...rows[index].cells].map(cell => cell.innerText);
const xOf = index => LEFT + (RIGHT - LEFT) * index / Math.max(1, last);

/** What a counter is, and how it changed from the point before. */
function setValue(element, now, before) {
    element.textContent = now;
    const change = now - before;
    if (change) element.append(make("span", "change", (change > 0 ? "+" : "\u2212") + Math.abs(change)));
}

/** Puts the cursor on a point. */
function select(index) {
    index = Math.min(Math.max(index, 0), last);
    if (index === current) return;
    rows[current]?.classList.remove("current");
    current = index;
    rows[current].classList.add("current");
    const [event, words, said, ...now] = cellsOf(index);
    const before = cellsOf(Math.max(0, index - 1)).slice(3);
    title.textContent = event ? "event " + event + ": " + words : words;
    reply.textContent = said;
    values.forEach((element, at) => setValue(element, now[at], before[at]));
    cursor.setAttribute("d", `M${xOf(index)} ${TOP}V${BOTTOM}`);
    figure.setAttribute("aria-valuenow", index);
    figure.setAttribute("aria-valuetext", [title.textContent, ...counters.map((counter, at) => counter + " " + now[at])].join(", "));
    box.scrollTop = rows[index].offsetTop - box.clientHeight / 4;
}

/** The point that is nearest to a place of the pointer. */
function selectAt(event) {
    const { left, width } = picture.getBoundingClientRect();
    const x = (event.clientX - left) / width * picture.viewBox.baseVal.width;
    select(Math.round((x - LEFT) / (RIGHT - LEFT) * last));
}

/** The next point at which a counter changes, or the one before. */
function goToChange(step) {
    let index = current + step;
    const said = at => [...rows[at].cells].slice(3).map(cell => cell.textContent).join();
    while (index > 0 && index < last && said(index) === said(index - 1)) index += step;
    select(index);
}

const tenth = Math.max(1, Math.round(last / 10));
const KEYS = { ArrowLeft: () => select(current - 1), ArrowRight: () => select(current + 1), n: () => goToChange(1), p: () => goToChange(-1) };
/** These scroll the page, where the picture has no focus. */
const FIGURE_KEYS = { ArrowDown: () => select(current - 1), ArrowUp: () => select(current + 1), PageDown: () => select(current - tenth),
    PageUp: () => select(current + tenth), Home: () => select(0), End: () => select(last) };

function onKey(event) {
    if (event.ctrlKey || event.metaKey || event.altKey || event.target === box) return;
    const keys = event.target === figure ? { ...KEYS, ...FIGURE_KEYS } : KEYS;
    if (!Object.hasOwn(keys, event.key)) return;
    event.preventDefault();
    keys[event.key]();
}

function begin() {
    // The path is written with the escapes of JSON.
    name.textContent = JSON.parse('"' + name.textContent + '"');
    document.title = "merging: " + name.textContent;
    const list = make("dl");
    counters.forEach((counter, at) => list.append(make("dt", counter, counter), values[at]));
    const keys = make("p", "keys", "", make("kbd", "", "\u2190"), " ", make("kbd", "", "\u2192"), " event before and after, ",
        make("kbd", "", "p"), " ", make("kbd", "", "n"), " change before and after; or point at the picture, or click a row.");
    title.setAttribute("aria-live", "polite");
    find("now").append(title, reply, list, keys);
    cursor.setAttribute("class", "cursor");
    picture.append(cursor);
    figure.tabIndex = 0;
    figure.setAttribute("role", "slider");
    figure.setAttribute("aria-label", "The event");
    figure.setAttribute("aria-valuemin", 0);
    figure.setAttribute("aria-valuemax", last);
    figure.addEventListener("pointermove", selectAt);
    figure.addEventListener("pointerdown", selectAt);
    box.addEventListener("click", event => { const row = event.target.closest("tbody tr"); if (row) select(rows.indexOf(row)); });
    document.addEventListener("keydown", onKey);
    select(0);
}

begin();
})();
"##;
