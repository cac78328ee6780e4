//! The second part of the script of the page: the list, which makes rows as they are scrolled to, and what the reader does.

/// It goes on where the first part ends.
pub const ACTIONS: &str = r##"/* ---- The list: rows are made as they are scrolled to ---- */

const shown = new Map();
const opened = new Map();
let showsAll = data.all;
let marked = null;
let current = -1;
let rowHeight = 30;
let isDue = false;
/** The slots that links led away from, and whether the next one is led back to. */
const trail = [];
let isReturn = false;

const list = make("div", "list");
const arrows = document.createElementNS(SVG, "svg");
const overview = make("canvas", "overview");
const status = make("span", "status");
const search = make("input");
const allButton = make("button", "", "All that is known");
const bar = make("div", "bar");
const help = make("dialog");

function topOf(index) {
    let top = index * rowHeight;
    for (const [at, height] of opened) if (at < index) top += height;
    return top;
}

function indexAt(y) {
    let low = 0;
    let high = rows.length - 1;
    while (low < high) {
        const middle = (low + high + 1) >> 1;
        if (topOf(middle) <= y) low = middle;
        else high = middle - 1;
    }
    return low;
}

function makeRow(index) {
    const row = rows[index];
    const isFolded = row.last !== undefined && !row.isGap;
    const names = ["row", row.isGap && "gap", row.isSource && "source", isFolded && "folded", row.refused && "refused", row.unreached && "unreached"];
    const element = make("div", names.filter(name => name).join(" "), null, makeLine(row));
    element.dataset.index = index;
    element.id = "row-" + index;
    element.setAttribute("role", "row");
    element.setAttribute("aria-rowindex", index + 1);
    if (index === current) element.classList.add("current");
    if (row.bytes) element.setAttribute("aria-expanded", opened.has(index));
    if (opened.has(index)) element.append(makePanel(row));
    return element;
}

function addRow(index, last) {
    const element = makeRow(index);
    let next = index + 1;
    while (next <= last && !shown.has(next)) next++;
    list.insertBefore(element, shown.get(next) ?? null);
    shown.set(index, element);
    countHidden(element);
    if (opened.has(index)) opened.set(index, element.offsetHeight - rowHeight);
}

/** Says how many chips of a row have no room. */
function countHidden(element) {
    const known = element.querySelector(".known");
    if (!known) return;
    const hidden = [...known.children].filter(chip => chip.offsetTop >= 22).length;
    if (hidden) known.append(make("span", "more", "+" + hidden));
}

function draw() {
    isDue = false;
    const begin = window.scrollY + bar.offsetHeight - list.offsetTop;
    const first = Math.max(0, indexAt(begin) - OVERSCAN);
    const last = Math.min(rows.length - 1, indexAt(begin + window.innerHeight) + OVERSCAN);
    for (const [index, element] of shown) {
        if (index >= first && index <= last) continue;
        element.remove();
        shown.delete(index);
    }
    for (let index = first; index <= last; index++) if (!shown.has(index)) addRow(index, last);
    for (const [index, element] of shown) element.style.transform = "translateY(" + topOf(index) + "px)";
    list.style.height = topOf(rows.length) + "px";
    drawArrows(first, last);
    drawOverview();
}

function drawSoon() {
    if (!isDue) requestAnimationFrame(draw);
    isDue = true;
}

function redraw() {
    for (const element of shown.values()) element.remove();
    shown.clear();
    draw();
}

/* ---- Arrows and the overview ---- */

function makePath(names, lines) {
    const path = document.createElementNS(SVG, "path");
    path.setAttribute("class", names);
    path.setAttribute("d", lines);
    return path;
}

/** The arrow of a jump, between the edges of the drawn part. */
function makeArrow(jump, top, height, width) {
    const y = index => Math.min(height + 60, Math.max(-60, topOf(index) + rowHeight / 2 - top));
    const bend = jump.to > jump.from ? 5 : -5;
    const from = y(jump.from) + (bend > 0 ? 3 : -3);
    const to = y(jump.to) - (bend > 0 ? 3 : -3);
    const step = Math.min(8, (width - 22) / usedLanes);
    const x = width - 16 - step * (jump.lane + 1);
    const turn = `H${x + 5}Q${x},${from} ${x},${from + bend}V${to - bend}Q${x},${to} ${x + 5},${to}`;
    const lines = `M${width - 4},${from}${turn}H${width - 5}`;
    const head = `M${width - 9},${to - 4}L${width - 3},${to}L${width - 9},${to + 4}Z`;
    const link = document.createElementNS(SVG, "a");
    const isNear = jump.from === current || jump.to === current;
    const names = [jump.isAlways ? "always" : "branch", jump.to < jump.from && "back", isNear && "near"];
    link.setAttribute("class", names.filter(name => name).join(" "));
    link.setAttribute("href", "#slot-" + rows[jump.to].slot);
    link.setAttribute("tabindex", "-1");
    const title = document.createElementNS(SVG, "title");
    title.textContent = "slot " + rows[jump.from].slot + " jumps to " + rows[jump.from].jump;
    link.append(title, makePath("wide", lines), makePath("drawn", lines), makePath("head", head));
    return link;
}

function drawArrows(first, last) {
    const top = topOf(first);
    const height = topOf(last + 1) - top;
    const width = parseInt(getComputedStyle(document.documentElement).getPropertyValue("--margin"), 10);
    arrows.style.transform = "translateY(" + top + "px)";
    arrows.setAttribute("height", height);
    const inside = jumps.filter(jump => jump.high >= first && jump.low <= last);
    arrows.replaceChildren(...inside.map(jump => makeArrow(jump, top, height, width)));
}

/** A strip of the whole text: what is in the window, refusals, the current slot and the rows with the marked name. */
function drawOverview() {
    const style = getComputedStyle(document.documentElement);
    const top = bar.getBoundingClientRect().bottom;
    const height = Math.max(1, window.innerHeight - top);
    overview.style.top = top + "px";
    overview.style.height = height + "px";
    overview.width = 16;
    overview.height = height;
    const context = overview.getContext("2d");
    const scale = height / Math.max(topOf(rows.length), height);
    const strip = (index, colour, x, width) => {
        context.fillStyle = style.getPropertyValue(colour);
        context.fillRect(x, topOf(index) * scale, width, Math.max(2, rowHeight * scale));
    };
    context.fillStyle = style.getPropertyValue("--focus");
    context.fillRect(0, Math.max(0, window.scrollY + top - list.offsetTop) * scale, 16, height * scale);
    if (marked) rows.forEach((row, index) => row.names?.has(marked) && strip(index, "--warn", 4, 5));
    for (const index of refusals) strip(index, "--bad", 9, 7);
    if (current >= 0) strip(current, "--accent", 0, 4);
}

/* ---- What the reader does ---- */

function setStatus() {
    if (marked) {
        const count = rows.filter(row => row.names?.has(marked)).length;
        status.textContent = marked + " stands in " + count + (count === 1 ? " row" : " rows");
    } else {
        const slots = data.slots === 1 ? "1 slot" : data.slots + " slots";
        status.textContent = current < 0 ? slots : "slot " + rows[current].slot + " of " + slots;
    }
}

/** Shows a register or bytes of the stack wherever they stand. */
function mark(name) {
    if (name === marked) return;
    marked = name;
    for (const element of document.querySelectorAll("[data-name]")) element.classList.toggle("same", element.dataset.name === name);
    setStatus();
    drawOverview();
}

function select(index) {
    if (index < 0 || index >= rows.length) return;
    shown.get(current)?.classList.remove("current");
    current = index;
    shown.get(current)?.classList.add("current");
    list.setAttribute("aria-activedescendant", "row-" + index);
    setStatus();
    scrollToRow(index);
}

function scrollToRow(index) {
    const top = list.offsetTop + topOf(index);
    const begin = window.scrollY + bar.offsetHeight;
    const end = window.scrollY + window.innerHeight - 3 * rowHeight;
    if (top < begin || top > end) window.scrollTo(0, top - bar.offsetHeight - Math.floor(window.innerHeight / 3));
    draw();
}

function toggle(index) {
    if (!rows[index]?.bytes) return;
    if (opened.has(index)) opened.delete(index);
    else opened.set(index, 0);
    shown.get(index)?.remove();
    shown.delete(index);
    draw();
}

/** Goes to a slot, which becomes a part of the address, so that the browser leads back too. */
function go(slot) {
    if (location.hash === "#slot-" + slot) followHash();
    else location.hash = "slot-" + slot;
}

function followHash() {
    const index = indexOfSlot.get(Number(/^#slot-(\d+)$/.exec(location.hash)?.[1]));
    if (index === undefined) return;
    if (current >= 0 && !isReturn) trail.push(rows[current].slot);
    isReturn = false;
    select(index);
    if (rows[index].refused && !opened.has(index)) toggle(index);
}

function goBack() {
    if (!trail.length) return;
    isReturn = true;
    go(trail.pop());
}

/** The next refused row, or the one before. */
function goToRefusal(step) {
    if (!refusals.length) return;
    const ahead = step > 0 ? refusals.find(index => index > current) : refusals.findLast(index => index < current);
    go(rows[ahead ?? refusals.at(step > 0 ? 0 : -1)].slot);
}

/** Goes to the first row of a slot from a row on. */
function selectFrom(index, step) {
    while (rows[index]?.isGap || rows[index]?.isSource) index += step;
    select(index);
}

function move(step) {
    selectFrom(Math.min(Math.max(Math.max(-1, current) + step, 0), rows.length - 1), step);
}

/** Marks the next of the names of the current row. */
function markNext() {
    const names = [...(rows[current]?.names ?? [])].filter(name => name);
    mark(names.length ? names[(names.indexOf(marked) + 1) % names.length] : null);
}

function toggleAll() {
    showsAll = !showsAll;
    allButton.setAttribute("aria-pressed", showsAll);
    redraw();
}

/** Goes to the slot that is asked for, or to the next row that has the text. */
function find(text) {
    if (/^\d+$/.test(text) && indexOfSlot.has(Number(text))) return go(Number(text));
    const isKnown = (fact, index) => fact !== null && (NAMES[index] + " = " + fact).includes(text);
    const has = row => row.code?.includes(text) || row.source?.includes(text) || row.facts?.some(isKnown);
    const at = rows.findIndex((row, index) => index > current && has(row));
    const index = at < 0 ? rows.findIndex(has) : at;
    if (index < 0 || !text) status.textContent = "nothing is found";
    else go(rows[index].slot);
}

const KEYS = {
    j: () => move(1), ArrowDown: () => move(1), k: () => move(-1), ArrowUp: () => move(-1),
    Enter: () => toggle(current), " ": () => toggle(current),
    n: () => goToRefusal(1), p: () => goToRefusal(-1),
    f: () => indexOfSlot.has(rows[current]?.jump) && go(rows[current].jump), b: () => goBack(),
    m: () => markNext(), a: () => toggleAll(), "/": () => search.focus(), "?": () => help.showModal(),
    Home: () => selectFrom(0, 1), End: () => selectFrom(rows.length - 1, -1),
    Escape: () => { mark(null); for (const index of [...opened.keys()]) toggle(index); },
};

function onKey(event) {
    if (event.ctrlKey || event.metaKey || event.altKey || help.open) return;
    const target = event.target;
    if (target === search) {
        if (event.key === "Enter") find(search.value.trim());
        if (event.key === "Escape") list.focus();
        return;
    }
    const isPressed = event.key === "Enter" || event.key === " ";
    if (!Object.hasOwn(KEYS, event.key) || isPressed && /^(A|BUTTON)$/i.test(target.tagName)) return;
    event.preventDefault();
    KEYS[event.key]();
}

function onClick(event) {
    const row = event.target.closest(".row");
    if (!row || event.target.closest("a, .panel") || !window.getSelection().isCollapsed) return;
    const index = Number(row.dataset.index);
    current = index;
    toggle(index);
    redraw();
    setStatus();
}

/* ---- The page ---- */

/** What a map's shape V:E says. */
function shapeOf(words, map) {
    const [size, count] = words.split(":").map(Number);
    return "map " + map + ": " + count + (count === 1 ? " value of " : " values of ") + size + (size === 1 ? " byte" : " bytes");
}

function makeHeader() {
    const title = data.accepted ? make("span", "badge good", "Accepted") : make("span", "badge bad", "Refused");
    const header = make("header", "", null, make("h1", "", null, title, make("span", "program", data.program)));
    const facts = make("p", "facts", null, make("b", "verdict", data.verdict));
    if (data.maps.length) facts.append(" \u00b7 " + data.maps.map(shapeOf).join(", "));
    facts.append(" \u00b7 context of " + data.context + " bytes");
    if (data.lowered) facts.append(" \u00b7 lowered, with the slots of the original");
    header.append(facts);
    const refused = rows[refusals[0]]?.refused;
    if (refused) {
        const { slot, code, bytes } = rows[refusals[0]];
        const rule = make("b", "", "Refused " + refused.number + " " + refused.name);
        const line = make("p", "", null, rule, " at ", makeLink(slot, "slot " + slot), ": ", make("code", "", code ?? bytes));
        const card = make("section", "card", null, line, makeRefusal(refused));
        if (refusals.length > 1) card.append(makeFurther());
        header.append(card);
    } else if (!data.accepted) {
        header.append(make("section", "card", null, make("p", "", data.said)));
    }
    if (data.note) header.append(make("section", "card note", null, make("p", "", data.note)));
    return header;
}

function makeFurther() {
    const further = make("ul", "further");
    for (const index of refusals.slice(1)) {
        const { slot, refused } = rows[index];
        further.append(make("li", "", null, makeLink(slot, "also " + refused.number + " " + refused.name + " at " + slot)));
    }
    return further;
}

function makeButton(text, title, act) {
    const button = make("button", "", text);
    button.title = title;
    button.addEventListener("click", act);
    return button;
}

const HEADS = { slot: "slot", origin: data.lowered ? "original" : "", bytes: "bytes", code: "instruction", known: "known before it runs" };

function makeTools() {
    search.placeholder = "Slot or text  ( / )";
    search.setAttribute("aria-label", "Go to a slot, or find a text");
    allButton.title = "Show all that is known at each slot (a)";
    allButton.setAttribute("aria-pressed", showsAll);
    allButton.addEventListener("click", toggleAll);
    const tools = make("div", "tools", null, status);
    if (refusals.length) {
        tools.append(makeButton("\u2039 Refusal", "Previous refusal (p)", () => goToRefusal(-1)));
        tools.append(makeButton("Refusal \u203a", "Next refusal (n)", () => goToRefusal(1)));
    }
    tools.append(search, allButton, makeButton("Keys", "What the keys do (?)", () => help.showModal()));
    const heads = make("div", "heads", null, make("span"));
    for (const name of ["slot", "origin", "bytes", "code", "known"]) heads.append(make("span", name === "known" ? "" : name, HEADS[name]));
    bar.append(tools, heads);
}

const HELP = [
    ["j k \u2193 \u2191", "next and previous slot"],
    ["Enter", "all that is known there"],
    ["n p", "next and previous refusal"],
    ["f b", "follow the jump, and back"],
    ["m", "mark the next register or stack slot of the row, wherever it stands"],
    ["a", "all that is known, in each row"],
    ["/", "go to a slot, or find a text"],
    ["Home End", "first and last slot"],
    ["Esc", "close all, mark nothing"],
];
const ARROWS = "A dashed arrow is a conditional jump. Hover over a register or a stack slot to see it everywhere.";

function makeHelp() {
    const keys = make("dl");
    for (const [key, what] of HELP) {
        keys.append(make("dt", "", null, ...key.split(" ").map(name => make("kbd", "", name))), make("dd", "", what));
    }
    help.append(make("b", "", "Keys"), keys, make("p", "facts", ARROWS), makeButton("Close", "", () => help.close()));
}

function measure() {
    rowHeight = parseInt(getComputedStyle(document.documentElement).getPropertyValue("--row"), 10);
    redraw();
}

function begin() {
    document.title = (data.accepted ? "accepted: " : "refused: ") + data.program;
    if (data.lowered) document.documentElement.style.setProperty("--origin", "56px");
    makeTools();
    makeHelp();
    arrows.setAttribute("class", "arrows");
    list.tabIndex = 0;
    list.setAttribute("role", "grid");
    list.setAttribute("aria-label", "The slots of the program");
    list.setAttribute("aria-rowcount", rows.length);
    list.append(arrows);
    const page = document.getElementById("page");
    page.append(makeHeader());
    if (rows.length) page.append(bar, list, overview);
    page.append(help);
    document.addEventListener("keydown", onKey);
    list.addEventListener("click", onClick);
    document.addEventListener("mouseover", event => mark(event.target.closest("[data-name]")?.dataset.name ?? null));
    overview.addEventListener("click", event => window.scrollTo(0, list.offsetTop - bar.offsetHeight
        + (event.offsetY / overview.height) * Math.max(topOf(rows.length), overview.height) - window.innerHeight / 2));
    window.addEventListener("scroll", drawSoon, { passive: true });
    window.addEventListener("resize", measure);
    window.addEventListener("hashchange", followHash);
    matchMedia("(prefers-color-scheme: dark)").addEventListener("change", drawSoon);
    setStatus();
    if (rows.length) measure();
    followHash();
}

begin();
})();
"##;
