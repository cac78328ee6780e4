//! The first part of the script of the page: its rows, and the elements that show them.

/// It reads the data of the page. What comes from outside becomes text of an element by `textContent` or `append` alone, so
/// that none of it is read as HTML.
pub const MODEL: &str = r##""use strict";
(() => {
const data = JSON.parse(document.getElementById("data").textContent);
const REGISTERS = 11;
const NAMES = [];
for (let register = 0; register < REGISTERS; register++) NAMES.push("r" + register);
for (let offset = 512; offset > 0; offset -= 8) NAMES.push("fp-" + offset);
const LANES = 8;
const OVERSCAN = 6;
const SVG = "http://www.w3.org/2000/svg";

/* ---- The model: rows, and what is known at each ---- */

/** The parts of an instruction's text: registers, bytes of the stack, and the slot to which a jump leads. */
const PARTS = /(r10 - (\d+))|\b[rw](\d+)\b|\bgotol? (\d+)/g;
function partsOf(code) {
    const parts = [];
    let end = 0;
    for (const found of code.matchAll(PARTS)) {
        const [text, memory, offset, register, target] = found;
        if (found.index > end) parts.push({ text: code.slice(end, found.index) });
        if (memory && code[found.index - 1] === "(") parts.push({ text, name: "fp-" + 8 * Math.ceil(offset / 8) });
        else if (memory) parts.push({ text: "r10", name: "r10" }, { text: " - " + offset });
        else if (register) parts.push({ text, name: "r" + register, isSet: found.index === 0 && code[text.length] === " " });
        else parts.push({ text: text.slice(0, -target.length) }, { text: target, target: Number(target) });
        end = found.index + text.length;
    }
    if (end < code.length) parts.push({ text: code.slice(end) });
    return parts;
}

/** The rows, with one for each gap between slots that are listed, and for each line of a source. What is known is kept as changes: here each row gets all. */
function rowsOf(listed) {
    const rows = [];
    let known = new Array(NAMES.length).fill(null);
    let next = 0;
    for (const row of listed) {
        if (row.slot > next) rows.push({ slot: next, last: row.slot - 1, isGap: true });
        if (row.known?.length) {
            known = known.slice();
            for (const [index, fact] of row.known) known[index] = fact;
        }
        row.facts = row.known ? known : null;
        row.parts = row.code ? partsOf(row.code) : [];
        row.jump = row.parts.find(part => part.target !== undefined)?.target;
        if (row.source) rows.push({ slot: row.slot, source: row.source, isSource: true });
        row.names = new Set(row.parts.map(part => part.name).concat((row.reads ?? []).map(index => NAMES[index])));
        rows.push(row);
        next = (row.last ?? row.slot) + 1;
    }
    if (next < data.slots) rows.push({ slot: next, last: data.slots - 1, isGap: true });
    return rows;
}

const rows = rowsOf(data.rows);
const indexOfSlot = new Map();
rows.forEach((row, index) => {
    for (let slot = row.slot; slot <= (row.last ?? row.slot); slot++) indexOfSlot.set(slot, index);
});
const refusals = rows.flatMap((row, index) => row.refused ? [index] : []);

/** The jumps between rows, each in a lane of the margin: those that lead over each other in lanes of their own. */
function jumpsOf() {
    const jumps = [];
    rows.forEach((row, from) => {
        const to = row.jump === undefined ? undefined : indexOfSlot.get(row.jump);
        if (to !== undefined && !rows[to].isGap) {
            jumps.push({ from, to, low: Math.min(from, to), high: Math.max(from, to), isAlways: row.code.startsWith("goto") });
        }
    });
    const lanes = Array.from({ length: LANES }, () => new Uint8Array(rows.length));
    for (const jump of jumps.slice().sort((a, b) => a.high - a.low - b.high + b.low)) {
        jump.lane = lanes.findIndex(lane => !lane.subarray(jump.low, jump.high + 1).includes(1));
        if (jump.lane < 0) jump.lane = LANES - 1;
        lanes[jump.lane].fill(1, jump.low, jump.high + 1);
    }
    return jumps;
}

const jumps = jumpsOf();
const usedLanes = jumps.reduce((most, jump) => Math.max(most, jump.lane + 1), 1);

/* ---- Elements ---- */

/** An element with a class, a text and children. */
function make(tag, names, text, ...children) {
    const element = document.createElement(tag);
    if (names) element.className = names;
    if (text !== undefined && text !== null) element.textContent = text;
    element.append(...children);
    return element;
}

function makeName(text, name, isSet) {
    const element = make("span", isSet ? "name set" : "name", text);
    element.dataset.name = name;
    if (name === marked) element.classList.add("same");
    return element;
}

/** A link to a slot, or its number alone where it isn't listed. */
function makeLink(slot, text = String(slot), names = "") {
    const index = indexOfSlot.get(slot);
    if (index === undefined || rows[index].isGap) return make("span", names, text);
    const link = make("a", names, text);
    link.href = "#slot-" + slot;
    return link;
}

function makeLinks(slots) {
    const list = make("span");
    slots.forEach((slot, at) => list.append(at ? ", " : "", makeLink(slot)));
    return list;
}

/** The class of a fact, by which it is coloured. */
function classOf(fact) {
    if (fact === null || fact === "unset" || fact === "no bytes set") return "unset";
    if (fact.startsWith("context")) return "context";
    if (fact.startsWith("fp")) return "stack";
    if (fact.startsWith("lookup")) return "lookup";
    if (/^map \d+ value/.test(fact)) return "value";
    if (fact.startsWith("map")) return "map";
    return fact.endsWith("set") ? "quiet" : "number";
}

function factOf(row, index) {
    return row.facts[index] ?? (index < REGISTERS ? "unset" : "no bytes set");
}

function makeChip(row, index) {
    const fact = factOf(row, index);
    const chip = make("span", "chip " + classOf(fact), null, makeName(NAMES[index], NAMES[index]));
    chip.append(fact === "unset" ? " unset" : " = " + fact);
    chip.title = chip.textContent;
    return chip;
}

/** What two paths to a slot say of a name, where it isn't the same. */
function makeDiffers([index, first, firstFrom, other, otherFrom, more]) {
    const chip = make("span", "chip differs", null, makeName(NAMES[index], NAMES[index]));
    chip.append(": " + first + " from ", makeLink(firstFrom, undefined, "from"));
    chip.append(", " + other + " from ", makeLink(otherFrom, undefined, "from"), more ? ", " + more + " more" : "");
    chip.title = "The paths that join here differ: " + chip.textContent;
    return chip;
}

function makeFrames([cost, reserve]) {
    const chip = make("span", "chip quiet", "frames " + cost + " of " + reserve);
    chip.title = "This instruction may take " + cost + " frames; from here on the run may take " + reserve;
    return chip;
}

/** The chips of a row: what its instruction reads, or all that is known. */
function chipsOf(row) {
    const chips = [];
    if (row.refused) chips.push(make("span", "chip wrong", "refused " + row.refused.number + " " + row.refused.name));
    if (row.unreached) chips.push(make("span", "chip quiet", "not reached"));
    const isShown = index => showsAll ? row.facts[index] !== null : row.reads.includes(index);
    if (row.facts) {
        NAMES.forEach((_, index) => {
            if (isShown(index)) chips.push(makeChip(row, index));
            const differs = (row.differs ?? []).find(differing => differing[0] === index);
            if (differs && (showsAll || row.reads.includes(index))) chips.push(makeDiffers(differs));
        });
    }
    if (row.from) chips.push(make("span", "chip quiet join", "from ", makeLinks(row.from.slice(0, 4)), row.from.length > 4 ? ", .." : ""));
    if (row.frames && (row.frames[0] || showsAll)) chips.push(makeFrames(row.frames));
    return chips;
}

const FIELDS = [[0, 2], [2, 4], [4, 8], [8, 16]];
function makeBytes(bytes) {
    const element = make("span", "bytes");
    for (const [begin, end] of FIELDS) element.append(make("i", "", bytes.slice(begin, end)));
    return element;
}

function makeCode(row) {
    const code = make("span", "code");
    for (const part of row.parts) {
        if (part.name) code.append(makeName(part.text, part.name, part.isSet));
        else if (part.target !== undefined) code.append(makeLink(part.target, part.text));
        else code.append(part.text);
    }
    code.title = row.code ?? "";
    return code;
}

function makeLine(row) {
    const line = make("div", "line", null, make("span"));
    if (row.isSource) {
        line.append(make("span", "words", "; " + row.source));
    } else if (row.isGap) {
        const are = row.slot === row.last ? "slot " + row.slot + " isn't" : "slots " + row.slot + " to " + row.last + " aren't";
        line.append(make("span", "note", are + " listed: after a refused slot, those that break a rule are"));
    } else if (row.last !== undefined) {
        line.append(make("span", "note", "slots " + row.slot + " to " + row.last + ": further copies of the loop"));
    } else {
        line.append(make("span", "slot", row.slot), make("span", "origin", row.origin ?? ""), makeBytes(row.bytes), makeCode(row));
        line.append(make("span", "known", null, ...(row.code ? chipsOf(row) : [])));
    }
    return line;
}

function addTerm(list, term, ...children) {
    list.append(make("dt", "", term), make("dd", "", null, ...children));
}

/** What a refusal says: the line of its source, what is wrong, how to fix it, and what is known there. */
function makeRefusal(refused) {
    const list = make("dl");
    if (refused.source) addTerm(list, "In the source", refused.source);
    if (refused.wrong) addTerm(list, "What is wrong", refused.wrong);
    if (refused.fix) addTerm(list, "How to fix it", refused.fix);
    if (refused.known) addTerm(list, "What is known", refused.known);
    return list;
}

function makeGrid(row, title, first, end) {
    const grid = make("div", "grid" + (first ? " wide" : ""));
    for (let index = first; index < end; index++) {
        if (row.facts[index] === null) continue;
        grid.append(makeName(NAMES[index], NAMES[index]), make("span", "chip " + classOf(row.facts[index]), row.facts[index]));
    }
    if (!grid.children.length) grid.append("nothing is known");
    return make("div", "", null, make("h2", "", title), grid);
}

function fieldsOf(row) {
    const byte = at => parseInt(row.bytes.slice(2 * at, 2 * at + 2), 16);
    const offset = (byte(2) | byte(3) << 8) << 16 >> 16;
    const immediate = byte(4) | byte(5) << 8 | byte(6) << 16 | byte(7) << 24;
    const registers = ", dst " + (byte(1) & 15) + ", src " + (byte(1) >> 4);
    return "opcode 0x" + row.bytes.slice(0, 2) + registers + ", offset " + offset + ", imm " + immediate;
}

/** All that is known at a slot. */
function makePanel(row) {
    const panel = make("div", "panel");
    if (row.refused) {
        panel.append(make("p", "wrong-text", "Refused " + row.refused.number + " " + row.refused.name), makeRefusal(row.refused));
    }
    if (row.facts) {
        const grids = [makeGrid(row, "Registers", 0, REGISTERS), makeGrid(row, "Stack", REGISTERS, NAMES.length)];
        panel.append(make("div", "cards", null, ...grids));
    }
    const list = make("dl");
    const differing = make("span", "differing", null, ...(row.differs ?? []).map(makeDiffers));
    if (row.differs?.length) addTerm(list, "Paths differ", differing);
    if (row.from) addTerm(list, "Paths join from", makeLinks(row.from));
    if (row.unreached) addTerm(list, "Not reached", "no path leads here, so the slot isn't checked");
    if (row.frames) addTerm(list, "Frames", "this instruction may take " + row.frames[0] + ", the rest from here on " + row.frames[1]);
    if (row.origin !== undefined) addTerm(list, "Original", "slot " + row.origin + " before the lowering");
    addTerm(list, "Fields", row.code ? fieldsOf(row) : "the second half of a wide instruction");
    panel.append(list);
    return panel;
}

"##;
