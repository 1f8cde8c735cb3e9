//! The template of the page. `tools/page` writes this file from `web/report.html`.

/// The part of the page before the answer.
pub(crate) const BEFORE: &str = r#"<!doctype html>
<html lang="en"><head><meta charset="utf-8"><meta name="viewport" content="width=device-width, initial-scale=1"><meta name="color-scheme" content="light dark">
<meta http-equiv="Content-Security-Policy" content="default-src 'none'; style-src 'unsafe-inline'; script-src 'unsafe-inline'"><title>sizing</title><style>:root {
--page: #f4f6f8; --card: #fff; --ink: #1a2330; --muted: #566273; --line: #dde3ea; --edge: #7d8a99; --inset: #f6f8fa;
--link: #1a5cb0; --bad: #b3261e; --bad-back: #fdecea; --good: #1b6a3a; --good-back: #e5f5ea; --warn: #7a4f00; --warn-back: #fff3cf;
--on: #fff; --wait: rgb(255 255 255 / 48%); --wait-line: rgb(16 24 36 / 50%);--c0: #2f62a8; --c1: #a8500c; --c2: #24724a; --c3: #7a489c; --c4: #0e6d74; --c5: #80591a; --c6: #515c6b; --c7: #a23c78;}
@media screen and (prefers-color-scheme: dark) {:root {--page: #0f141a; --card: #171e27; --ink: #e4eaf1; --muted: #a3afbd; --line: #2d3743; --edge: #77869a; --inset: #11171e;
--link: #85b7ff; --bad: #ff9187; --bad-back: #3d1d1d; --good: #83d79e; --good-back: #153522; --warn: #f0c36a; --warn-back: #382a0b;
--on: #0d1218; --wait: rgb(13 18 24 / 38%); --wait-line: rgb(13 18 24 / 62%);--c0: #8ab6f2; --c1: #f0a868; --c2: #7fcf9f; --c3: #c9a1e8; --c4: #6fcbd2; --c5: #d9b573; --c6: #a9b5c4; --c7: #f09cc6;}}
* { box-sizing: border-box }html { scroll-padding-top: 12px }
body { margin: 0; background: var(--page); color: var(--ink); font: 15px/1.5 system-ui, "Segoe UI", Roboto, "Helvetica Neue", Arial, "DejaVu Sans", sans-serif }
main { max-width: 1160px; margin: 0 auto; padding: 20px }section, header { background: var(--card); border: 1px solid var(--line); border-radius: 10px; padding: 16px 20px; margin: 0 0 14px }
h1 { font-size: 20px; margin: 0; overflow-wrap: anywhere }h2 { font-size: 17px; margin: 0 0 6px }h3 { font-size: 15px; margin: 18px 0 4px }p { margin: 4px 0 }ul { margin: 6px 0; padding-left: 20px }
a { color: var(--link) }:focus-visible { outline: 3px solid var(--link); outline-offset: 2px; border-radius: 3px }
code, pre, .code { font: 13px/1.55 ui-monospace, SFMono-Regular, Menlo, Consolas, "DejaVu Sans Mono", monospace }.muted { color: var(--muted); font-size: 13px }
header { display: flex; gap: 20px; align-items: center; border-left: 8px solid var(--tone) }
header .answer { font-size: 25px; font-weight: 700; color: var(--tone); white-space: nowrap; display: flex; gap: 10px; align-items: center }header .answer svg { width: 30px; height: 30px; flex: none }
header nav { font-size: 13px; margin-top: 6px; display: flex; flex-wrap: wrap; gap: 4px 14px }.changes { list-style: none; padding: 0; display: flex; flex-wrap: wrap; gap: 8px; margin: 8px 0 }
.changes li { border: 1px solid var(--line); border-radius: 6px; padding: 3px 10px; background: var(--inset) }.changes b { font-weight: 650 }
pre { margin: 8px 0 0; background: var(--inset); border: 1px solid var(--line); border-radius: 6px; padding: 6px 0; overflow-x: auto }
pre > span { display: block; padding: 0 12px; white-space: pre-wrap; overflow-wrap: anywhere; min-height: 1.55em; padding-left: 74px; text-indent: -62px }
pre .no { display: inline-block; width: 40px; margin-right: 10px; color: var(--muted); text-align: right; text-indent: 0; user-select: none }
pre .sign { display: inline-block; width: 12px; text-indent: 0 }pre .add { background: var(--good-back) }pre .del { background: var(--bad-back) }pre .hit { background: var(--warn-back) }
pre > span:target { outline: 2px solid var(--link); outline-offset: -2px }.pool { display: grid; grid-template-columns: 210px 1fr; gap: 4px 20px; padding: 10px 0; border-top: 1px solid var(--line) }
.pool:first-of-type { border-top: 0 }.pool .name { font-weight: 650; overflow-wrap: anywhere }
.bars { display: grid; grid-template-columns: 84px minmax(160px, 380px) 1fr; gap: 5px 12px; align-items: center; align-content: start; font-size: 13px }
.bars .label { color: var(--muted); text-align: right }.bar { display: flex; height: 20px; border: 1px solid var(--edge); border-radius: 4px; overflow: hidden; background: var(--inset) }
.bar span { flex: 0 0 auto; overflow: hidden; white-space: nowrap; text-align: center; color: var(--on); font-size: 12px; line-height: 18px; font-weight: 600; border-right: 1px solid var(--card); min-width: 2px }
.bar.more { border-style: dashed; border-color: var(--good); border-left: 0; background: none; border-radius: 0 4px 4px 0 }
.pair { display: flex } .pair .bar:first-child:not(:last-child) { border-radius: 4px 0 0 4px }
.pair .more { color: var(--good); font-size: 12px; font-weight: 700; justify-content: center; line-height: 18px }
.legend { display: flex; flex-wrap: wrap; gap: 4px 16px; font-size: 13px; color: var(--muted); margin: 6px 0 8px }
.legend i { display: inline-block; width: 20px; height: 12px; border-radius: 3px; vertical-align: -1px; margin-right: 6px }
.legend svg { width: 22px; height: 14px; vertical-align: -2px; margin-right: 6px }.drawing { overflow-x: auto }.drawing svg, section > svg { display: block }
svg text { font: 12px system-ui, "Segoe UI", Roboto, "Helvetica Neue", Arial, "DejaVu Sans", sans-serif; fill: var(--ink) }
svg .small { font-size: 11px } svg .strong { font-weight: 650 } svg .dim { fill: var(--muted) } svg .red { fill: var(--bad) } svg .on { fill: var(--on); font-weight: 600 }
.column .band { fill: transparent }.column.lit .band { fill: var(--link); fill-opacity: .12 }.column.bad .band { fill: var(--bad-back) }details { margin-top: 10px }
summary { cursor: pointer; color: var(--link); width: fit-content }table { border-collapse: collapse; width: 100%; font-size: 13.5px; margin-top: 6px }
th { text-align: left; color: var(--muted); font-weight: 600; border-bottom: 1px solid var(--line); padding: 4px 8px }td { padding: 3px 8px; vertical-align: top; border-bottom: 1px solid var(--line) }
.number { text-align: right; white-space: nowrap; width: 1%; color: var(--muted); font-variant-numeric: tabular-nums }tr.bad td { background: var(--bad-back) } tr.bad .number { color: var(--ink) }
tr.lit td { background: var(--inset) }
.chip { display: inline-block; border: 1.5px solid; border-radius: 4px; padding: 0 5px; font-size: 12px; line-height: 17px; margin: 1px 2px 1px 0; white-space: nowrap }
.callout { border-left: 4px solid var(--bad); background: var(--bad-back); padding: 6px 12px; border-radius: 0 6px 6px 0; margin: 8px 0 }.fault { margin: 0 0 12px }
footer { color: var(--muted); font-size: 12.5px; padding: 0 4px 20px }@media screen and (max-width: 820px) {header { flex-direction: column; align-items: flex-start; gap: 8px }
.pool, .bars { grid-template-columns: 1fr } .bars .label { text-align: left }}@media print {:root { --page: #fff; --card: #fff; color-scheme: light }
* { print-color-adjust: exact; -webkit-print-color-adjust: exact }body { font-size: 10.5pt } main { padding: 0; max-width: none }
section, header { border: 0; border-top: 1px solid var(--line); border-radius: 0; padding: 10px 0 }header { border-left: 8px solid var(--tone); padding-left: 14px }
.pool, tr, .fault, .drawing, svg { break-inside: avoid } h2, h3 { break-after: avoid }
header nav { display: none } .bars { grid-template-columns: 70px minmax(120px, 260px) 1fr } .pool { grid-template-columns: 150px 1fr }.drawing svg { width: 100%; height: auto }}</style></head><body>
<main></main><noscript>This report needs JavaScript.</noscript><script id="answer" type="application/json">"#;

/// The part of the page after the answer.
pub(crate) const AFTER: &str = r#"</script>
<script>"use strict";const WIDTH = 1078;const LEFT = 150;const MOST_COLUMNS = 36, FIRST = 10, LAST = 22;
const MOST_LANES = 8, MOST_CELLS = 10, MOST_POOLS = 12, MOST_ROWS = 30, MOST_RING = 14, MOST_EDGES = 16;const HALF = 96;function make(name, space, attributes, children) {
const element = space ? document.createElementNS(space, name) : document.createElement(name);for (const [key, value] of Object.entries(attributes || {})) {
if (value !== null && value !== undefined && value !== false) element.setAttribute(key, value);}element.append(
...children.flat(Infinity).filter(each => each !== null && each !== undefined && each !== false && each !== ""));return element;}
const h = (name, attributes, ...children) => make(name, null, attributes, children);const s = (name, attributes, ...children) => make(name, "http://www.w3.org/2000/svg", attributes, children);
const text = (x, y, words, kind = "", anchor = "start") =>s("text", {x, y, class: kind || null, "text-anchor": anchor}, String(words));const rect = (x, y, width, height, style, more) =>
s("rect", {x, y, width: Math.max(width, 0), height, rx: 3, style, ...more});const line = (x1, y1, x2, y2, style) => s("line", {x1, y1, x2, y2, style: style || "stroke:var(--line)"});
const number = value => value.toLocaleString("en-US");const isUnbounded = pool => pool.queue === "unbounded";const capacity = pool => isUnbounded(pool) ? "unbounded" : number(pool.queue);
const hasMax = pool => !isUnbounded(pool) || pool.core_timeout;const mostThreads = pool => hasMax(pool) ? pool.max : pool.core;
const plural = (count, word) => `${number(count)} ${word}${count === 1 ? "" : "s"}`;const width = words => String(words).length * 6.6;function short(words, room) {
const most = Math.max(Math.floor(room / 7.2), 2);return words.length <= most ? words : `${words.slice(0, most - 1)}\u2026`;}function someOf(names, most) {
return names.length <= most + 1 ? names.join(", ") :
`${names.slice(0, most).join(", ")} and ${names.length - most} more`;}function coded(words) { return words.split("`").map((part, at) => at % 2 ? h("code", {}, part) : part); }
function drawing(height, label, ...parts) {const marks = {viewBox: "0 0 10 10", refX: 9, refY: 5, markerWidth: 7, markerHeight: 7, orient: "auto-start-reverse"};
const arrow = s("marker", {id: "arrow", ...marks}, s("path", {d: "M0 0L10 5L0 10z", style: "fill:context-stroke"}));const waits =
s("pattern", {id: "waits", width: 6, height: 6, patternTransform: "rotate(45)", patternUnits: "userSpaceOnUse"},s("rect", {width: 6, height: 6, style: "fill:var(--wait)"}),
s("rect", {width: 2, height: 6, style: "fill:var(--wait-line)"}));return h("div", {class: "drawing"},
s("svg", {viewBox: `0 0 ${WIDTH} ${height}`, width: WIDTH, height, role: "img", "aria-label": label},s("defs", {}, arrow, waits), parts));}function folded(title, open, ...contents) {
return h("details", {open: open ? "" : null}, h("summary", {}, title), contents);}function section(id, title, ...contents) {
return h("section", {id, "aria-labelledby": `${id}-title`}, h("h2", {id: `${id}-title`}, title), contents);}class Plan {constructor(answer) {const plan = answer.plan;Object.assign(
this, {pools: plan.pools, classes: plan.classes, clients: plan.clients, file: answer.file.split("/").pop()});this.lines = plan.text === null ? null : plan.text.replace(/\n$/, "").split(/\r?\n/);
this.poolOf = new Map(plan.classes.map(each => [each.name, each.pool]));this.colors = new Map();plan.classes.forEach((each, at) => this.colors.set(`class ${each.name}`, `var(--c${at % 8})`));
plan.clients.forEach((each, at) => this.colors.set(`client ${each.name}`, `var(--c${(at + 3) % 8})`));}color(kind, name) { return this.colors.get(`${kind} ${name}`) || "var(--c6)"; }
body(kind, name) { return (kind === "client" ? this.clients : this.classes).find(each => each.name === name).body; }link(at) {if (!at) return null;
return this.lines ? h("a", {href: `#L${at}`, title: `line ${at} of the plan`}, String(at)) : String(at);}excerpt(rows, ids) {return h("pre", {},rows.map(([at, words, mark]) =>
h("span", {class: mark, id: ids ? `L${at}` : null}, h("span", {class: "no"}, at ? String(at) : ""),h("span", {class: "sign"}, {add: "+", del: "\u2212"}[mark] || ""), words)));}quoted(at) {
return this.lines && at && at <= this.lines.length ? this.excerpt([[at, this.lines[at - 1], "hit"]]) : null;}diff(changes) {const byLine = new Map();
for (const change of changes) byLine.set(change.line, [...(byLine.get(change.line) || []), change]);const near = at => [...byLine.keys()].some(each => Math.abs(each - at) <= 3);const rows = [];
let added = [], last = 0;this.lines.forEach((words, index) => {const at = index + 1, isChanged = byLine.has(at);if (!isChanged) rows.push(...added.splice(0));if (!near(at)) return;
if (last && last !== at - 1) rows.push([0, "\u22ef", ""]);last = at;rows.push([at, words, isChanged ? "del" : ""]);if (isChanged) added.push([at, this.changed(words, byLine.get(at)), "add"]);});
return this.excerpt([...rows, ...added]);}changed(words, changes) {const fromRight = [...changes].sort((one, other) => other.column - one.column);return fromRight.reduce(
(made, {column, value}) => made.slice(0, column - 1) + made.slice(column - 1).replace(/^[+\w]+/, value), words);}}class Replay {constructor(plan) {this.plan = plan;
this.threads = new Map(plan.pools.map(each => [each.name, Array(each.prestart ? each.core : 0).fill(null)]));this.queues = new Map(plan.pools.map(each => [each.name, []]));this.jobs = new Map();
this.clients = new Map();}apply(event) {const threads = event.pool && [...this.threads.get(event.pool.name)];for (let turn = 0; turn < event.times; turn++) this.once(event, turn, threads);
if (!event.pool) return;this.threads.set(event.pool.name, threads);this.queues.set(event.pool.name, event.pool.queue);
if (threads.length !== event.pool.threads || threads.filter(job => job === null).length !== event.pool.idle) {console.error(`the threads of ${event.pool.name} differ from the answer`, event);}}
once({outcome, ...event}, turn, threads) {const job = event.job === null ? null : event.job + turn;if (outcome === "took") {threads[threads.indexOf(null)] = job;this.jobs.get(job).state = "runs";
return;}if (outcome === "retired") return void threads.splice(threads.lastIndexOf(null), 1);const actor = this.actor(event.actor, turn);if (outcome === "refused") return;if (outcome === "finished") {
threads[threads.indexOf(job)] = null;actor.state = "done";return;}if (outcome === "looped") return void Object.assign(actor, {at: 0, slots: new Map()});const action = actor.body[actor.at];
actor.at += 1;if (outcome === "got") return void actor.slots.delete(action.slot);if (outcome === "worked") return;const state = {started: "runs", queued: "queued", rejected: "done"}[outcome];
this.jobs.set(job, {name: action.class, body: this.plan.body("class", action.class), at: 0, slots: new Map(), state});if (state === "runs") threads.push(job);
if (action.slot !== null) actor.slots.set(action.slot, job);}actor({job, client, number: first}, turn) {if (job !== undefined) return this.jobs.get(job + turn);const at = first + turn;
if (!this.clients.has(at))
this.clients.set(at, {name: client, body: this.plan.body("client", client), at: 0, slots: new Map(), state: "runs"});return this.clients.get(at);}waits(actor) {
if (!actor || actor.state !== "runs" || actor.at >= actor.body.length) return false;const action = actor.body[actor.at], job = action.action === "get" ? actor.slots.get(action.slot) : undefined;
return job !== undefined && this.jobs.get(job).state !== "done";}snapshot(clients) {const running =
[...this.threads.values()].flatMap(threads => threads.slice(0, MOST_LANES)).filter(job => job !== null);return {threads: new Map(this.threads),queues: new Map(this.queues),
jobs: new Set(running.filter(job => this.waits(this.jobs.get(job)))),clients: new Set(clients.filter(at => this.waits(this.clients.get(at)))),};}}
const nameOf = ({actor}) => Object.values(actor).join(" ");function columnsOf({events, ending}) {const columns = [];let count = 0;for (const event of events) {
const from = count + 1, last = columns[columns.length - 1], [kind] = Object.keys(event.actor);count += event.times;const who = event.actor.client || event.actor.class || event.actor.pool;
const key = [kind, who, event.action, event.outcome, event.pool && event.pool.name].join();const isOther = last && kind !== "pool" && nameOf(event) !== nameOf(last.events[last.events.length - 1]);
if (last && last.key === key && isOther && event.outcome !== "refused") {last.events.push(event);Object.assign(last, {to: count, times: last.times + event.times});} else {
columns.push({key, events: [event], from, to: count, times: event.times});}}columns[columns.length - 1].ends = ending.jobs.length ? "stuck" : "refused";return columns;}
function clientsOf(columns, shown) {const clients = new Map();for (const column of columns)
for (const {actor, times} of column.events) {for (let turn = 0; "client" in actor && turn < times; turn++) {const at = actor.number + turn, before = clients.get(at);clients.set(
at, {name: actor.client, alone: before && before.alone || column.times === 1 && shown.includes(column)});}}return [...clients].sort(([one], [other]) => one - other);}class Story {
constructor(plan, answer) {this.columns = columnsOf(answer.witness);this.shown = this.columns.length <= MOST_COLUMNS ?
this.columns :
[...this.columns.slice(0, FIRST), null, ...this.columns.slice(-LAST)];this.clients = clientsOf(this.columns, this.shown);this.lanes = this.clients.length <= MOST_LANES ? this.clients :
this.clients.filter(([, each]) => each.alone).slice(0, MOST_LANES);this.end = new Replay(plan);const numbers = this.lanes.map(([at]) => at);for (const column of this.columns) {
for (const event of column.events) this.end.apply(event);if (this.shown.includes(column)) column.state = this.end.snapshot(numbers);}}nameOf(job) { return this.end.jobs.get(job).name; }}
const WORDS = {started: "starts",queued: "queues",refused: "refused",rejected: "rejected",worked: "works",finished: "done",got: "gets",looped: "again",took: "takes",retired: "thread ends"
};function stepWords(plan, column) {const event = column.events[0], {actor, outcome, job} = event;const action = event.action === null ?
null :
plan.body("client" in actor ? "client" : "class", actor.client || actor.class)[event.action];let who = "pool" in actor ? `a thread of ${actor.pool}` :
"client" in actor ? `client ${actor.number} (${actor.client})` :
`job ${actor.job} (${actor.class})`;if (column.times > 1) who = `${column.times} \u00d7 ${actor.client ? "client" : "job"} ${actor.client || actor.class}`;const pool = event.pool && event.pool.name;
const made = column.times > 1 || job === null ? "" : ` as job ${job}`;switch (outcome) {case "started":
return [who, `submits ${action.class}${made}`, `a new thread of ${pool} starts it`];case "queued":
return [who, `submits ${action.class}${made}`, `it is queued in ${pool}`];case "refused":
return [who, `submits ${action.class}`, `${pool} refuses it`];case "rejected":
return [who, `submits ${action.class}${made}`, `${pool} rejects it`];case "got":
return [who, column.times > 1 ? "gets its job" : `gets job ${job}`, "which is done"];case "worked":
return [who, "works", ""];case "finished":
return [who, "is done", `its thread of ${pool} is idle`];case "looped":
return [who, "begins again", ""];case "took":
return [who, `takes job ${job}`, "from the head of the queue"];default:
return [who, "ends", `${pool} has one thread less`];}}const ICONS = {good: "M6 15.5l6 6L24 9",bad: "M8 8l14 14M22 8L8 22",unknown: "M10.5 11a4.5 4.5 0 1 1 6 4.2c-1 .5-1.5 1.2-1.5 2.6M15 22v.5",};
function head(plan, answer, ids) {const tone = {SAFE: "good", "NOT SAFE": "bad", FAULTS: "bad"}[answer.answer] || "warn";const icon = s("svg", {viewBox: "0 0 30 30", "aria-hidden": "true"},
s("circle", {cx: 15, cy: 15, r: 14, style: `fill:var(--${tone}-back);stroke:var(--${tone});stroke-width:2`}),s("path", {d: ICONS[tone] || ICONS.unknown,
style: `fill:none;stroke:var(--${tone});stroke-width:3;stroke-linecap:round;stroke-linejoin:round`
}));const entries = [[plan.pools, "pool", "pools"], [plan.classes, "class", "classes"],[plan.clients, "kind of clients", "kinds of clients"]
];const counts =
entries.map(([them, one, many]) => `${number(them.length)} ${them.length === 1 ? one : many}`).join(", ");
return h("header", {style: `--tone:var(--${tone})`}, h("div", {class: "answer"}, icon, answer.answer),h("div", {}, h("h1", {}, answer.file.split("/").pop()), h("p", {}, verdict(answer)),
answer.faults.length ? null : h("p", {class: "muted"}, `The plan has ${counts}.`),h("nav", {"aria-label": "Sections"}, ids.map(([id, title]) => h("a", {href: `#${id}`}, title)))));}
function verdict(answer) {const {witness} = answer;if (answer.answer === "SAFE") {const to = answer.pools.some(pool => !pool.bound && !isUnbounded(pool)) ? "submit to another pool" : "submit";
return `In any order of events, no ${to} is ever refused, and no jobs wait for each other forever. This is proved for the plan.`;}if (answer.answer === "FAULTS")
return `The text has ${plural(answer.faults.length + answer.omitted, "fault")}, so the sizes were not checked.`;if (!witness)
return "The search found neither a certificate nor events that show the plan to be wrong. The sizes may be right.";const jobs = plural(witness.ending.jobs.length, "job");
const events = plural(witness.events.reduce((sum, each) => sum + each.times, 0), "event");if (witness.ending.kind === "refused")
return `Pool ${witness.ending.pool} refuses a submit after ${events}, which are possible from the plan's start.`;
const until = witness.ending.kind === "stuck now" ? "until another submit helps" : "forever";
return `${jobs} wait only for each other, ${until}, after ${events}, which are possible from the plan's start.`;}function sizes(plan, answer) {const {cause, pools} = answer.sizes;if (cause) {
const hint = {cycle: "No certificate accepts the plan with any sizes. Break the cycle of submits.","never got":
"No certificate accepts the plan with any sizes. Get the result of that submit, bound such jobs by permits, or give the pool may_reject = true if it may drop them.",
limit: "The search found no sizes within the limit. Fewer clients, or bodies with fewer open jobs, need less.",}[cause.kind];
return section("sizes", "Sizes to change", h("p", {}, h("b", {}, cause.text)), plan.quoted(cause.line),h("p", {class: "muted"}, hint));}
const changes = pools.flatMap(pool => pool.changes.map(change => ({...change, pool: pool.name})));const placed = changes.filter(change => change.line !== null);
return section("sizes", "Sizes to change",h("p", {}, "A certificate accepts the plan with ", changes.length === 1 ? "this change:" : "these changes:"),h("ul", {class: "changes"},
changes.map(({pool, key, now, value}) =>h("li", {}, h("b", {}, pool), ` ${key} ${number(now)} \u2192 `, h("b", {}, number(value))))),plan.lines && placed.length > 0 && plan.diff(placed));}
function bar(capacity, parts, more) {const used = parts.reduce((sum, each) => sum + each.count, 0), whole = Math.max(capacity, used, 1);
const pixels = (more ? 340 : 376) * whole / (whole + (more || 0));const spans = parts.filter(each => each.count).map(({count, color, label}) => {const room = pixels * count / whole - 8;
const words = [`${number(count)} ${label}`, number(count)].find(each => width(each) < room) || "";return h("span",
{style: `width:${(100 * count / whole).toFixed(3)}%;background:${color}`, title: `${number(count)} ${label}`},words);});
return h("div", {class: "pair"}, h("div", {class: "bar", style: `flex:${whole} 1 0`}, spans),more ? h("div", {class: "bar more", style: `flex:${more} 0 34px`}, `+${number(more)}`) : null);}
function boundRows(plan, pool) {const {blocked} = pool;const waits = blocked.most ?
`waits block at most ${plural(blocked.most, "thread")} that other jobs need; ${number(blocked.left)} left` :
"no wait can block a thread that other jobs need";return [pool.bound ? queueRow(plan, pool) : ["queue", h("div", {}), noBoundWords(pool)],
["core", bar(pool.core, [{count: blocked.most, color: "var(--c3)", label: "wait"}]), waits],];}function queueRow(plan, pool) {const {bound} = pool;const parts =
bound.clients.map(each => ({count: each.jobs, color: plan.color("client", each.name), label: each.name}));
parts.push(...bound.threads.map(each => ({count: each.jobs, color: "var(--c6)", label: `from ${each.name}`})));const isLifetime = bound.kind === "lifetime";if (isUnbounded(pool)) {
const most = isLifetime ? `at most ${plural(bound.total, "job")} in all` : `at most ${plural(bound.total, "job")} at once`;
return ["queue", bar(bound.total, parts), `unbounded: ${most}${listOf(parts)}`];}const hasThreads = isLifetime && !pool.core_timeout;
const room = hasThreads ? pool.queue + pool.max - (pool.prestart ? pool.core : 0) : pool.queue;const most = isLifetime ? `at most ${plural(bound.total, "job")} in all, and room for ${number(room)}` :
`at most ${number(bound.total)} of ${number(room)} places in use`;const never = pool.may_reject ? "never rejects: " : "";
return [hasThreads ? "queue, max" : "queue", bar(room, parts), never + most + listOf(parts)];}function noBoundWords(pool) {if (isUnbounded(pool)) return "unbounded: no bound is known";
return pool.rejects_after === null ? "may reject" : `may reject: after ${plural(pool.rejects_after, "event")}`;}function endRows(plan, answer, pool, state) {
const fit = answer.sizes && answer.sizes.pools.find(each => each.name === pool.name);const keys = hasMax(pool) ? ["core", "max"] : ["core"], most = mostThreads(pool);
const more = key => fit && !(key === "queue" && isUnbounded(pool)) ? Math.max(fit[key] - pool[key], 0) : 0;const enough = (...keys) => {
const changed = keys.filter(more).map(key => `${key} ${number(fit[key])}`);return changed.length ? h("b", {style: "color:var(--good)"}, ` Enough: ${changed.join(", ")}.`) : null;};if (!state) {
const drawn = most === "unbounded" ? [h("div", {}), "unbounded"] : [bar(most, [], more(keys.at(-1))), enough(...keys)];const threads = [keys.join(", "), ...drawn];
const places = isUnbounded(pool) ? [h("div", {}), "unbounded"] : [bar(pool.queue, [], more("queue")), enough("queue")];return [threads, ["queue", ...places]];}
const threads = state.threads.get(pool.name), queue = state.queues.get(pool.name);const idle = threads.filter(job => job === null).length;
const waiting = threads.filter(job => job !== null && state.waits(state.jobs.get(job))).length;const uses = [{count: threads.length - idle - waiting, color: "var(--c2)", label: "at work"},
{count: waiting, color: "var(--c3)", label: "wait"},{count: idle, color: "var(--c6)", label: "idle"},];
const limit = most === "unbounded" ? threads.length : most, ofMost = most === "unbounded" ? "" : ` of ${number(most)}`;const started = `${number(threads.length)}${ofMost} started${listOf(uses)}.`;
const queued = new Map();for (const job of queue) {const {name} = state.jobs.get(job), part = queued.get(name) || {count: 0, color: plan.color("class", name), label: name};
queued.set(name, {...part, count: part.count + 1});}const refuses = h("b", {style: "color:var(--bad)"}, " The next submit is refused.");const room = isUnbounded(pool) ? 0 : pool.queue;
const inUse = room ? `${number(queue.length)} of ${number(room)} places in use` :
`${plural(queue.length, "job")} ${isUnbounded(pool) ? "in the unbounded queue" : "handed to idle threads"}`;const places = `${inUse}${listOf([...queued.values()])}.`;return [
["threads", bar(limit, uses, more(keys.at(-1))), [started, enough(...keys)]],["queue", bar(room || queue.length, [...queued.values()], more("queue")),
[places, answer.witness.ending.pool === pool.name ? refuses : null, enough("queue")]],];}function listOf(parts) {
const named = parts.filter(each => each.count).map(each => `${number(each.count)} ${each.label}`);return named.length ? `: ${someOf(named, 4)}` : "";}function pools(plan, answer, state) {
const isSafe = answer.answer === "SAFE";const shown = answer.pools.map(pool => {const changes = answer.sizes && answer.sizes.pools.some(each => each.name === pool.name && each.changes.length);
const isInUse = state && (state.threads.get(pool.name).length || state.queues.get(pool.name).length);const rows = isSafe ? boundRows(plan, pool) : endRows(plan, answer, pool, state);
return {isUsed: isSafe ? !pool.bound || pool.bound.total > 0 : changes || isInUse, row: poolRow(pool, rows)};});
const few = shown.length <= MOST_POOLS, first = few ? shown : shown.filter(each => each.isUsed).slice(0, MOST_POOLS);const rest = shown.filter(each => !first.includes(each));const note = isSafe ?
"A whole bar is the capacity. The filled part is the most that can be in use at one time, by submitter." :
"The pools after the last event.";const unused = isSafe || rest.some(each => each.isUsed) ? "" : ", which no event has used";
return section("pools", "Pools", isSafe || state ? h("p", {class: "muted"}, note) : null, first.map(each => each.row),
rest.length ? folded(plural(rest.length, "other pool") + unused, false, rest.map(each => each.row)) : null);}function poolRow(pool, rows) {const rejects = pool.may_reject && !isUnbounded(pool);
const timeout = pool.core_timeout ? ", core threads may time out" : "";const flags = `${pool.prestart ? ", prestarted" : ""}${timeout}${rejects ? ", may reject" : ""}`;
const max = hasMax(pool) ? `, max ${number(pool.max)}` : "";const declared = `core ${number(pool.core)}${max}, queue ${capacity(pool)}${flags}`;
const waits = pool.waits_for.length ? h("div", {class: "muted"}, `waits for ${someOf(pool.waits_for, 5)}`) : null;
const bars = rows.map(([label, drawn, words]) => [h("div", {class: "label"}, label), drawn, h("div", {}, words)]);return h("div", {class: "pool"},
h("div", {}, h("div", {class: "name"}, pool.name), h("div", {class: "muted"}, declared), waits),h("div", {class: "bars"}, bars));}function timeline(plan, story) {
const {columns, shown, clients, lanes} = story;const wide = Math.min(104, (WIDTH - LEFT - 4) / shown.length), x = at => LEFT + at * wide, right = x(shown.length);const parts = [];
let y = wide >= 46 ? 46 : 30;parts.push(text(0, y + 10, "Clients", "strong"));y += 16;for (const [at, actor] of lanes) {
parts.push(text(LEFT - 10, y + 13, short(`${actor.name} ${at}`, LEFT - 10), "small", "end"));
parts.push(...lane(shown, x, wide, y, column => column.state.clients.has(at), plan.color("client", actor.name)));shown.forEach((column, index) => {if (column &&
column.events.some(event => "client" in event.actor && at >= event.actor.number && at < event.actor.number + event.times))
parts.push(sign(x(index) + wide / 2, y + 9, column.events[0].outcome));});y += 20;}if (lanes.length < clients.length) {
const rest = clients.filter(each => !lanes.includes(each)), kinds = [...new Set(rest.map(([, each]) => each.name))];parts.push(text(LEFT - 10, y + 12,
short(`${number(rest.length)} \u00d7 ${kinds.length === 1 ? kinds[0] : "client"}`, LEFT - 10), "small dim", "end"));shown.forEach((column, index) => {
if (column && column.times > 1 && "client" in column.events[0].actor)
parts.push(sign(x(index) + wide / 2, y + 9, column.events[0].outcome));});y += 20;}for (const pool of plan.pools) {
const used = columns.some(column => column.events.some(event => event.pool && event.pool.name === pool.name));if (!used) continue;
parts.push(line(0, y + 6, right, y + 6), text(0, y + 23, `Pool ${pool.name}`, "strong"));y += 30;const most = Math.max(...shown.map(column => column ? column.state.threads.get(pool.name).length : 0));
for (let thread = 0; thread < Math.min(most, MOST_LANES); thread++) {parts.push(text(LEFT - 10, y + 13, `thread ${thread + 1}`, "small dim", "end"),
...threadLane(plan, story, x, wide, y, pool.name, thread));y += 21;}if (most > MOST_LANES) {parts.push(text(LEFT - 10, y + 11, `and ${number(most - MOST_LANES)} more`, "small dim", "end"));y += 18;}
const [drawn, below] = queueLane(plan, story, x, wide, y + 3, pool, right);parts.push(...drawn);y = below;}const bands = shown.map(
(column, at) => column ? band(column, x(at), wide, y) : gap(x(at), wide, y, columns.length - FIRST - LAST));
const label = `Timeline of ${plural(columns.length, "step")}; the table below has the same events`;return [legend(plan, story), drawing(y + 6, label, bands, parts)];}
function band(column, left, wide, height) {const event = column.events[0], bad = column.ends, kind = bad ? "red strong" : "";const middle = left + wide / 2;
const digits = column.from < column.to && wide >= 58 ? `${column.from}\u2013${column.to}` : `${column.to}`;
const times = column.times > 1 ? `\u00d7${column.times}` : "", stuck = column.ends === "stuck" && wide >= 60 ? "stuck" : "";return s("g", {class: `column${bad ? " bad" : ""}`, "data-step": column.from},
s("rect", {class: "band", x: left, y: 0, width: wide, height, rx: 3}),text(middle, 11, [times, stuck].filter(Boolean).join(", "), `small strong ${bad ? "red" : "dim"}`, "middle"),
text(middle, 25, digits, `small ${bad ? kind : "dim"}`, "middle"),wide >= 46 ? text(middle, 39, WORDS[event.outcome], `small ${kind}`, "middle") : null);}function gap(left, wide, height, count) {
const middle = left + wide / 2;return s("g", {}, rect(left, 0, wide, height, "fill:var(--inset)"),s("text", {x: middle,y: height / 2,dy: 4,class: "small dim","text-anchor": "middle",
transform: `rotate(-90 ${middle} ${height / 2})`,}, `${number(count)} steps not shown`));}function lane(shown, x, wide, y, holds, color) {const parts = [];for (let at = 0; at < shown.length; at++) {
if (!shown[at] || !holds(shown[at])) continue;const from = at;while (at + 1 < shown.length && shown[at + 1] && holds(shown[at + 1])) at++;
parts.push(rect(x(from) + 1, y + 4, (at + 1 - from) * wide - 2, 10, `fill:${color}`),rect(x(from) + 1, y + 4, (at + 1 - from) * wide - 2, 10, "fill:url(#waits)"));}return parts;}
function threadLane(plan, story, x, wide, y, pool, thread) {const {shown} = story, parts = [];const job = column => column ? column.state.threads.get(pool)[thread] : undefined;
for (let at = 0; at < shown.length; at++) {const runs = job(shown[at]);if (runs === undefined) continue;const from = at;
while (at + 1 < shown.length && shown[at + 1] && job(shown[at + 1]) === runs) at++;const left = x(from) + 1, long = (at + 1 - from) * wide - 2;if (runs === null) {
parts.push(rect(left, y + 2, long, 15, "fill:none;stroke:var(--edge);stroke-dasharray:3 3"));if (long > 30) parts.push(text(left + long / 2, y + 13, "idle", "small dim", "middle"));continue;}
const name = story.nameOf(runs);const label = [`${name} ${runs}`, `${runs}`].find(words => width(words) + 6 < long) || "";parts.push(rect(left, y + 1, long, 17, `fill:${plan.color("class", name)}`));
for (let column = from; column <= at; column++) {const [before, after] = [column === from ? 1 : 0, column === at ? 1 : 0];if (shown[column].state.jobs.has(runs))
parts.push(rect(x(column) + before, y + 1, wide - before - after, 17, "fill:url(#waits)", {rx: 0}));}if (label)
parts.push(rect(left + 2, y + 2, width(label) + 6, 15, `fill:${plan.color("class", name)}`),text(left + 5, y + 13, label, "small on"));
if (shown[at].ends === "refused" && shown[at].events[0].actor.job === runs)
parts.push(rect(x(at) + wide / 2 - 9, y, 18, 19, "fill:var(--bad-back)"), sign(x(at) + wide / 2, y + 9.5, "refused"));}return parts;}function queueLane(plan, story, x, wide, y, pool, right) {
const {shown} = story, queue = column => column.state.queues.get(pool.name);const most = Math.max(...shown.map(column => column ? queue(column).length : 0));
const label = isUnbounded(pool) ? "unbounded queue" : `queue of ${capacity(pool)}`;const parts = [text(LEFT - 10, y + 12, label, "small dim", "end")];
if (most === 0) return [[...parts, text(x(0) + 2, y + 12, "stays empty", "small dim")], y + 20];const limit = isUnbounded(pool) ? most + 1 : pool.queue || most;if (most <= MOST_CELLS) {
const places = Math.min(limit, most + 1), tall = places * 17;if (places > 1) parts.push(text(LEFT - 10, y + tall - 5, "head", "small dim", "end"));shown.forEach((column, at) => {if (!column) return;
for (let place = 0; place < places; place++) {const top = y + (places - 1 - place) * 17, job = queue(column)[place];if (job === undefined) {
parts.push(rect(x(at) + 2, top + 1, wide - 4, 15, "fill:none;stroke:var(--line)"));continue;}const name = story.nameOf(job);
const label = [`${name} ${job}`, `${job}`].find(words => width(words) + 8 < wide) || "";parts.push(rect(x(at) + 2, top + 1, wide - 4, 15,
`fill:var(--card);stroke:${plan.color("class", name)};stroke-width:1.6`),text(x(at) + wide / 2, top + 12, label, "small", "middle"));}});return [parts, y + tall + 6];}const tall = 64;
if (!isUnbounded(pool)) parts.push(line(LEFT, y, right, y, "stroke:var(--bad);stroke-dasharray:5 4"));parts.push(line(LEFT, y + tall, right, y + tall, "stroke:var(--edge)"),
text(LEFT - 10, y + tall, "empty", "small dim", "end"));shown.forEach((column, at) => {if (!column || !queue(column).length) return;const count = queue(column).length, high = tall * count / limit;
parts.push(rect(x(at) + 1.5, y + tall - high, wide - 3, high, `fill:var(--${count === limit ? "bad" : "c1"})`, {rx: 1}));if (width(count) < wide)
parts.push(text(x(at) + wide / 2, high < 16 ? y + tall - high - 3 : y + tall - 4, count,high < 16 ? "small" : "small on", "middle"));});return [parts, y + tall + 8];}function sign(x, y, outcome) {
const ink = "fill:var(--ink);stroke:var(--card);stroke-width:1";if (outcome === "refused")
return s("path",{d: `M${x - 6} ${y - 6}l12 12m0 -12l-12 12`, style: "stroke:var(--bad);stroke-width:3;stroke-linecap:round"});
if (outcome === "started" || outcome === "queued") return s("path", {d: `M${x - 6} ${y + 5}h12l-6 -11z`, style: ink});if (outcome === "rejected")
return s("path", {d: `M${x - 5} ${y + 4}h10l-5 -9z`, style: "fill:none;stroke:var(--ink);stroke-width:1.6"});if (outcome === "got") return s("circle", {cx: x, cy: y, r: 5, style: ink});
if (outcome === "looped")
return s("path", {d: `M${x + 4} ${y - 3}a5 5 0 1 0 1 4m.5 -8l-1.5 4.5l-4 -1`,style: "fill:none;stroke:var(--ink);stroke-width:1.6"
});return "";}function legend(plan, {columns, end}) {const names = [...new Set([...end.jobs.values()].map(job => job.name))];
const icon = outcome => s("svg", {viewBox: "0 0 22 14", "aria-hidden": "true"}, sign(11, 7, outcome));const jobs = names.slice(0, 8).map(
name => h("span", {}, h("i", {style: `background:${plan.color("class", name)}`}), `job of ${name}`));const has = outcome =>
columns.some(column => column.events[0].outcome === outcome && "client" in column.events[0].actor);return h("div", {class: "legend"}, jobs,
names.length > 8 ? h("span", {}, `and ${names.length - 8} more classes`) : null,h("span", {},h("i", {style: "background:repeating-linear-gradient(45deg,var(--edge) 0 2px,transparent 2px 5px)"}),
"waits at a get"),h("span", {}, h("i", {style: "border:1px dashed var(--edge)"}), "idle thread"),has("started") || has("queued") ? h("span", {}, icon("queued"), "submits") : null,
has("rejected") ? h("span", {}, icon("rejected"), "submits, and is rejected") : null,has("got") ? h("span", {}, icon("got"), "gets") : null,
has("looped") ? h("span", {}, icon("looped"), "begins again") : null,columns.some(column => column.ends === "refused") ? h("span", {}, icon("refused"), "is refused") : null);}
function poolAfter(plan, story, {name, threads, idle, queue}) {const chips = queue.slice(0, 3).map(job => h("span", {class: "chip", style: `border-color:${plan.color("class", story.nameOf(job))}`},
`${story.nameOf(job)} ${job}`));return [`${name}: ${plural(threads, "thread")}${idle ? ` (${number(idle)} idle)` : ""}, `,queue.length ?
[`${number(queue.length)} queued `, chips, queue.length > 3 ? ` and ${number(queue.length - 3)} more` : ""] :
"none queued"
];}function table(plan, story) {const rows = story.columns.map(column => {const event = column.events[0], {pool} = column.events[column.events.length - 1];
const [who, does, then] = stepWords(plan, column);return h("tr", {class: column.ends ? "bad" : null, "data-step": column.from},
h("td", {class: "number"}, column.from === column.to ? `${column.to}` : `${column.from}\u2013${column.to}`),h("td", {}, who, " ", h("b", {}, does), then && ` (${then})`,
column.ends === "stuck" ? h("b", {}, ". Now jobs wait only for each other.") : null),h("td", {}, pool && poolAfter(plan, story, pool)), h("td", {class: "number"}, plan.link(event.line)));});
const header = h("tr", {}, h("th", {class: "number"}, "event"), h("th", {}, "what happens"),h("th", {}, "the pool after it"), h("th", {class: "number"}, "line"));
const count = rows.length, title = count > MOST_ROWS ? `All ${plural(count, "step")}` : "Event by event";
return folded(title, count <= 14, h("table", {}, h("thead", {}, header), h("tbody", {}, rows)));}function waitersOf(state, waits) {const count = waits.reduce((sum, each) => sum + each.for.length, 0);
const few = waits.length <= MOST_RING && count <= MOST_EDGES, boxes = new Map(), boxOf = new Map();for (const {job, at, pool} of waits) {
const {name} = state.jobs.get(job), key = few ? job : [name, at, pool].join();const box = boxes.get(key) || {key, name, at, pool, jobs: []};box.jobs.push(job);boxes.set(key, box);boxOf.set(job, key);}
const edges = new Map();for (const { job, at, for: others } of waits)
for (const other of others.filter(each => boxOf.has(each))) {edges.set([boxOf.get(job), boxOf.get(other)].join(" to "), {from: boxOf.get(job), to: boxOf.get(other), at});}
const labelled = [...boxes.values()].map(box => ({...box,label: box.jobs.length === 1 ? `${box.name} ${box.jobs[0]}` : `${number(box.jobs.length)} \u00d7 ${box.name}`
}));return {boxes: labelled, edges: [...edges.values()]};}function cycle(plan, answer, state) {const {jobs, waits, kind} = answer.witness.ending;if (!jobs.length) return null;
const {boxes, edges} = waitersOf(state, waits), label = key => boxes.find(box => box.key === key).label;const list = h("ul", {}, boxes.map(box => {
const others = edges.filter(edge => edge.from === box.key).map(edge => label(edge.to)), many = box.jobs.length > 1;const gets = many ? `have threads of ${box.pool} and wait at their gets of` :
`has a thread of ${box.pool} and waits at its get of`;const isQueued = `${many ? "are" : "is"} in the queue of ${box.pool}, whose threads run`;const holds = ` ${box.at === "get" ? gets : isQueued} `;
return h("li", {}, h("b", {}, box.label), holds, h("b", {}, someOf(others, 7)));}));const started = plan.pools.some(pool => pool.core_timeout) ? "a thread" : "a thread above core";
const until = kind === "stuck now" ? `They make progress when another submit starts ${started}.` :
"No event can end this: no thread that they need becomes free.";return [h("h3", {}, "The jobs that wait for each other"), h("p", {class: "muted"}, until),
boxes.length <= MOST_RING ? [ring(plan, boxes, edges), folded("As a list", false, list)] :
folded(`Who waits for whom: ${plural(jobs.length, "job")}`, false, list)
];}function around(boxes, edges) {const keys = boxes.map(box => box.key), order = [];let at = keys[0];while (at !== undefined) {order.push(at);
const next = edges.find(edge => edge.from === at && !order.includes(edge.to));at = next ? next.to : keys.find(key => !order.includes(key));}return order;}function ring(plan, boxes, edges) {
const order = around(boxes, edges), two = order.length === 2;const radius = two ? 66 : Math.min(170, Math.max(80, 25 * order.length));
const middle = two ? 48 : radius + 26, places = new Map(order.map((key, at) => {const angle = two ? Math.PI * (at + 1.5) : 2 * Math.PI * at / order.length;
return [key, [WIDTH / 2 + 2.2 * radius * Math.sin(angle), middle - radius * Math.cos(angle)]];}));const lines = edges.filter(edge => edge.from !== edge.to).map(({from, to, at}) => {
const [x1, y1] = places.get(from), [x2, y2] = places.get(to);const both = edges.some(edge => edge.from === to && edge.to === from);
const bend = both ? .16 : .06, mx = (x1 + x2) / 2 - (y2 - y1) * bend, my = (y1 + y2) / 2 + (x2 - x1) * bend;const [sx, sy] = edgeOf(x1, y1, mx, my), [ex, ey] = edgeOf(x2, y2, mx, my);
return s("path", {d: `M${sx} ${sy}Q${mx} ${my} ${ex} ${ey}`,"marker-end": "url(#arrow)",
style: `fill:none;stroke-width:2;${at === "get" ? "stroke:var(--c3)" : "stroke:var(--bad);stroke-dasharray:6 4"}`
});});const drawn = boxes.map(({key, name, label, at, pool, jobs}) => {const [x, y] = places.get(key), color = plan.color("class", name), isQueued = at === "queue";
const runs = jobs.length > 1 ? `have threads of ${pool}` : `has a thread of ${pool}`;const where = isQueued ? `queued in ${pool}` : runs;return [
rect(x - HALF, y - 21, 2 * HALF, 42, `fill:${isQueued ? "var(--card)" : color};stroke:${color};stroke-width:2`,{rx: 6}),
text(x, y - 3, short(label, 2 * HALF - 12), isQueued ? "strong" : "on", "middle"),text(x, y + 13, short(where, 2 * HALF - 4), isQueued ? "small" : "small on", "middle")
];});const ink = style => s("svg", {viewBox: "0 0 22 14", "aria-hidden": "true"}, line(0, 7, 22, 7, style));return [
h("div", {class: "legend"}, h("span", {}, ink("stroke:var(--c3);stroke-width:2"), "waits at its get of"),
h("span", {}, ink("stroke:var(--bad);stroke-width:2;stroke-dasharray:5 3"), "needs a thread that is held by")),
drawing(two ? 96 : 2 * middle, "Which job waits for which; the list below has the same", lines, drawn)
];}function edgeOf(x, y, toX, toY) {const dx = toX - x, dy = toY - y;const scale = Math.min(dx ? (HALF + 5) / Math.abs(dx) : 1e9, dy ? 25 / Math.abs(dy) : 1e9, 1);
return [x + dx * scale, y + dy * scale];}function witness(plan, answer, story) {const {columns, end} = story, {ending} = answer.witness;
const idle = ending.pool ? end.threads.get(ending.pool).filter(job => job === null).length : 0;const steps = columns.length < columns[columns.length - 1].to ?
"A column is one event, or the same step of several clients or jobs (\u00d7n)." :
"A column is one event.";const despite = ` ${idle === 1 ? "is" : "are"} idle, and the submit is refused all the same: a queued job keeps its place ` +
"until a thread takes it, which is an event of its own.";return section("events", "What happens",
idle ? h("p", {class: "callout"}, plural(idle, "thread"), " of ", h("b", {}, ending.pool), despite) : null,
h("p", {class: "muted"}, steps, " Threads and queues are shown as they are after it."), timeline(plan, story),cycle(plan, answer, end), table(plan, story));}function submitsOf(plan) {const rows = [];
for (const [kind, entries] of [["client", plan.clients], ["class", plan.classes]]) {for (const entry of entries) {const found = new Map(), slots = new Map();for (const action of entry.body) {
if (action.action === "submit") {const row = found.get(action.class) || {kind, from: entry.name, to: action.class, submits: 0, gets: 0};row.submits += 1;found.set(action.class, row);
if (action.slot !== null) slots.set(action.slot, row);} else if (action.action === "get" && slots.has(action.slot)) {slots.get(action.slot).gets += 1;slots.delete(action.slot);}}
rows.push(...found.values());}}return rows;}function depthsOf(plan, rows) {const edges =
rows.filter(row => row.kind === "class").map(row => [plan.poolOf.get(row.from), plan.poolOf.get(row.to)]);const reach = new Map(plan.pools.map(pool => [pool.name, new Set([pool.name])]));
for (let grew = true; grew;) {grew = false;for (const [from, to] of edges)
for (const pool of reach.get(to))
if (!reach.get(from).has(pool)) {reach.get(from).add(pool);grew = true;}}const depth = new Map(plan.pools.map(pool => [pool.name, 0]));for (let turn = 0; turn < plan.pools.length; turn++) {
for (const [from, to] of edges) {if (!reach.get(to).has(from))
depth.set(to, Math.max(depth.get(to), depth.get(from) + 1));else
depth.set(from, Math.max(depth.get(from), depth.get(to))).set(to, depth.get(from));}}return depth;}function submits(plan) {const rows = submitsOf(plan), depth = depthsOf(plan, rows);
const levels = [...new Set(depth.values())].sort((one, other) => one - other);const crowded = plan.pools.length > 12 || levels.length > 4 || plan.classes.length > 40 || plan.clients.length > 16;
return section("graph", "Who submits what",crowded ? folded(`${plural(rows.length, "kind")} of submits`, rows.length <= MOST_ROWS, tableOf(plan, rows)) :
graph(plan, rows, depth, levels));}function tableOf(plan, rows) {const cells =
rows.map(row => h("tr", {}, h("td", {}, row.kind === "client" ? "client " : "job ", h("b", {}, row.from)),h("td", {}, h("b", {}, row.to), row.submits > 1 ? ` \u00d7${row.submits}` : ""),
h("td", {}, plan.poolOf.get(row.to)),h("td", {},row.gets === row.submits ? "waits for it" :
row.gets             ? `waits for ${row.gets} of them` :
"does not wait")));const header = h("tr", {}, ["who", "submits", "to pool", "and then"].map(words => h("th", {}, words)));return h("table", {}, h("thead", {}, header), h("tbody", {}, cells));}
function boxesOf(plan, rows, pool) {const groups = new Map();for (const {name} of plan.classes.filter(each => each.pool === pool.name)) {
const into = rows.filter(row => row.to === name).map(row => [row.kind, row.from, row.submits, row.gets]);const out = rows.filter(row => row.kind === "class" && row.from === name);
const key = out.length ? name : JSON.stringify(into);groups.set(key, [...(groups.get(key) || []), name]);}
return [...groups.values()].flatMap(names => names.length < 4 ? names.map(name => [name]) : [names]);}function besideStart(x1, y1, x2, y2) {const x = (x1 + x2) / 2;let at = 0;
const along = (from, control1, control2, to) =>(1 - at) ** 3 * from + 3 * (1 - at) ** 2 * at * control1 + 3 * (1 - at) * at ** 2 * control2 + at ** 3 * to;
while (at < .5 && along(x1, x, x, x2) < x1 + 40) at += .01;return [along(x1, x, x, x2), along(y1, y1, y2, y2) - 5];}function graph(plan, rows, depth, levels) {
const step = Math.min(330, (WIDTH - 230) / levels.length), box = Math.min(205, step - 60), grounds = [], front = [];const places = new Map(), tops = new Map();for (const pool of plan.pools) {
const level = levels.indexOf(depth.get(pool.name)), x = 270 + level * step, y = tops.get(level) || 4;const boxes = boxesOf(plan, rows, pool), tall = 46 + 31 * Math.max(boxes.length, 1);
const most = mostThreads(pool);const range = most === "unbounded" ? `${number(pool.core)} or more` : `${number(pool.core)}\u2013${number(most)}`;
const threads = pool.core === most ? plural(pool.core, "thread") : `${range} threads`;grounds.push(rect(x, y, box, tall, "fill:var(--inset);stroke:var(--edge)", {rx: 8}));
front.push(text(x + 12, y + 19, short(pool.name, box - 20), "strong"),text(x + 12, y + 35, short(`${threads}, queue ${capacity(pool)}`, 1.2 * box), "small dim"));boxes.forEach((names, row) => {
const top = y + 43 + row * 31, label = names.length === 1 ? names[0] : `${names[0]} and ${names.length - 1} more`;
front.push(rect(x + 12, top, box - 24, 25, `fill:${plan.color("class", names[0])}`, {rx: 5}),text(x + box / 2, top + 17, short(label, box - 30), "on", "middle"));
for (const name of names) places.set(`class ${name}`, [x + 12, x + box - 12, top + 13]);});tops.set(level, y + tall + 20);}let y = 4;for (const kind of plan.clients) {
front.push(rect(2, y, 170, 40, `fill:${plan.color("client", kind.name)}`, {rx: 20}),text(87, y + 17, short(`${number(kind.count)} ${kind.name}`, 150), "on", "middle"),
text(87, y + 32, kind.repeat ? "repeat" : "once each", "small on", "middle"));places.set(`client ${kind.name}`, [2, 172, y + 20]);y += 50;}
const levelOf = (kind, name) => kind === "client" ? -1 : levels.indexOf(depth.get(plan.poolOf.get(name)));const drawn = new Set();let below = Math.max(y, ...tops.values()) - 8;
const lines = rows.map(row => {const [, x1, y1] = places.get(`${row.kind} ${row.from}`), [x2, right, y2] = places.get(`class ${row.to}`);const key = [row.kind, row.from, x2, y2].join();
if (drawn.has(key)) return null;drawn.add(key);let d, place;if (x2 <= x1) {const out = Math.max(x1, right) + 30;[d, place] =
[`M${x1} ${y1 - 4}C${out} ${y1 - 6} ${out} ${y2 + 6} ${right + 1} ${y2 + 4}`, [out - 2, (y1 + y2) / 2 + 4]];} else if (levelOf("class", row.to) > levelOf(row.kind, row.from) + 1) {below += 13;
const down = `C${x1 + 34} ${y1} ${x1 + 20} ${below} ${x1 + 54} ${below}`;const up = `C${x2 - 20} ${below} ${x2 - 34} ${y2} ${x2 - 1} ${y2}`;d = `M${x1} ${y1}${down}H${x2 - 54}${up}`;
place = [x1 + 80, below + 4];} else {const x = (x1 + x2) / 2;[d, place] = [`M${x1} ${y1}C${x} ${y1} ${x} ${y2} ${x2 - 1} ${y2}`, besideStart(x1, y1, x2, y2)];}
const dash = row.gets === row.submits ? "" : "stroke-dasharray:5 4";const style = `fill:none;stroke-width:2;stroke:${plan.color(row.kind, row.from)};${dash}`;
const halo = {style: "paint-order:stroke;stroke:var(--card);stroke-width:4px"};const label = {x: place[0], y: place[1], class: "strong", "text-anchor": "middle", ...halo};return [
s("path", {d, "marker-end": "url(#arrow)", style}),row.submits > 1 ? s("text", label, `\u00d7${row.submits}`) : null,];});const ink = dash => s("svg", {viewBox: "0 0 22 14", "aria-hidden": "true"},
line(0, 7, 22, 7, `stroke:var(--ink);stroke-width:2;${dash}`));const has = waits => rows.some(row => (row.gets === row.submits) === waits);return [
h("div", {class: "legend"}, has(true) ? h("span", {}, ink(""), "submits, and waits for each") : null,
has(false) ? h("span", {}, ink("stroke-dasharray:5 4"), "submits, and does not wait for all") : null,rows.some(row => row.submits > 1) ? h("span", {}, "\u00d7n: n times in one body") : null),
drawing(below + 12, "Clients, pools and classes; the table below has the same", grounds, lines, front),folded("As a table", false, tableOf(plan, rows))
];}function listed(plan, id, title, them, omitted) {return section(id, title,[...them.map(each => h("div", {class: "fault"},
each.line ? [h("span", {class: "muted"}, "line ", plan.link(each.line), ": ")] : null, each.text,plan.quoted(each.line))),
omitted ? h("p", {class: "muted"}, `and ${plural(omitted, "more fault")}`) : null]);}function source(plan, answer) {
const marked = new Set([...answer.faults, ...answer.warnings].map(each => each.line));for (const pool of answer.sizes ? answer.sizes.pools : [])
for (const change of pool.changes) marked.add(change.line);return section("plan", "The plan",folded(plan.file, plan.lines.length <= 40 || answer.answer === "FAULTS",
plan.excerpt(plan.lines.map((words, at) => [at + 1, words, marked.has(at + 1) ? "hit" : ""]), true)));}function show(answer) {const plan = new Plan(answer), parts = [];
const story = answer.witness ? new Story(plan, answer) : null;const add = (title, element) => parts.push([element.id, title, element]);
if (answer.faults.length) add("Faults", listed(plan, "faults", "Faults", answer.faults, answer.omitted));if (answer.sizes) add("Sizes", sizes(plan, answer));
if (answer.pools.length) add("Pools", pools(plan, answer, story && story.end));if (story) add("What happens", witness(plan, answer, story));
if (answer.warnings.length) add("Warnings", listed(plan, "warnings", "Warnings", answer.warnings, 0));if (answer.assumptions.length)
add("Assumptions",section("assumptions", "What this assumes", h("ul", {}, answer.assumptions.map(each => h("li", {}, coded(each))))));
if (plan.clients.length || plan.classes.length) add("Who submits what", submits(plan));if (plan.lines) add("The plan", source(plan, answer));
const program = answer.version ? `sizing ${answer.version}` : "sizing";document.title = `${answer.answer}: ${plan.file}`;
document.querySelector("main").append(head(plan, answer, parts), ...parts.map(each => each[2]),
h("footer", {}, `${program}. The answer is about the plan: it holds for a service that does what its plan says.`));}function reveal(hash) {
const target = hash.length > 1 && document.getElementById(decodeURIComponent(hash.slice(1)));for (let at = target; at; at = at.parentElement)
if (at.tagName === "DETAILS") at.open = true;if (target) target.scrollIntoView({block: "nearest"});}function light(event) {const step = event.target.closest && event.target.closest("[data-step]");
for (const each of document.querySelectorAll(".lit")) each.classList.remove("lit");if (step)
for (const each of document.querySelectorAll(`[data-step="${step.dataset.step}"]`)) each.classList.add("lit");}show(JSON.parse(document.getElementById("answer").textContent));
document.addEventListener("click", event => {const link = event.target.closest("a[href^='#']");if (link) reveal(link.getAttribute("href"));});
for (const kind of ["mouseover", "focusin"]) document.addEventListener(kind, light);window.addEventListener("hashchange", () => reveal(location.hash));window.addEventListener("beforeprint", () => {
for (const each of document.querySelectorAll("details")) each.open = true;});reveal(location.hash);</script></body></html>
"#;
