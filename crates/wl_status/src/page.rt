//! The page, which `tools/put_page` writes here from `page/index.html`, and under which policy it is served.

/// The page: one HTML text, which reads `/locks`.
pub const PAGE: &str = r##"<!doctype html>
<html lang="en">
<head>
<meta charset="utf-8">
<meta name="viewport" content="width=device-width, initial-scale=1">
<meta name="color-scheme" content="light dark">
<title>weblocks</title>
<style>
:root {
  --paper: #ffffff; --raised: #f6f8fa; --text: #1f2328; --quiet: #59636e; --line: #d1d9e0; --grid: #e7ebef;
  --exclusive: #26803f; --exclusive-next: #63b77a; --on-exclusive: #ffffff; --on-exclusive-next: #10281a;
  --shared: #2f74b5; --on-shared: #ffffff;
  --waiting: #e9b949; --waiting-edge: #9a6700; --waiting-text: #8a5a00; --stolen: #8250df; --fault: #b3261e;
  --unseen: #d8dee4; --mark: #fff3cf; --focus: #0969da;
}
@media (prefers-color-scheme: dark) {
  :root {
    --paper: #0d1117; --raised: #161b22; --text: #e6edf3; --quiet: #9198a1; --line: #30363d; --grid: #1c2128;
    --exclusive: #2f7d46; --exclusive-next: #4fa866; --on-exclusive: #ffffff; --on-exclusive-next: #07140b;
    --shared: #3072ad; --on-shared: #ffffff;
    --waiting: #8a6414; --waiting-edge: #d4a72c; --waiting-text: #e3b341; --stolen: #c297ff; --fault: #ff8f87;
    --unseen: #2d333b; --mark: #3b2e0b; --focus: #58a6ff;
  }
}
* { box-sizing: border-box; }
html { scroll-padding-top: 60px; }
[hidden] { display: none !important; }
body { margin: 0; background: var(--paper); color: var(--text); font: 14px/1.45 system-ui, "DejaVu Sans", sans-serif; }
header, main, footer { padding: 0 20px; }
header {
  position: sticky; top: 0; z-index: 1; display: flex; flex-wrap: wrap; align-items: center; gap: 8px 16px;
  padding-block: 10px; background: var(--raised); border-bottom: 1px solid var(--line);
}
h1 { margin: 0; font-size: 16px; }
#state { margin: 0; color: var(--quiet); }
#state::before { content: ""; display: inline-block; width: 8px; height: 8px; margin-right: 6px; border-radius: 50%;
  background: var(--exclusive); }
#state.paused::before { background: var(--quiet); }
#state.fault { color: var(--fault); }
#state.fault::before { background: var(--fault); }
#controls { display: flex; flex-wrap: wrap; align-items: center; gap: 8px 14px; margin-left: auto; }
label { display: inline-flex; align-items: center; gap: 6px; color: var(--quiet); }
input[type="search"], button {
  font: inherit; color: var(--text); background: var(--paper); border: 1px solid var(--line); border-radius: 6px;
  padding: 3px 9px;
}
input[type="search"] { width: 15em; min-width: 0; }
input[type="checkbox"] { margin: 0; accent-color: var(--shared); }
button { cursor: pointer; }
button[aria-pressed="true"] { border-color: var(--focus); }
:focus-visible { outline: 2px solid var(--focus); outline-offset: 2px; }
#summary, .left-out { margin: 12px 0; color: var(--quiet); }
.left-out { color: var(--waiting-text); }
.heading { display: flow-root; padding-top: 14px; }
h2 {
  display: flex; flex-wrap: wrap; align-items: baseline; gap: 0 10px; margin: 0; padding-bottom: 5px; font-size: 14px;
  border-bottom: 1px solid var(--line);
}
h2 .bucket { font-weight: normal; color: var(--quiet); }
h2 a { margin-left: auto; font-weight: normal; font-size: 12px; color: var(--quiet); }
h2, h3, li { overflow-wrap: anywhere; }
.row {
  display: grid; grid-template-columns: minmax(0, 9fr) minmax(0, 11fr); gap: 2px 20px; align-items: start;
  min-height: 61px; padding: 7px 0; border-bottom: 1px solid var(--grid);
}
.row .words { min-width: 0; }
h3 { margin: 0; font: 600 13px/1.4 ui-monospace, "DejaVu Sans Mono", monospace; }
h3 .empty { font-weight: normal; font-style: italic; color: var(--quiet); }
h3 .count { margin-left: 8px; font: 12px system-ui, "DejaVu Sans", sans-serif; color: var(--waiting-text); }
ul, ol { display: flex; flex-wrap: wrap; gap: 2px 6px; margin: 3px 0 0; padding: 0; list-style: none; font-size: 12px; }
.whole { max-height: 40vh; overflow: auto; }
li { padding: 0 7px; border-left: 3px solid var(--line); background: var(--raised); border-radius: 2px; }
li .order { color: var(--quiet); }
li .mode, li .time { color: var(--quiet); }
li .time { font-variant-numeric: tabular-nums; }
li.held.exclusive { border-color: var(--exclusive); }
li.held.shared { border-color: var(--shared); }
li.pending { border-color: var(--waiting-edge); }
li .stole { color: var(--stolen); }
li.match { background: var(--mark); }
.more { margin-top: 3px; padding: 0 7px; font-size: 12px; }
.free { margin: 3px 0 0; font-size: 12px; color: var(--quiet); }
svg.lane {
  display: block; width: 100%; height: 46px; border-radius: 3px; background-color: var(--raised);
  background-image: linear-gradient(to right, var(--grid) 1px, transparent 1px); background-size: calc(100% / 6) 100%;
}
.bar.exclusive { fill: var(--exclusive); }
.bar.exclusive.next { fill: var(--exclusive-next); }
.bar.shared { fill: var(--shared); }
.lane text { font-size: 11px; fill: var(--on-exclusive); pointer-events: none; }
.lane text.next { fill: var(--on-exclusive-next); }
.lane text.shared { fill: var(--on-shared); }
.crowd { fill: var(--waiting); }
.crowd-edge { fill: none; stroke: var(--waiting-edge); }
.theft { fill: none; stroke: var(--stolen); stroke-width: 2.5; }
.unseen { fill: var(--unseen); opacity: 0.85; }
footer { padding-block: 12px 24px; font-size: 12px; color: var(--quiet); }
footer p { margin: 4px 0; }
.key { display: inline-block; margin-right: 14px; white-space: nowrap; }
.key::before { content: ""; display: inline-block; width: 14px; height: 9px; margin-right: 5px; border-radius: 2px; }
.key.exclusive::before { background: linear-gradient(to right, var(--exclusive) 50%, var(--exclusive-next) 50%); }
.key.shared::before { background: var(--shared); }
.key.waiting::before { background: var(--waiting); border: 1px solid var(--waiting-edge); }
.key.theft-key::before { width: 3px; background: var(--stolen); }
.key.unseen-key::before { background: var(--unseen); }
@media (max-width: 760px) {
  header, main, footer { padding-inline: 12px; }
  header { position: static; }
  #controls { margin-left: 0; width: 100%; }
  #controls label:first-child { flex: 1 1 100%; }
  input[type="search"] { flex: 1; }
  .row { grid-template-columns: minmax(0, 1fr); gap: 6px; }
}
</style>
</head>
<body>
<header>
  <h1>weblocks</h1>
  <p id="state" role="status">Connecting</p>
  <div id="controls" role="search" aria-label="What is shown">
    <label>
      Filter
      <input id="filter" type="search" placeholder="origin, name or client" autocomplete="off" spellcheck="false">
    </label>
    <label><input id="waited" type="checkbox"> Only names that are waited for</label>
    <button id="pause" type="button" aria-pressed="false">Pause</button>
  </div>
</header>
<main>
  <p id="summary"></p>
  <p id="left_out" class="left-out" hidden></p>
  <p id="alone" hidden>One origin alone is shown: <a id="everything" href="#all">show all origins</a></p>
  <div id="list"><div id="above"></div><div id="shown"></div><div id="below"></div></div>
  <noscript><p>This page needs JavaScript. <a href="/locks">/locks</a> has the same as JSON.</p></noscript>
</main>
<footer>
  <p>
    <span class="key exclusive">held, exclusive: a new shade for each holder</span>
    <span class="key shared">held, shared</span>
    <span class="key waiting">how many wait</span>
    <span class="key theft-key">stolen while others waited</span>
    <span class="key unseen-key">not seen</span>
  </p>
  <p>A lane is the last minute, a line each ten seconds, its right edge now. The server is asked twice a second: what
  comes and goes between two looks isn't seen. A name that is free stays for a minute.</p>
</footer>
<script type="module">
/** Milliseconds: between two looks, until one is given up, what more than that between two is a gap, of a lane. */
const EACH = 500, PATIENCE = 5000, GAP = 2500, WINDOW = 60_000;
/** A lane's right edge is so far behind that an end is known once it is in sight; it is drawn so far ahead. */
const BEHIND = 600, AHEAD = 30_000;
/** Times of one request differ by less from look to look, and of one thread from another. */
const SAME = 2000, SKEW = 50;
/** Shown of a list, and of one that all is asked of; characters of a text; kept of a lane, and where there are many. */
const FEW = 8, MANY = 500, CHARACTERS = 300, KEPT = 240, KEPT_OF_MANY = 24, MANY_LANES = 1000;
/** Pixels: the heights of a row and a heading that weren't measured; how far beyond what is in sight there are more. */
const ROW = 62, HEADING = 42, OVER = 400;
/** In a lane, from above: where holders begin, the height of all of them, their most rows; where waiters may reach. */
const TOP = 2, BAND = 26, MOST_ROWS = 8, CROWD = 31, HEIGHT = 46;

// What was seen. Times are the page's own, in milliseconds.

/** Whether what was seen before is this request: a server that was started anew counts from the beginning. */
const isSame = (before, now) => before !== undefined && Math.abs(before.asked - now.asked) < SAME;

/** Whether a look found just these requests again, in this order. */
function isUnchanged(before, now) {
  if (before.size !== now.length) return false;
  let index = -1;
  for (const it of before.values()) {
    index += 1;
    if (it.key !== now[index].key || !isSame(it, now[index])) return false;
  }
  return true;
}

const least = (items, of) => items.reduce((found, it) => Math.min(found, of(it)), Infinity);

/** What was seen of one name of a manager: who holds it and who waits now, and what was in the last minute. */
class Lane {
  held = new Map();
  pending = new Map();
  bars = [];
  /** From when on how many waited. */
  steps = [{ at: -Infinity, count: 0 }];
  grants = 0;
  knownSince = -Infinity;
  freeSince = Infinity;
  version = 0;
  /** Whether all is to be shown of who holds it, and of who waits. */
  isWhole = { held: false, pending: false };

  constructor(manager, name) {
    this.manager = manager;
    this.name = name;
    this.text = `${manager.origin} ${manager.isDefault ? "" : manager.bucket} ${name}`.toLowerCase();
  }

  get isFree() {
    return this.held.size + this.pending.size === 0;
  }

  /** Takes what this look found of it. */
  observe(held, pending, look) {
    if (!isUnchanged(this.held, held) || !isUnchanged(this.pending, pending)) this.#change(held, pending, look);
    this.#forget(look);
    this.freeSince = this.isFree ? Math.min(this.freeSince, look.middle) : Infinity;
  }

  #change(held, pending, look) {
    const fresh = held.filter((it) => !isSame(this.held.get(it.key), it));
    const events = this.#arrivals(fresh, pending);
    this.#endBars(held, fresh, look);
    this.#beginBars(fresh, least(pending, (it) => it.asked));
    this.#departures(pending, events, look);
    this.pending = new Map(pending.map((it) => [it.key, this.pending.get(it.key) ?? it]));
    this.#count(events, look);
    this.version += 1;
  }

  /** Who came to wait, and who came and was granted after a wait that no look saw. */
  #arrivals(fresh, pending) {
    const came = pending.filter((it) => !isSame(this.pending.get(it.key), it));
    came.forEach((it) => this.pending.delete(it.key));
    const unseen = fresh.filter((it) => !this.pending.has(it.key) && it.granted - it.asked > SKEW);
    return [
      ...came.map((it) => ({ at: it.asked, by: 1 })),
      ...unseen.flatMap((it) => [{ at: it.asked, by: 1 }, { at: it.granted, by: -1 }]),
    ];
  }

  /** Who waits no more: from the grant on, or from some time between the looks. */
  #departures(pending, events, look) {
    const still = new Set(pending.map((it) => it.key));
    for (const key of this.pending.keys()) {
      if (!still.has(key)) {
        events.push({ at: this.held.get(key)?.from ?? look.middle, by: -1 });
      }
    }
  }

  /** A lock ended at the latest when one was granted that excludes it, else at some time between the looks. */
  #endBars(held, fresh, look) {
    const still = new Map(held.map((it) => [it.key, it]));
    const next = least(fresh, (it) => it.granted);
    const nextExclusive = least(fresh.filter((it) => it.mode === "exclusive"), (it) => it.granted);
    for (const [key, bar] of this.held) {
      const now = still.get(key);
      if (now === undefined || !isSame(bar, now)) {
        const end = bar.mode === "exclusive" ? next : nextExclusive;
        bar.to = Math.max(bar.from, end === Infinity ? look.middle : end);
        this.held.delete(key);
      }
    }
  }

  /** Only a steal passes one who has waited for longer. */
  #beginBars(fresh, longest) {
    const used = new Set([...this.held.values()].map((bar) => bar.slot));
    let slot = 0;
    for (const { key, client, mode, asked, granted } of fresh) {
      while (used.has(slot)) slot += 1;
      used.add(slot);
      this.grants += mode === "exclusive" ? 1 : 0;
      const isTheft = mode === "exclusive" && longest < asked - SKEW;
      const bar = { key, client, mode, asked, from: granted, to: Infinity, slot, shade: this.grants % 2, isTheft };
      this.bars.push(bar);
      this.held.set(key, bar);
    }
  }

  #count(events, look) {
    events.sort((one, other) => one.at - other.at);
    let last = this.steps.at(-1);
    for (const { at, by } of events) {
      const count = Math.max(0, last.count + by);
      if (at - last.at < 2 * SKEW) {
        last.count = count;
      } else {
        last = { at, count };
        this.steps.push(last);
      }
    }
    if (last.count !== this.pending.size) this.steps.push({ at: look.now, count: this.pending.size });
  }

  /** Drops what is out of sight, and more where too much would be kept. */
  #forget(look) {
    const begin = look.now - WINDOW - BEHIND;
    const most = look.lanes > MANY_LANES ? KEPT_OF_MANY : KEPT;
    if (this.bars.length > 0 && this.bars[0].to < begin) this.bars = this.bars.filter((it) => it.to >= begin);
    while (this.steps.length > 1 && this.steps[1].at < begin) this.steps.shift();
    const ended = this.bars.length > most ? this.bars.filter((it) => it.to < Infinity) : [];
    if (ended.length > most) {
      const dropped = new Set(ended.slice(0, ended.length - most));
      this.knownSince = ended[dropped.size - 1].to;
      this.bars = this.bars.filter((it) => !dropped.has(it));
    }
    if (this.steps.length > most) {
      this.steps.splice(0, this.steps.length - most);
      this.knownSince = Math.max(this.knownSince, this.steps[0].at);
    }
  }
}

/** An origin's bucket, with a lane for each name. */
class Manager {
  lanes = new Map();
  leftOut = 0;
  #inOrder = null;

  constructor(origin, bucket) {
    Object.assign(this, { origin, bucket });
  }

  /** Whether it is that of who names no bucket, which isn't shown. */
  get isDefault() {
    return this.bucket === "default";
  }

  /** The lanes in the order of their names. */
  get inOrder() {
    this.#inOrder ??= [...this.lanes.keys()].sort().map((name) => this.lanes.get(name));
    return this.#inOrder;
  }

  /** Has each name take its requests, and drops those that have been free for as long as a lane goes. */
  observe(names, look) {
    for (const [name, { held, pending }] of names) {
      if (!this.lanes.has(name)) this.#setLane(name, new Lane(this, name));
      this.lanes.get(name).observe(held, pending, look);
    }
    for (const [name, lane] of this.lanes) {
      if (!names.has(name)) lane.observe([], [], look);
      if (lane.freeSince < look.now - WINDOW) this.#setLane(name, null);
    }
  }

  #setLane(name, lane) {
    if (lane) this.lanes.set(name, lane);
    else this.lanes.delete(name);
    this.#inOrder = null;
  }
}

/** All that was seen. */
class History {
  began = Infinity;
  since = -Infinity;
  gaps = [];
  leftOut = { managers: 0, rows: 0 };
  /** The managers in the order of their origins and buckets, and their lanes. */
  inOrder = [];
  lanes = [];
  #managers = new Map();

  /** Takes what the server answered at this time. */
  observe({ managers, left_out: leftOut }, now) {
    const isGap = this.since > 0 && now - this.since > GAP;
    if (isGap) this.gaps.push({ from: this.since, to: now });
    this.gaps = this.gaps.filter((it) => it.to > now - WINDOW - BEHIND);
    this.began = Math.min(this.began, now);
    const middle = isGap ? this.since : (Math.max(this.since, now - EACH) + now) / 2;
    const look = { since: this.since, now, middle, lanes: this.lanes.length };
    const found = new Set(managers.map((it) => this.#observeManager(it, look)));
    for (const [key, manager] of this.#managers) {
      if (!found.has(manager)) {
        manager.leftOut = 0;
        manager.observe(new Map(), look);
      }
      if (manager.lanes.size === 0) this.#managers.delete(key);
    }
    this.inOrder = [...this.#managers.keys()].sort().map((key) => this.#managers.get(key));
    Object.assign(this, { leftOut, since: now, lanes: this.inOrder.flatMap((it) => it.inOrder) });
  }

  #observeManager({ origin, bucket, held, pending, left_out: leftOut }, look) {
    const key = `${origin}\n${bucket}`;
    if (!this.#managers.has(key)) this.#managers.set(key, new Manager(origin, bucket));
    const manager = this.#managers.get(key);
    const names = new Map();
    for (const [which, requests] of [["held", held], ["pending", pending]]) {
      for (const it of requests) {
        if (!names.has(it.name)) names.set(it.name, { held: [], pending: [] });
        names.get(it.name)[which].push(requestOf(it, look.now));
      }
    }
    manager.leftOut = leftOut;
    manager.observe(names, look);
    return manager;
  }
}

function requestOf({ client, request, mode, since_asked: asked, since_granted: granted }, now) {
  const times = { asked: now - 1000 * asked, granted: granted === undefined ? Infinity : now - 1000 * granted };
  return { key: `${client} ${request}`, client, mode, ...times };
}

// What is shown. Whatever a client chose is written as text alone.

const SVG = "http://www.w3.org/2000/svg";
const grouped = new Intl.NumberFormat("en");
const byId = (id) => document.getElementById(id);
const counted = (count, one, many = `${one}s`) => `${grouped.format(count)} ${count === 1 ? one : many}`;

function element(tag, className, ...inside) {
  const made = document.createElement(tag);
  if (className) made.className = className;
  made.append(...inside);
  return made;
}

function drawn(tag, className, attributes) {
  const made = document.createElementNS(SVG, tag);
  if (className) made.setAttribute("class", className);
  for (const [name, value] of Object.entries(attributes)) made.setAttribute(name, value);
  return made;
}

function write(node, text) {
  if (node.textContent !== text) node.textContent = text;
}

function hide(node, isHidden) {
  if (node.hidden !== isHidden) node.hidden = isHidden;
}

/** Has a node just these children, in this order, and moves none without need. */
function place(parent, children) {
  const kept = new Set(children);
  for (const it of [...parent.children]) if (!kept.has(it)) it.remove();
  let at = parent.firstChild;
  for (const it of children) {
    if (it === at) at = at.nextSibling;
    else parent.insertBefore(it, at);
  }
}

/** A text whose characters all show: those that don't, and blanks at its ends, as JavaScript escapes them. */
function legible(text) {
  const shown = text.length > CHARACTERS ? text.slice(0, CHARACTERS) : text;
  const escape = (it) => [...it].map((one) => `\\u{${one.codePointAt(0).toString(16)}}`).join("");
  const escaped = shown.replace(/[\p{Cc}\p{Cf}\p{Cs}\p{Zl}\p{Zp}]|^\s+|\s+$/gu, escape);
  return text.length > CHARACTERS ? `${escaped} .. (${grouped.format(text.length)} characters)` : escaped;
}

function duration(milliseconds) {
  const seconds = Math.max(0, milliseconds / 1000);
  const [minutes, hours] = [Math.floor(seconds / 60), Math.floor(seconds / 3600)];
  if (seconds < 10) return `${seconds.toFixed(1)} s`;
  if (minutes < 1) return `${Math.floor(seconds)} s`;
  if (hours < 1) return `${minutes} min ${Math.floor(seconds % 60)} s`;
  return hours < 48 ? `${hours} h ${minutes % 60} min` : `${Math.floor(hours / 24)} d ${hours % 24} h`;
}

/** What stands in the filter: each of its words is a part of an origin, a bucket or a name, or is a client. */
class Filter {
  words = [];
  isWaited = false;

  get isEmpty() {
    return this.words.length === 0 && !this.isWaited;
  }

  /** Whether a request's client is this word, or begins with it; client-1 isn't client-10. */
  #isOf(word, { client }) {
    return client === word || (!/\d$/.test(word) && client.startsWith(word));
  }

  marks(request) {
    return this.words.some((word) => this.#isOf(word, request));
  }

  passes(lane) {
    if (this.isWaited && lane.pending.size === 0) return false;
    return this.words.every((word) => lane.text.includes(word) || this.#hasClient(lane, word));
  }

  #hasClient({ held, pending }, word) {
    for (const requests of [held, pending]) {
      for (const it of requests.values()) if (this.#isOf(word, it)) return true;
    }
    return false;
  }
}

/** The requests that hold a name, or that wait for it; the element of one that was there before stays. */
class RequestList {
  #items = new Map();

  constructor(lane, which) {
    Object.assign(this, { lane, which });
    this.list = element(which === "held" ? "ul" : "ol", "");
    this.list.setAttribute("aria-label", which === "held" ? "Held by" : "Waiting, in this order");
    this.more = element("button", "more");
    this.more.type = "button";
    this.more.onclick = () => {
      lane.isWhole[which] = !lane.isWhole[which];
      page.show();
    };
    this.parts = [this.list, this.more];
  }

  /** Shows the first requests, and those that the filter marks. */
  show(now) {
    const requests = this.lane[this.which];
    const isWhole = this.lane.isWhole[this.which];
    const shown = new Map();
    let index = 0;
    for (const it of requests.values()) {
      index += 1;
      if (index <= (isWhole ? MANY : FEW) || (shown.size < MANY && page.filter.marks(it))) shown.set(it, index);
    }
    const items = new Map([...shown.keys()].map((it) => [it.key, this.#items.get(it.key) ?? this.#make(it)]));
    this.#items = items;
    place(this.list, [...items.values()].map((it) => it.root));
    for (const [it, order] of shown) this.#update(items.get(it.key), it, order, now);
    this.list.classList.toggle("whole", isWhole);
    this.list.tabIndex = isWhole ? 0 : -1;
    hide(this.list, requests.size === 0);
    this.#showMore(requests.size, requests.size - shown.size, isWhole);
  }

  #showMore(count, left, isWhole) {
    hide(this.more, left === 0 && !(isWhole && count > FEW));
    this.more.setAttribute("aria-expanded", String(isWhole));
    const what = this.which === "held" ? "holders" : "waiting";
    const rest = left > 0 ? ` (${grouped.format(left)} more aren't shown)` : "";
    write(this.more, isWhole ? `Show fewer ${what}${rest}` : `Show ${grouped.format(left)} more ${what}`);
  }

  #make({ client, mode, isTheft }) {
    const isShared = mode === "shared";
    const root = element("li", `${this.which} ${isShared ? "shared" : "exclusive"}`);
    const order = element("span", "order");
    const time = element("span", "time");
    root.append(order, element("bdi", "", legible(client)), element("span", "mode", ` ${mode}`));
    if (isTheft) root.append(element("span", "stole", " by a steal"));
    root.append(time);
    return { root, order, time };
  }

  #update({ root, order, time }, request, place, now) {
    if (this.which === "pending") write(order, `${grouped.format(place)} `);
    write(time, ` ${duration(now - (request.from ?? request.asked))}`);
    root.classList.toggle("match", page.filter.marks(request));
  }
}

/** A name: who holds it, who waits, and its lane. */
class Row {
  #drawnAs = "";
  #base = -Infinity;
  #labels = [];

  constructor(lane) {
    this.lane = lane;
    const isEmpty = lane.name === "";
    const name = isEmpty ? element("span", "empty", "the empty name") : element("bdi", "", legible(lane.name));
    this.count = element("span", "count");
    this.free = element("p", "free", "free");
    this.lists = ["held", "pending"].map((which) => new RequestList(lane, which));
    const lists = this.lists.flatMap((it) => it.parts);
    const words = element("div", "words", element("h3", "", name, this.count), this.free, ...lists);
    this.svg = drawn("svg", "lane", { role: "img" });
    this.root = element("article", "row", words, this.svg);
  }

  show() {
    const { lane } = this;
    hide(this.free, !lane.isFree);
    for (const it of this.lists) it.show(page.history.since);
    write(this.count, lane.pending.size === 0 ? "" : `${grouped.format(lane.pending.size)} waiting`);
    this.shift(page.edge());
  }

  /** Moves the lane to what its right edge is now, and draws it anew where that is needed. */
  shift(edge) {
    const { history, laneWidth } = page;
    const last = history.gaps.at(-1)?.to;
    const drawnAs = [this.lane.version, page.isLost, history.began, last, laneWidth].join(" ");
    if (drawnAs !== this.#drawnAs || edge - this.#base > AHEAD / 2 || edge < this.#base) {
      this.#drawnAs = drawnAs;
      this.#base = edge;
      const picture = new Picture(this.lane, edge);
      picture.drawInto(this.svg);
      this.#labels = picture.labels;
    }
    const left = ((edge - this.#base) * laneWidth) / WINDOW;
    this.svg.firstChild.setAttribute("transform", `translate(${-left.toFixed(1)})`);
    for (const it of this.#labels) this.#moveLabel(it, left);
  }

  /** Has a bar's label stand where the bar comes into sight, if there is room for it. */
  #moveLabel(label, left) {
    const { text, from, to, width } = label;
    const x = Math.max(from, left) + 5;
    const isShown = x + width <= Math.min(to, left + page.laneWidth);
    if (isShown !== label.isShown) text.setAttribute("visibility", isShown ? "visible" : "hidden");
    if (isShown && x !== label.x) text.setAttribute("x", x.toFixed(1));
    label.isShown = isShown;
    label.x = isShown ? x : undefined;
  }
}

/** A lane of the minute before its edge, and on, as it goes if nothing changes. */
class Picture {
  labels = [];

  constructor(lane, edge) {
    Object.assign(this, { lane, edge, begin: edge - WINDOW });
    this.bars = lane.bars.filter((it) => it.to > this.begin);
    this.steps = lane.steps.filter((it, index) => (lane.steps[index + 1]?.at ?? Infinity) > this.begin);
    this.most = Math.max(...this.steps.map((it) => it.count));
  }

  /** Where a time is, in pixels; those out of sight are at the ends. */
  x(time) {
    const shown = Math.min(Math.max(time, this.begin), this.edge + AHEAD);
    return Math.round((10 * (shown - this.begin) * page.laneWidth) / WINDOW) / 10;
  }

  drawInto(svg) {
    const { history, isLost } = page;
    const unknown = { from: -Infinity, to: Math.max(history.began, this.lane.knownSince) };
    const gaps = [unknown, ...history.gaps].filter((it) => it.to > this.begin);
    const group = drawn("g", "", {});
    group.append(...gaps.map((it) => this.#unseen(it)));
    group.append(...this.#holders(), ...this.#crowd(), ...this.#thefts());
    if (isLost) group.append(this.#unseen({ from: history.since, to: Infinity }));
    svg.replaceChildren(group);
    svg.setAttribute("aria-label", this.#words());
  }

  #words() {
    const thefts = this.bars.filter((it) => it.isTheft).length;
    const stolen = thefts > 0 ? `, stolen ${counted(thefts, "time")}` : "";
    return `The last minute: held ${counted(this.bars.length, "time")}, at most ${this.most} waiting${stolen}`;
  }

  #unseen({ from, to }) {
    const x = this.x(from);
    return drawn("rect", "unseen", { x, y: 0, width: Math.max(0, this.x(to) - x), height: HEIGHT });
  }

  /** A bar for each lock; shared ones that were held together are side by side. */
  #holders() {
    const used = this.bars.reduce((most, it) => (it.mode === "shared" ? Math.max(most, it.slot + 1) : most), 1);
    const side = BAND / Math.min(used, MOST_ROWS);
    return this.bars.flatMap((bar) => {
      if (bar.mode !== "shared") return this.#holder(bar, bar.shade ? "exclusive" : "exclusive next", TOP, BAND);
      return bar.slot < MOST_ROWS ? this.#holder(bar, "shared", TOP + bar.slot * side, side) : [];
    });
  }

  #holder({ client, mode, from, to, isTheft }, kind, y, height) {
    const x = this.x(from);
    const width = Math.max(1, this.x(to) - x - (to < Infinity ? 1 : 0));
    const rect = drawn("rect", `bar ${kind}`, { x, y, width, height: Math.max(1, height - 1), rx: 1.5 });
    rect.dataset.client = client;
    const title = drawn("title", "", {});
    title.textContent = `${client}, ${mode}`;
    rect.append(title);
    if (height < 12) return [rect];
    const text = drawn("text", kind, { y: y + height / 2 + 3.5 });
    text.textContent = client;
    this.labels.push({ text, from: x + (isTheft ? 8 : 0), to: x + width, width: 6.5 * client.length });
    return [rect, text];
  }

  /** How many wait, as a hill below the holders. */
  #crowd() {
    const each = Math.min(4, (HEIGHT - CROWD) / this.most);
    let [hill, edge, before] = ["", "", 0];
    this.steps.forEach(({ at, count }, index) => {
      const [from, to] = [this.x(at), this.x(this.steps[index + 1]?.at ?? Infinity)];
      const y = (HEIGHT - count * each).toFixed(1);
      if (count > 0) {
        hill += `M${from} ${HEIGHT}V${y}H${to}V${HEIGHT}Z`;
        edge += before > 0 ? `V${y}H${to}` : `M${from} ${HEIGHT}V${y}H${to}`;
      } else if (before > 0) {
        edge += `V${HEIGHT}`;
      }
      before = count;
    });
    return hill ? [drawn("path", "crowd", { d: hill }), drawn("path", "crowd-edge", { d: edge })] : [];
  }

  #thefts() {
    const thefts = this.bars.filter((it) => it.isTheft && it.from > this.begin);
    const path = (x) => `M${x} 0v${HEIGHT}m3 ${TOP + 19 - HEIGHT}l6 -6l-6 -6`;
    return thefts.map((it) => drawn("path", "theft", { d: path(this.x(it.from)) }));
  }
}

/** The heading of a manager's names. */
class Heading {
  constructor(manager) {
    this.manager = manager;
    const heading = element("h2", "", element("bdi", "", legible(manager.origin)));
    if (!manager.isDefault) {
      heading.append(element("span", "bucket", "bucket ", element("bdi", "", legible(manager.bucket))));
    }
    if (!page.origin) {
      const link = element("a", "", "this origin alone");
      link.href = `#origin=${encodeURIComponent(manager.origin)}`;
      heading.append(link);
    }
    this.leftOut = element("p", "left-out");
    this.root = element("div", "heading", heading, this.leftOut);
  }

  show() {
    const { leftOut } = this.manager;
    hide(this.leftOut, leftOut === 0);
    write(this.leftOut, `Not listed: ${counted(leftOut, "request")} of this origin and bucket.`);
  }
}

/** The headings and rows, of which those near what is in sight are there; in the others' place is room. */
class List {
  #entries = [];
  #there = [];
  #tops = new Float64Array(1);
  #width = 0;
  #isAsked = false;

  constructor() {
    const ask = () => this.#ask();
    addEventListener("scroll", ask, { passive: true });
    addEventListener("resize", ask);
    new ResizeObserver(ask).observe(byId("list"));
  }

  /** Has the lanes that pass the filter, under their headings, and answers how many these are. */
  arrange(history, filter) {
    this.#entries = [];
    let passed = 0;
    for (const manager of history.inOrder) {
      const lanes = filter.isEmpty ? manager.inOrder : manager.inOrder.filter((it) => filter.passes(it));
      if (lanes.length > 0) this.#entries.push(manager, ...lanes);
      passed += lanes.length;
    }
    return passed;
  }

  /** Shows what is in sight as it is now. */
  show() {
    for (const it of this.#there) it.view.show();
    this.#forgetHeights();
    for (let turn = 0; turn < 4; turn += 1) {
      this.#reckon();
      this.#put(this.#range());
      if (!this.#measure()) break;
    }
  }

  /** Moves the lanes to what their right edge is now. */
  shift(edge) {
    for (const it of this.#there) if (it instanceof Lane) it.view.shift(edge);
  }

  /** Shows once, in the next frame, whatever asks until then. */
  #ask() {
    if (this.#isAsked) return;
    this.#isAsked = true;
    requestAnimationFrame(() => {
      this.#isAsked = false;
      this.show();
    });
  }

  #forgetHeights() {
    const { clientWidth } = byId("list");
    if (clientWidth !== this.#width) this.#entries.forEach((it) => (it.height = undefined));
    this.#width = clientWidth;
  }

  #reckon() {
    this.#tops = new Float64Array(this.#entries.length + 1);
    this.#entries.forEach((it, index) => {
      this.#tops[index + 1] = this.#tops[index] + (it.height ?? (it instanceof Lane ? ROW : HEADING));
    });
  }

  /** From which entry on, and up to which, they are in sight. */
  #range() {
    const begin = -byId("list").getBoundingClientRect().top;
    const last = Math.min(this.#indexAt(begin + innerHeight + OVER) + 1, this.#entries.length);
    return [Math.min(this.#indexAt(begin - OVER), last), last];
  }

  #indexAt(y) {
    let [low, high] = [0, this.#entries.length];
    while (high - low > 1) {
      const middle = (low + high) >> 1;
      if (this.#tops[middle] <= y) low = middle;
      else high = middle;
    }
    return low;
  }

  #put([first, last]) {
    const entries = this.#entries.slice(first, last);
    const kept = new Set(entries);
    for (const it of this.#there) if (!kept.has(it)) it.view = undefined;
    this.#there = entries;
    const fresh = entries.filter((it) => it.view === undefined);
    for (const it of fresh) it.view = it instanceof Lane ? new Row(it) : new Heading(it);
    place(byId("shown"), entries.map((it) => it.view.root));
    byId("above").style.height = `${this.#tops[first]}px`;
    byId("below").style.height = `${this.#tops.at(-1) - this.#tops[last]}px`;
    for (const it of fresh) it.view.show();
  }

  /** Whether a height isn't what was reckoned. */
  #measure() {
    const width = byId("shown").querySelector(".lane")?.clientWidth;
    if (width && width !== page.laneWidth) {
      page.laneWidth = width;
      this.shift(page.edge());
    }
    let isOther = false;
    for (const it of this.#there) {
      const { height } = it.view.root.getBoundingClientRect();
      isOther ||= height !== it.height;
      it.height = height;
    }
    return isOther;
  }
}

// Looking.

const UNREADABLE = "The server's answer can't be read";

/** The page: looks twice a second, unless it is paused, and shows what it saw. */
class Page {
  filter = new Filter();
  history = new History();
  laneWidth = 400;
  isPaused = false;
  #list = new List();
  /** Why looks fail, and since when. */
  #fault = null;
  #frozen = 0;
  /** Each start of looking has a number, so that one that was ended does no more. */
  #turn = 0;
  #asking = new AbortController();

  get isLost() {
    return this.#fault !== null;
  }

  /** The origin that the page shows alone, or null. */
  get origin() {
    return new URLSearchParams(location.hash.slice(1)).get("origin");
  }

  /** The time of the lanes' right edge. */
  edge() {
    return (this.isPaused ? this.#frozen : performance.now()) - BEHIND;
  }

  begin() {
    byId("filter").oninput = () => this.#setFilter();
    byId("waited").onchange = () => this.#setFilter();
    byId("pause").onclick = () => this.#togglePause();
    addEventListener("hashchange", () => {
      this.history = new History();
      this.#fault = null;
      this.#begin();
    });
    this.#setFilter();
    this.#begin();
    this.#move();
  }

  /** Moves the lanes some fifteen times a second, or with each look for who wants less motion. */
  #move() {
    const still = matchMedia("(prefers-reduced-motion: reduce)");
    let last = 0;
    const frame = (at) => {
      requestAnimationFrame(frame);
      if (at - last < 60 || this.isPaused || still.matches) return;
      last = at;
      this.#list.shift(this.edge());
    };
    requestAnimationFrame(frame);
  }

  #begin() {
    this.#end();
    this.show();
    if (!this.isPaused) this.#look(this.#turn);
  }

  #end() {
    this.#turn += 1;
    this.#asking.abort();
  }

  async #look(turn) {
    const began = performance.now();
    const found = await this.#ask().catch(({ message }) => ({ message }));
    if (turn !== this.#turn) return;
    const message = found.message ?? this.#take(found);
    const since = this.#fault?.since ?? new Date().toTimeString().slice(0, 8);
    this.#fault = message && { message, since };
    this.show();
    const took = performance.now() - began;
    // (a server that is slow is asked for half of the time at most)
    const rest = this.isLost ? 2 * EACH : Math.max(EACH - took, took);
    setTimeout(() => turn === this.#turn && this.#look(turn), rest);
  }

  /** Why an answer is none, or null. */
  #take({ answer, at }) {
    try {
      this.history.observe(answer, at);
      return null;
    } catch {
      return UNREADABLE;
    }
  }

  /** What the server answers, and when it did. */
  async #ask() {
    this.#asking = new AbortController();
    const timer = setTimeout(() => this.#asking.abort(), PATIENCE);
    const query = this.origin ? `?origin=${encodeURIComponent(this.origin)}` : "";
    const how = { cache: "no-store", redirect: "error", signal: this.#asking.signal };
    try {
      const response = await fetch(`/locks${query}`, how).catch(() => fail("The server can't be reached"));
      const at = performance.now();
      if (response.status === 401) fail("The server wants its token: load this page again");
      if (!response.ok) fail(`The server answers with status ${response.status}`);
      return { at, answer: await response.json().catch(() => fail(UNREADABLE)) };
    } finally {
      clearTimeout(timer);
    }
  }

  #setFilter() {
    const words = byId("filter").value.toLowerCase().split(/\s+/);
    this.filter.words = words.filter((it) => it !== "");
    this.filter.isWaited = byId("waited").checked;
    this.show();
  }

  #togglePause() {
    this.#frozen = performance.now();
    this.isPaused = !this.isPaused;
    byId("pause").setAttribute("aria-pressed", String(this.isPaused));
    this.#begin();
  }

  show() {
    const passed = this.#list.arrange(this.history, this.filter);
    this.#list.show();
    this.#showState();
    this.#showSummary(passed);
  }

  #showState() {
    const fault = this.#fault && `${this.#fault.message}, since ${this.#fault.since}. Trying again.`;
    const live = this.history.since > 0 ? "Live" : "Connecting";
    write(byId("state"), this.isPaused ? "Paused" : (fault ?? live));
    byId("state").className = this.isPaused ? "paused" : fault ? "fault" : "";
    hide(byId("alone"), !this.origin);
  }

  #showSummary(passed) {
    const { lanes, leftOut, since } = this.history;
    const sum = (of) => lanes.reduce((found, it) => found + of(it), 0);
    const pending = sum((it) => it.pending.size);
    const said = [`${counted(sum((it) => it.held.size), "lock")} held, ${grouped.format(pending)} waiting`];
    said.push(`${counted(sum((it) => (it.isFree ? 0 : 1)), "name")} in use`);
    if (pending > 0) said.push(longestWait(lanes, since));
    if (passed < lanes.length) said.push(`${grouped.format(passed)} of ${counted(lanes.length, "name")} shown`);
    const text = lanes.length === 0 ? "No lock is held or waited for." : `${said.join("; ")}.`;
    write(byId("summary"), since > 0 ? text : "");
    hide(byId("left_out"), leftOut.managers === 0);
    const managers = counted(leftOut.managers, "origin or bucket", "origins or buckets");
    const rows = leftOut.rows > 0 ? `, with ${counted(leftOut.rows, "request")}` : "";
    write(byId("left_out"), `Not listed: ${managers}${rows}.`);
  }
}

function fail(message) {
  throw new Error(message);
}

function longestWait(lanes, now) {
  const asked = (lane) => lane.pending.values().next().value?.asked ?? Infinity;
  const lane = lanes.reduce((found, it) => (asked(it) < asked(found) ? it : found));
  return `the longest wait is ${duration(now - asked(lane))}, for ${legible(lane.name) || "the empty name"}`;
}

const page = new Page();
page.begin();
</script>
</body>
</html>
"##;

/// Its `Content-Security-Policy`: it may run its own script, use its own style, and ask its own server.
pub const POLICY: &str =
    "default-src 'none'; script-src 'sha256-Yrv6Wab8S3z1Ci+BdakRzn07WqzzR167DM0tl557Z04='; style-src 'sha256-HtVSz0Lm8yz9oHqfseinTHGX4GhSJyLSwUtOo5ZE5TM='; connect-src 'self'; img-src 'none'; base-uri 'none'; form-action 'none'; frame-ancestors 'none'";
