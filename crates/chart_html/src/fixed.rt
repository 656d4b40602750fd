//! The fixed text of a page: what it looks like, and what it does, by a small script without libraries. Between its
//! four parts stand the title, the picture and the data.

/// Up to the title.
pub const BEGIN: &str = "<!doctype html>
<html lang='en'>
<head>
<meta charset='utf-8'>
<meta name='viewport' content='width=device-width'>
<title>";

/// Behind the title, up to the picture: what the page looks like.
pub const STYLE: &str = "</title>
<style>
:root{color-scheme:light dark}
body{margin:0;font-family:system-ui,-apple-system,'Segoe UI',Roboto,'Noto Sans','DejaVu Sans',sans-serif;font-size:13px;color:#1a202c;background:#fff}
:focus-visible{outline:2px solid #2563eb;outline-offset:1px}
header{display:flex;flex-wrap:wrap;gap:2px 24px;align-items:baseline;padding:10px 24px 6px}
h1{font-size:20px;margin:0;flex:1 1 18em}
header p{margin:0;flex:1 1 100%;color:#64748b}
#ended{font-size:14px;font-weight:700}
#picture{position:relative;display:grid;justify-content:start;justify-items:start;align-items:start;overflow:auto;max-height:calc(100vh - 11em);border-bottom:1px solid #cbd5e1}
#picture svg{display:block;grid-area:1/1}#picture svg:first-child{grid-row:1/3}
#names{position:sticky;left:0;z-index:2}
#numbers{position:sticky;bottom:0;align-self:end;z-index:1}
#corner{position:sticky;bottom:0;left:0;align-self:end;z-index:3}
@media screen{#picture .title,#picture .sub,#picture .right,#picture .good,#picture .fair,#picture .bad{visibility:hidden}}
#cursor{stroke:#2563eb;fill:#2563eb;stroke-width:1.5;opacity:.8}
#controls{position:sticky;top:0;bottom:0;z-index:4;display:flex;flex-wrap:wrap;gap:8px;align-items:center;padding:8px 24px 4px;background:#fff}
#controls button{font-size:15px;width:34px;height:30px;border:1px solid #94a3b8;border-radius:5px;background:none;color:inherit;cursor:pointer}
#row{flex:1;min-width:6em;accent-color:#2563eb}
#turn{flex:0 1 17em;min-width:12em;font-weight:600}
#said{min-height:1.4em;padding:0 24px;color:#8a4b00;font-weight:600}
#state{display:flex;flex-wrap:wrap;gap:6px 36px;padding:0 24px 24px}
#state section{max-width:100%;overflow-x:auto}
#state h2{font-size:13px;color:#64748b;margin:12px 0 4px}
table{border-collapse:collapse}
th,td{text-align:left;padding:2px 14px 2px 0;border-bottom:1px solid #e2e8f0;font-weight:400;white-space:nowrap;font-variant-numeric:tabular-nums}
th{color:#64748b;font-size:11px}
#words{padding:0 24px 24px;max-width:70em;line-height:1.5}
#words summary{cursor:pointer;color:#64748b}
#words dl{display:grid;grid-template-columns:max-content 1fr;gap:2px 16px;margin:8px 0 0}
#words dd{margin:0}
td.changed,tr.gone td{background:#fdf0d8}
tr.gone td{color:#64748b}
.sheet{display:none}
@media(max-width:600px){header,#controls,#said,#state,#words{padding-left:10px;padding-right:10px}#words dl{display:block}}
@media screen and (prefers-color-scheme:dark){
:focus-visible{outline-color:#60a5fa}
body,#controls{color:#e2e8f0;background:#0f141c}
#picture{border-color:#334155}header p,#state h2,th,tr.gone td,#words summary{color:#94a3b8}th,td{border-color:#233044}
#row{accent-color:#60a5fa}
#said{color:#f6ad55}td.changed,tr.gone td{background:#3a2c12}#cursor{stroke:#60a5fa;fill:#60a5fa}
}
@page{size:landscape;margin:10mm}
@media print{
:root{color-scheme:light}
header,#controls,#said,#state,#words,#cursor,#names,#numbers,#corner{display:none}
#picture{display:block;max-height:none;overflow:visible;border:0}
#picture.cut>svg{position:absolute;width:0!important;height:0!important}
.sheet{display:flex;align-items:start;break-after:page}.sheet svg{flex:none}
.sheet:last-child{break-after:auto}
}
</style>
</head>
<body>
<div id='picture' role='region' aria-label='picture of the run' tabindex='0'>
";

/// Behind the picture, up to the data: the slider, its buttons, the tables, and what their columns say.
pub const CONTROLS: &str = "</div>
<div id='controls'>
<button id='play' aria-label='play' title='play and stop: space key'>&#9654;</button>
<button id='back' aria-label='a turn back' title='a turn back: left arrow'>&#8249;</button>
<button id='on' aria-label='a turn on' title='a turn on: right arrow'>&#8250;</button>
<input id='row' type='range' min='0' max='0' value='0' aria-label='turns made'>
<output id='turn' for='row' aria-live='off'></output>
</div>
<div id='said' aria-live='polite'></div>
<div id='state'>
<section><h2>Threads</h2><table id='threads' aria-label='threads'></table></section>
<section><h2>Locks</h2><table id='locks' aria-label='locks'></table></section>
<section><h2>Queues</h2><table id='queues' aria-label='queues'></table></section>
<section><h2>Tables</h2><table id='tables' aria-label='tables'></table></section>
</div>
<details id='words'>
<summary>What the tables say</summary>
<dl>
<dt>base, runs as</dt><dd>The thread's own priority, and the one it runs as: the best that is lent to it, or its own. The smaller number is the more important.</dd>
<dt>walk at</dt><dd>The lock or the thread at which the thread's walk along the chain of owners stands: there it lends next.</dd>
<dt>word</dt><dd>The lock's one word in memory. It says who holds the lock and on which sides threads wait for it, as the columns beside it tell.</dd>
<dt>slot</dt><dd>The number of the hash chain in which the lock's queue lies.</dd>
<dt>head, free list</dt><dd>Each thread brings a queue of its own, so that blocking takes no memory. Waiters stand on the one that the first of them lent, the head; those of the others are kept in the free list.</dd>
<dt>exclusive, shared</dt><dd>Who waits to have the lock alone, and who to share it. Behind the @ is the priority by which the queue keeps its order.</dd>
</dl>
</details>
<script type='application/json' id='rows'>
";

/// Behind the data: what the page does with it, and its end.
pub const SCRIPT: &str = "</script>
<script>
'use strict';
const data = JSON.parse(document.getElementById('rows').textContent);
const slider = document.getElementById('row');
const box = document.getElementById('picture');
const picture = box.querySelector('svg');
const place = name => Number(picture.dataset[name]);
const cursor = document.createElementNS('http://www.w3.org/2000/svg', 'path');
cursor.id = 'cursor';
picture.append(cursor);
const queues = data.queues.map(change => [change.row, change.lines]);
slider.min = data.first;
slider.max = data.last;

// How many of a list's entries, which ascend, come up to n.
function upTo(list, n) {
  let low = 0, high = list.length;
  while (low < high) {
    const middle = (low + high) >> 1;
    if (list[middle][0] <= n) low = middle + 1; else high = middle;
  }
  return low;
}
// The value of a track in a row: that of the last change up to it.
const at = (track, row) => track[upTo(track, row) - 1][1];
// The entry of just that turn, if there is one.
function ofTurn(list, turn) {
  const entry = list[upTo(list, turn) - 1];
  return entry && entry[0] === turn ? entry : null;
}
const thread = t => data.threads[t].name;
const names = list => list.join(', ') || '-';
const waiters = list => names(list.map(w => w[0] + '@' + w[1]));

// What a thread does, in the words of the bars.
function stateOf(t, row) {
  const on = at(t.on, row);
  if (at(t.stands, row)) return at(t.stands, row);
  if (at(t.wait, row) === 'woken') return 'woken';
  if (on) return 'taken off ' + on;
  if (row >= t.done) return 'done';
  return t === data.threads[(ofTurn(data.marks, row - 1) || [])[1]] ? 'runs' : 'ready';
}
function holdsOf(t, row) {
  return names(t.held.map((track, l) => [at(track, row), data.locks[l].name])
    .filter(h => h[0]).map(h => h[1] + (h[0] === 's' ? ' (shared)' : '')));
}

// The holder that a lock word shows: bit 2 says that one thread owns the lock, else the bits above count sharers.
function holderOf(word) {
  const n = Math.floor(word / 8);
  if (word & 4) return 'held by ' + thread(n);
  return n ? 'shared by ' + n : 'free';
}
function shownOf(word) {
  return names([word & 1 ? 'exclusive' : '', word & 2 ? 'shared' : ''].filter(side => side));
}
function tablesAt(row) {
  const tables = new Map();
  for (const [, lock, key, adds, value] of data.edits.slice(0, upTo(data.edits, row))) {
    const name = data.locks[lock].name + ' ' + key;
    const before = adds ? BigInt(tables.get(name) || 0) : 0n;
    tables.set(name, BigInt.asUintN(64, before + BigInt(value)).toString());
  }
  return [...tables].map(([name, value]) => [...name.split(' '), value]);
}
const heads = {
  threads: ['thread', 'base', 'runs as', 'state', 'walk at', 'holds'],
  locks: ['lock', 'kind', 'word', 'holder', 'waiters shown'],
  queues: ['queue', 'slot', 'head', 'free list', 'exclusive', 'shared'],
  tables: ['lock', 'key', 'value'],
};
function rowsOf(row) {
  return {
    threads: data.threads.map(t => [t.name, at(t.base, row), at(t.runs, row), stateOf(t, row),
      at(t.walk, row) || '-', holdsOf(t, row)]),
    locks: data.locks.map(l => [l.name, l.kind, at(l.word, row), holderOf(at(l.word, row)), shownOf(at(l.word, row))]),
    queues: at(queues, row).map(q => [q.name, q.slot, q.head, names(q.free), waiters(q.excl), waiters(q.shared)]),
    tables: tablesAt(row),
  };
}

// A line of a table: its head, or a row with the same row before the last turn, or one that the last turn took away.
function lineOf(cells, tag, before) {
  const line = document.createElement('tr');
  cells.forEach((cell, i) => {
    const td = document.createElement(tag);
    const text = before === 'gone' ? td.appendChild(document.createElement('del')) : td;
    text.textContent = cell;
    if (tag === 'th') td.scope = 'col';
    else if (before !== 'gone' && (!before || before[i] !== cell)) td.className = 'changed';
    line.append(td);
  });
  if (before === 'gone') line.className = 'gone';
  return line;
}
// Fills a table. What the last turn changed is marked, and what it took away is struck out where it was.
function fill(id, rows, rowsBefore) {
  const key = r => id === 'tables' ? r[0] + ' ' + r[1] : r[0];
  const now = new Set(rows.map(key)), before = new Map(rowsBefore.map(r => [key(r), r]));
  const lines = [lineOf(heads[id], 'th')];
  let placed = 0;
  const placeUpTo = last => {
    while (placed < rows.length) {
      const r = rows[placed++];
      lines.push(lineOf(r, 'td', before.get(key(r))));
      if (key(r) === last) return;
    }
  };
  for (const r of rowsBefore) {
    if (now.has(key(r))) placeUpTo(key(r)); else lines.push(lineOf(r, 'td', 'gone'));
  }
  placeUpTo(null);
  document.getElementById(id).replaceChildren(...lines);
}

// A picture of a part of the picture: a paper of that size, at that place.
function part(x, y, width, height, contents) {
  const svg = document.createElementNS(picture.namespaceURI, 'svg');
  svg.setAttribute('viewBox', [x, y, width, height].join(' '));
  const paper = svg.appendChild(document.createElementNS(svg.namespaceURI, 'rect'));
  paper.setAttribute('class', 'paper');
  for (const [name, value] of Object.entries({x, y, width, height})) paper.setAttribute(name, value);
  svg.append(...contents);
  return svg;
}
const wide = Number(picture.getAttribute('width')), high = Number(picture.getAttribute('height'));
const left = place('left'), lanes = {top: place('top') - 20, bottom: place('bottom') + 4};
const numbersHigh = 18;
const placeOf = (text, axis) => Number(text.getAttribute(axis));
const texts = [...picture.querySelectorAll('text')];
// Names, and the numbers of turns, stay in view: copies of them lie before the picture.
const copies = (x, y) => texts.filter(t => x(placeOf(t, 'x')) && y(placeOf(t, 'y'))).map(t => t.cloneNode(true));
const inLanes = y => y > lanes.top && y <= lanes.bottom;
const below = y => y > lanes.bottom && y <= lanes.bottom + numbersHigh;
const inNames = x => x < left;
const kept = {
  names: part(0, lanes.top, left - 5, lanes.bottom - lanes.top, copies(inNames, inLanes)),
  numbers: part(0, lanes.bottom, wide, numbersHigh, copies(x => !inNames(x), below)),
  corner: part(0, lanes.bottom, left, numbersHigh, copies(inNames, below)),
};
for (const [id, svg] of Object.entries(kept)) {
  svg.id = id;
  svg.setAttribute('aria-hidden', 'true');
  box.append(svg);
}

// What stands above the lanes in the picture stands above the page, which wraps it.
function begin() {
  const header = document.createElement('header');
  const words = found => [...picture.querySelectorAll(found)].map(t => t.textContent).join(' ');
  const add = (tag, text) => text && Object.assign(header.appendChild(document.createElement(tag)), {textContent: text});
  add('h1', document.title);
  const ended = add('span', words('.good,.fair,.bad'));
  ended.id = 'ended';
  ended.style.color = getComputedStyle(picture.querySelector('.good,.fair,.bad')).fill;
  add('span', words('.right'));
  add('p', words('.sub'));
  box.before(header);
  picture.setAttribute('viewBox', [0, lanes.top, wide, high - lanes.top].join(' '));
}

// Fits the picture into the window where its words stay readable; else it scrolls.
function scale() {
  const all = box.clientWidth / wide;
  return all < 0.6 || all > 1 ? 1 : all;
}
function fit() {
  const by = scale();
  const size = (svg, width, height) => {
    svg.style.width = width * by + 'px';
    svg.style.height = height * by + 'px';
  };
  size(picture, wide, high - lanes.top);
  size(kept.names, left - 5, lanes.bottom - lanes.top);
  size(kept.numbers, wide, numbersHigh);
  size(kept.corner, left, numbersHigh);
  box.style.gridTemplateRows = (lanes.bottom - lanes.top + numbersHigh) * by + 'px auto';
}
function keepInView(x) {
  const at = x * scale(), names = left * scale();
  if (at < box.scrollLeft + names + 20 || at > box.scrollLeft + box.clientWidth - 60) {
    box.scrollLeft = at - names - (box.clientWidth - names) / 3;
  }
}
// The row is kept in the address, so that a link shows it.
let noted = null;
function note(row) {
  clearTimeout(noted);
  noted = setTimeout(() => {
    const address = '#row=' + row;
    try {
      history.replaceState(null, '', address);
    } catch {
      location.replace(address);
    }
  }, 200);
}
function show() {
  const row = Number(slider.value), turn = row - 1, isFirst = row === data.first;
  const now = rowsOf(row), before = isFirst ? now : rowsOf(turn);
  for (const id of Object.keys(heads)) fill(id, now[id], before[id]);
  const mark = ofTurn(data.marks, turn), said = ofTurn(data.said, turn);
  const text = isFirst ? 'before turn ' + row
    : 'turn ' + turn + (mark ? ' \\u00b7 ' + thread(mark[1]) + ': ' + mark[2] : '');
  document.getElementById('turn').textContent = text;
  slider.setAttribute('aria-valuetext', text);
  document.getElementById('said').textContent = said && !isFirst ? said[1] : '';
  const x = left + (isFirst ? 0 : (turn - data.first) * place('column') + Math.floor(place('column') / 2));
  const top = place('top');
  cursor.setAttribute('d', 'M' + (x - 5) + ' ' + (top - 9) + 'h10l-5 8zM' + x + ' ' + top + 'V' + place('bottom'));
  keepInView(x);
}
function move(by) {
  slider.value = Number(slider.value) + by;
  show();
  note(slider.value);
}
let playing = null;
function play() {
  const button = document.getElementById('play');
  if (playing === null) {
    if (slider.value === slider.max) move(data.first - data.last);
    playing = setInterval(() => { if (slider.value === slider.max) play(); else move(1); }, 700);
  } else {
    clearInterval(playing);
    playing = null;
  }
  button.textContent = playing === null ? '\\u25b6' : '\\u23f8';
  button.setAttribute('aria-label', playing === null ? 'play' : 'stop');
}
// Opens the row that the address names, or else the first.
function openRow() {
  const row = new URLSearchParams(location.hash.slice(1)).get('row');
  slider.value = /^[0-9]+$/.test(row) ? row : data.first;
  show();
}
// A click in a column chooses its turn.
function choose(event) {
  const shown = picture.getBoundingClientRect();
  const x = (event.clientX - shown.left) / scale(), y = (event.clientY - shown.top) / scale() + lanes.top;
  const column = Math.floor((x - left) / place('column'));
  const isOutside = column < 0 || column >= data.last - data.first || y > lanes.bottom + numbersHigh;
  if (isOutside || event.target.closest('#names, #corner')) return;
  move(data.first + column + 1 - slider.value);
}
// On paper the picture is cut into sheets: the first has all that stands below the lanes, and the others have the
// names of the lanes before their columns.
const sheetWide = 960;
function cut() {
  const drawn = document.createElementNS(picture.namespaceURI, 'g');
  drawn.id = 'drawn';
  drawn.append(...[...picture.childNodes].filter(n => n !== cursor));
  picture.prepend(drawn);
  const use = () => {
    const copy = document.createElementNS(picture.namespaceURI, 'use');
    copy.setAttribute('href', '#drawn');
    return copy;
  };
  for (let x = 0; x < wide;) {
    const room = x ? sheetWide - left : sheetWide, width = Math.min(room, wide - x);
    const [y, height] = x ? [lanes.top, lanes.bottom + numbersHigh - lanes.top] : [0, high];
    const sheet = box.appendChild(document.createElement('div'));
    sheet.className = 'sheet';
    if (x) sheet.append(part(0, y, left, height, [use()]));
    sheet.append(part(x, y, width, height, [use()]));
    for (const svg of sheet.children) svg.style.width = svg.viewBox.baseVal.width + 'px';
    x += width;
  }
  box.classList.add('cut');
}
function join() {
  const drawn = document.getElementById('drawn');
  if (!drawn) return;
  drawn.replaceWith(...drawn.childNodes);
  for (const sheet of box.querySelectorAll('.sheet')) sheet.remove();
  box.classList.remove('cut');
}
const moves = {ArrowLeft: -1, ArrowRight: 1, PageUp: -10, PageDown: 10, Home: data.first - data.last, End: data.last - data.first};
slider.addEventListener('input', () => { show(); note(slider.value); });
box.addEventListener('click', choose);
document.getElementById('play').addEventListener('click', play);
document.getElementById('back').addEventListener('click', () => move(-1));
document.getElementById('on').addEventListener('click', () => move(1));
document.addEventListener('keydown', event => {
  if (event.altKey || event.ctrlKey || event.metaKey) return;
  if (event.key in moves) move(moves[event.key]);
  else if (event.key === ' ' && !['BUTTON', 'SUMMARY'].includes(event.target.tagName)) play();
  else return;
  event.preventDefault();
});
window.addEventListener('resize', () => { fit(); show(); });
window.addEventListener('hashchange', openRow);
window.addEventListener('beforeprint', cut);
window.addEventListener('afterprint', join);
begin();
fit();
openRow();
</script>
</body>
</html>
";
