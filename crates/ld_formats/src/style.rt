//! What a page looks like, and what its script does.

/// The style of a page: dark or light as the reader's system is, and black on white in print.
pub(crate) const STYLE: &str = "
:root { color-scheme: light dark; --back: #fff; --text: #1c2024; --soft: #5c6670; --line: #d5dae0; --card: #f5f7f9; --bad: #b3261e; --good: #1b6e3c; --mark: #0b57d0; }
@media (prefers-color-scheme: dark) { :root { --back: #14171a; --text: #e4e7ea; --soft: #a0a9b2; --line: #353c43; --card: #1d2226; --bad: #ff8a80; --good: #81c995; --mark: #8ab4f8; } }
* { box-sizing: border-box; }
body { margin: 0 auto; padding: 1.5rem; max-width: 68rem; background: var(--back); color: var(--text); font: 1rem/1.5 system-ui, sans-serif; }
code, .stack, svg text { font-family: ui-monospace, monospace; font-size: .9em; overflow-wrap: anywhere; unicode-bidi: isolate; }
a { color: var(--mark); }
h2 { margin-top: 2.5rem; border-bottom: 1px solid var(--line); }
.bad { color: var(--bad); } .good { color: var(--good); }
.counts { display: grid; grid-template-columns: repeat(auto-fill, minmax(15rem, 1fr)); gap: .75rem; }
.counts div, .violation { border: 1px solid var(--line); border-radius: .5rem; background: var(--card); padding: .75rem 1rem; }
.counts dt { font-weight: 600; } .counts dd { margin: 0; } .counts .figure { font-size: 1.6rem; } .what, .soft { color: var(--soft); }
.group { margin-bottom: 2rem; } .violation { margin: 1rem 0; }
.kind { border: 1px solid currentColor; border-radius: 1rem; padding: 0 .6rem; color: var(--bad); font-size: .85rem; }
figure { margin: 1rem 0; } svg { max-width: 100%; height: auto; }
.box { fill: var(--back); stroke: var(--text); } .arrow { fill: none; stroke: var(--bad); stroke-width: 2; } .head { fill: var(--bad); } .dashed { stroke-dasharray: 6 4; } svg text { fill: var(--text); }
.stack, .held { margin: .25rem 0; } .stack li { list-style: none; }
.source { margin: .25rem 0 .5rem; padding: .25rem .5rem; border-left: 3px solid var(--line); background: var(--back); white-space: pre-wrap; overflow-wrap: anywhere; tab-size: 8; }
.source .number { color: var(--soft); display: inline-block; min-width: 4ch; text-align: right; user-select: none; }
.source mark { background: var(--card); color: inherit; font-weight: 700; } .source mark .number { color: var(--bad); } .source mark .number::before { content: '\\25B8\\A0'; }
.source .byte { border: 1px solid var(--soft); border-radius: .2rem; color: var(--soft); }
table { border-collapse: collapse; width: 100%; } th, td { border: 1px solid var(--line); padding: .3rem .6rem; text-align: left; vertical-align: top; } td.number { text-align: right; }
th button, .walk button { font: inherit; color: inherit; background: none; border: 0; padding: 0; cursor: pointer; text-decoration: underline dotted; text-align: left; }
.filter { display: flex; flex-wrap: wrap; gap: 1rem; margin: 1rem 0; } .filter input[type=search] { flex: 1; min-width: 12rem; font: inherit; padding: .3rem .6rem; }
.walk { display: grid; grid-template-columns: 1fr 1fr 1fr; gap: 1rem; border: 1px solid var(--line); border-radius: .5rem; padding: 1rem; }
.walk ul { margin: 0; padding-left: 1.2rem; }
[hidden] { display: none !important; }
@media print { :root { --back: #fff; --text: #000; --soft: #333; --line: #999; --card: #fff; --bad: #000; --mark: #000; } .filter, .walk { display: none !important; } .violation, tr, .source { break-inside: avoid; } body { max-width: none; padding: 0; } }
";

/// The script of a page: what filters violations and classes, sorts classes, and walks along dependencies. Without it all is
/// shown. It reads names as text alone.
pub(crate) const SCRIPT: &str = "
'use strict';
const all = (query, from = document) => Array.from(from.querySelectorAll(query));
const one = id => document.getElementById(id);
all('.scripted').forEach(it => { it.hidden = false; });

function filterViolations() {
  const word = one('find').value.toLowerCase();
  const kinds = new Set(all('#kinds input').filter(it => it.checked).map(it => it.value));
  let shown = 0;
  for (const it of all('.violation')) {
    it.hidden = !kinds.has(it.dataset.kind) || !it.textContent.toLowerCase().includes(word);
    shown += it.hidden ? 0 : 1;
  }
  for (const group of all('.group')) group.hidden = !all('.violation', group).some(it => !it.hidden);
  one('shown').textContent = shown;
}
if (one('find')) {
  one('find').addEventListener('input', filterViolations);
  all('#kinds input').forEach(it => it.addEventListener('change', filterViolations));
  filterViolations();
}

const body = one('class-rows');
if (one('find-class')) one('find-class').addEventListener('input', () => {
  const word = one('find-class').value.toLowerCase();
  for (const row of body.rows) row.hidden = !row.cells[0].textContent.toLowerCase().includes(word);
});
all('#classes th').forEach((head, at) => {
  const button = document.createElement('button');
  button.textContent = head.textContent;
  head.replaceChildren(button);
  let sign = head.dataset.numbers ? -1 : 1;
  button.addEventListener('click', () => {
    const key = row => row.cells[at].textContent;
    const rows = Array.from(body.rows);
    rows.sort((a, b) => sign * (head.dataset.numbers ? key(a) - key(b) : key(a) < key(b) ? -1 : key(a) > key(b) ? 1 : 0));
    sign = -sign;
    body.append(...rows);
  });
});

const graph = one('graph') ? JSON.parse(one('graph').textContent) : { classes: [], edges: [] };
function list(id, places) {
  one(id).replaceChildren(...places.map(place => {
    const item = document.createElement('li');
    const button = document.createElement('button');
    const name = document.createElement('code');
    name.textContent = graph.classes[place];
    button.append(name);
    button.addEventListener('click', () => walk(place));
    item.append(button);
    return item;
  }));
}
function walk(place) {
  one('walk').hidden = false;
  one('walk-class').textContent = graph.classes[place];
  list('walk-before', graph.edges.filter(it => it[1] === place).map(it => it[0]));
  list('walk-behind', graph.edges.filter(it => it[0] === place).map(it => it[1]));
}
all('#class-rows tr').forEach(row => row.cells[0].addEventListener('click', () => walk(Number(row.dataset.place))));
";
