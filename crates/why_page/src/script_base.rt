//! What all parts of the page's script use.

/// This part of the script.
pub(crate) const BASE: &str = r##"'use strict';

// What the page shows is data of one job each. Texts in it come from strangers, so they only become text nodes.
const JOBS = JSON.parse(document.getElementById('data').textContent);
const MOST_ROWS = 5000, MOST_OPEN = 8;

const FORMAT = new Intl.NumberFormat('en-US');
const number = (value) => value === undefined || value === null ? '' : FORMAT.format(value);
const share = (part, whole) => {
  const percent = 100 * part / Math.max(whole, 1);
  return part > 0 && percent < .1 ? '<0.1%' : percent.toFixed(1) + '%';
};
const short = (value) => {
  const [size, unit] = [[1e9, 'G'], [1e6, 'M'], [1e3, 'k'], [1, '']].find(([least]) => value >= least) ?? [1, ''];
  return +(value / size).toFixed(1) + unit;
};
const plural = (count, one, many = one + 's') => `${number(count)} ${count === 1 ? one : many}`;

function fill(node, attributes, children) {
  for (const [name, value] of Object.entries(attributes)) node.setAttribute(name, value);
  const nodes = children.flat(Infinity).map((child) => child instanceof Node ? child : document.createTextNode(child));
  node.append(...nodes);
  return node;
}
const make = (tag, attributes, ...children) => fill(document.createElement(tag), attributes, children);
const draw = (tag, attributes, ...children) =>
  fill(document.createElementNS('http://www.w3.org/2000/svg', tag), attributes, children);

function table(caption, heads, rows) {
  const head = heads.map(([text, kind]) => make('th', {scope: 'col', class: kind}, text));
  return make('table', {}, make('caption', {class: 'heard'}, caption),
    make('thead', {}, make('tr', {}, head)), make('tbody', {}, rows));
}
const row = (cells) => make('tr', {}, cells.map(([child, kind]) => make('td', {class: kind}, child)));
const scroll = (name, child) => make('div', {class: 'scroll', tabindex: 0, role: 'region', 'aria-label': name}, child);
const as_table = (name, caption, heads, rows) =>
  make('details', {}, make('summary', {}, 'The same as a table'), scroll(name, table(caption, heads, rows)));
const section = (kind, title, remark, ...children) =>
  make('section', {class: kind}, make('h2', {}, title, ' ', make('small', {}, remark)), children);
function button(text, press) {
  const node = make('button', {type: 'button'}, text);
  node.addEventListener('click', press);
  return node;
}

// Draws when the width of the drawing is known, when it changes, and when it is asked to.
function drawing(paint) {
  const place = make('div', {class: 'drawing'});
  let width = 0;
  const again = () => {
    if (width) place.replaceChildren(paint(width));
  };
  new ResizeObserver(() => {
    if (place.clientWidth === width || !place.clientWidth) return;
    width = place.clientWidth;
    again();
  }).observe(place);
  return {place, again};
}

const is_good = (job) => job.end === 'RETURNED', is_refused = (job) => job.end.startsWith('REFUSED');
// The member of the limits that ended a job, or none.
function passed_of(job) {
  const [, fault] = /^MEMORY (M\d)/.exec(job.end) ?? [];
  return {M1: 'words', M2: 'cells', M3: 'calls'}[fault] ?? (job.end === 'BUDGET' ? 'budget' : null);
}
const end_of = (job) => make('span', {class: is_good(job) ? 'end good' : 'end'}, job.end);
const last_of = (job) => job.last ?? job.line;
const text_of = (job, line) => job.code.lines[line - job.code.first] ?? '';
// The text of a line without a comment at its end.
const code_of = (job, line) => text_of(job, line).replace(/(\S)\s*\{.*$/, '$1').trim();
const name_of = (job, place) => job.functions[place]?.name ?? '(more)';
const line_id = (job, line) => `job-${job.job}-line-${line}`;
const line_link = (job, line, ...children) => make('a', {href: '#' + line_id(job, line)}, children);

// What is counted: of a job in all, of a line, of a chain of functions, and of a line of a source.
const UNITS = {
  instructions: {all: (job) => job.instructions,
    line: (row) => row[1], chain: (row) => row[3], source: (row) => row[2]},
  elements: {all: (job) => job.functions.reduce((sum, {elements}) => sum + elements, 0),
    line: (row) => row[2], chain: (row) => row[4], source: (row) => row[3]},
};

// Colours that stay apart for colour-blind eyes, each with the colour of a text on it. The functions that did most have
// these, the others have paler ones, and the rest of a chain is grey.
const COLOURS = [['#4477aa', '#fff'], ['#ee8866', '#000'], ['#44bb99', '#000'], ['#eedd88', '#000'],
  ['#aa3377', '#fff'], ['#77aadd', '#000'], ['#bbcc33', '#000']];
const GREY = ['#9aa0a6', '#000'];
const pale = (rank) => [`hsl(${(rank * 137.5) % 360} 40% ${[70, 78, 86][rank % 3]}%)`, '#000'];
function colours_of(job) {
  const part_of = (place, unit) => job.functions[place][unit] / Math.max(UNITS[unit].all(job), 1);
  const weights = job.functions.map((_, place) => Math.max(...Object.keys(UNITS).map((unit) => part_of(place, unit))));
  const places = job.functions.map((_, place) => place).sort((left, right) => weights[right] - weights[left]);
  const found = [...job.functions.map(() => GREY), GREY];
  places.forEach((place, rank) => { found[place] = COLOURS[rank] ?? pale(rank); });
  return found;
}
function swatch(colour) {
  const node = make('span', {class: 'swatch', 'aria-hidden': 'true'});
  node.style.background = colour[0];
  return node;
}
"##;
