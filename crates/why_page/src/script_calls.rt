//! The functions that ran inside one another.

/// This part of the script.
pub(crate) const CALLS: &str = r##"
// The functions that ran inside one another.

// Each chain with what ran in it altogether, where it begins, and how deep it is. Outer chains come first.
function chains_of(job, unit) {
  const chains = job.calls.map((row) => {
    const [outer, place, calls] = row, own = UNITS[unit].chain(row);
    return {outer, place, calls, own, all: own, depth: 0, inner: []};
  });
  for (let at = chains.length - 1; at > 0; at -= 1) chains[chains[at].outer].all += chains[at].all;
  chains.forEach((chain, at) => {
    if (at > 0) {
      chain.depth = chains[chain.outer].depth + 1;
      chain.around = chains[chain.outer];
      chain.around.inner.push(chain);
    }
  });
  const order = [], todo = [chains[0]];
  chains[0].from = 0;
  while (todo.length) {
    const chain = todo.pop();
    order.push(chain);
    chain.inner.sort((left, right) => right.all - left.all);
    let begin = chain.from;
    for (const inner of chain.inner) {
      inner.from = begin;
      begin += inner.all;
    }
    todo.push(...[...chain.inner].reverse());
  }
  return order;
}
// Whether a chain is drawn: it lies in what is enlarged, or around it.
const is_inside = (chain, whole) => chain.from >= whole.from && chain.from + chain.all <= whole.from + whole.all;
const is_around = (chain, whole) => chain.depth < whole.depth && chain.from <= whole.from
  && chain.from + chain.all >= whole.from + whole.all;

function chain_text(job, chain, flame) {
  const {order, unit} = flame, whole = order[0].all, name = name_of(job, chain.place);
  return `${name}: ${plural(chain.calls, 'call')}, ${number(chain.all)} ${unit} with inner calls `
    + `(${share(chain.all, whole)}), ${number(chain.own)} its own`;
}
function bar_of(job, chain, flame, width) {
  const {whole, colours, height} = flame, scale = width / Math.max(whole.all, 1);
  const is_wide = is_around(chain, whole), x = is_wide ? 0 : (chain.from - whole.from) * scale;
  const size = is_wide ? width : chain.all * scale, y = chain.depth * height;
  const [back, ink] = colours[chain.place], name = name_of(job, chain.place), room = Math.floor((size - 10) / 7.4);
  const text = room < 3 ? '' : name.length <= room ? name : name.slice(0, room - 1) + '\u2026';
  const word = draw('text', {x: x + 5, y: y + 15}, text), function_line = job.functions[chain.place]?.line;
  word.style.fill = ink;
  const rect = draw('rect', {x, y, width: size, height: height - 1, fill: back});
  const link = function_line ? {href: '#' + line_id(job, function_line)} : {};
  const title = draw('title', {}, chain_text(job, chain, flame));
  const bar = draw('a', {...link, tabindex: -1, class: 'chain'}, title, rect, word);
  bar.addEventListener('pointermove', () => flame.pick(chain));
  bar.addEventListener('focus', () => flame.pick(chain));
  chain.bar = bar;
  return bar;
}
function paint_calls(job, flame, width) {
  const {order, whole, height} = flame, least = .5 * Math.max(whole.all, 1) / width;
  const there = order.filter((chain) => is_around(chain, whole) || is_inside(chain, whole));
  for (const chain of order) chain.bar = null;
  const drawn = there.filter((chain) => chain.all >= least), narrow = there.length - drawn.length;
  const depth = Math.max(...drawn.map((chain) => chain.depth)) + 1;
  flame.narrow.textContent = narrow ? `${plural(narrow, 'chain')} of ${number(there.length)} `
    + `${narrow === 1 ? 'is' : 'are'} too narrow to be drawn here; the table below has all` : '';
  const bars = drawn.map((chain) => bar_of(job, chain, flame, width));
  flame.mark();
  return draw('svg', {viewBox: `0 0 ${width} ${depth * height}`, role: 'group', class: 'flame'},
    draw('title', {}, 'functions that ran inside one another; the table below has the same'),
    draw('g', {class: 'bars'}, bars));
}
// The arrow keys go from bar to bar: to the outer and the inner one, and to those beside it.
function next_bar(chain, key) {
  const beside = (chain.around?.inner ?? [chain]).filter(({bar}) => bar), at = beside.indexOf(chain);
  const found = {ArrowUp: chain.around, ArrowDown: chain.inner.find(({bar}) => bar), ArrowRight: beside[at + 1],
    ArrowLeft: beside[at - 1]}[key];
  return found?.bar ? found : null;
}
// What the flame graph shows: the chain that is picked, the one that is enlarged, and the functions that are searched.
function flame_of(job, colours, unit) {
  const order = chains_of(job, unit), output = make('output', {}), found = make('output', {class: 'dim'});
  const flame = {order, unit, colours, height: 22, whole: order[0], picked: order[0], sought: '', output, found,
    narrow: make('p', {class: 'dim'})};
  flame.pick = (chain) => {
    if (flame.picked.bar) flame.picked.bar.tabIndex = -1;
    flame.picked = chain;
    output.textContent = chain_text(job, chain, flame);
    if (chain.bar) chain.bar.tabIndex = 0;
  };
  const has = ({place}) => flame.sought !== '' && name_of(job, place).includes(flame.sought);
  flame.mark = () => {
    for (const chain of order) chain.bar?.classList.toggle('found', has(chain));
    const hits = order.filter(has), outer = hits.filter((chain) => !around_of(chain).some(has));
    const all = outer.reduce((sum, chain) => sum + chain.all, 0);
    found.textContent = flame.sought === '' ? ''
      : `${plural(hits.length, 'chain')}, ${share(all, order[0].all)} of the ${unit} with their calls`;
    if (flame.picked.bar) flame.picked.bar.tabIndex = 0;
  };
  return flame;
}
function around_of(chain) {
  const found = [];
  for (let outer = chain.around; outer; outer = outer.around) found.push(outer);
  return found;
}
function flame_controls(flame, again) {
  const name = 'search for a function', input = make('input', {type: 'search', 'aria-label': name, placeholder: name});
  input.addEventListener('input', () => {
    flame.sought = input.value;
    flame.mark();
  });
  const show = (chain) => {
    flame.whole = chain;
    whole.disabled = chain === flame.order[0];
    again();
  };
  const enlarge = button('enlarge', () => show(flame.picked)), whole = button('whole run', () => show(flame.order[0]));
  whole.disabled = true;
  return make('div', {class: 'pick'}, flame.output, make('div', {class: 'ranges'}, enlarge, whole, input, flame.found));
}
function calls(job, colours, unit) {
  const flame = flame_of(job, colours, unit), {order} = flame, whole = Math.max(UNITS[unit].all(job), 1);
  const rows = order.map((chain) => row([
    ['\u00a0\u00a0'.repeat(Math.min(chain.depth, 24)) + name_of(job, chain.place), 'name'],
    [number(chain.calls), 'number'], [number(chain.own), 'number'], [number(chain.all), 'number'],
    [share(chain.all, whole), 'number']]));
  const heads = [['function, inside those above', ''],
    ...['calls', 'own', 'with calls', 'share'].map((text) => [text, 'number'])];
  const {place, again} = drawing((width) => paint_calls(job, flame, width));
  place.addEventListener('keydown', (event) => {
    const next = next_bar(flame.picked, event.key);
    if (!next) return;
    event.preventDefault();
    flame.pick(next);
    next.bar.focus();
  });
  flame.pick(order[0]);
  return section('calls', 'Calls', `the width is the ${unit} there, with calls; a function that calls itself is a bar`,
    place, flame.narrow, flame_controls(flame, again),
    as_table('calls', 'Functions that ran inside one another', heads, rows));
}
"##;
