//! The words, entries or calls over time.

/// This part of the script.
pub(crate) const OVER_TIME: &str = r##"
// Numbers over time: the words that were held, or the entries or calls if the limit on them ended the job.

// The columns: where each begins and ends, and the numbers in it.
function columns_of(job, most, least) {
  const {each, line, ran, 'function': places} = job.columns;
  return most.map((top, place) => ({from: place * each, to: Math.min((place + 1) * each, Math.max(job.instructions, 1)),
    most: top, least: least[place], line: line?.[place], place: places?.[place], ran: ran?.[place]}));
}
// What is drawn: its unit, its columns, its limit, the most of it and where that was first, and what was wanted in the
// end if its limit ended the job.
function words_over_time(job) {
  const {most, least} = job.columns, is_passed = passed_of(job) === 'words';
  return {kind: 'words', title: 'Words held', unit: 'words', columns: columns_of(job, most, least), is_passed,
    limit: job.limits.words, peak: job.peak, peak_at: job.peak_at, wanted: job.wanted ?? null};
}
function levels_over_time(job) {
  const {of, most, wanted} = job.levels, member = {entries: 'cells', calls: 'calls'}[of];
  const columns = columns_of(job, most, most.map(() => 0)).map(({from, to, most}) => ({from, to, most, least: most}));
  const first = columns.findIndex(({most}) => most === job.used[member]);
  const title = {entries: 'Entries of the stack', calls: 'Calls inside one another'}[of];
  return {kind: 'levels', title, unit: of, columns, is_passed: true, limit: job.limits[member], peak: job.used[member],
    peak_at: columns[first]?.to ?? 0, wanted};
}

function steps_between(low, high, count) {
  const raw = (high - low) / count, power = 10 ** Math.floor(Math.log10(Math.max(raw, 1)));
  const step = [1, 2, 5, 10].map((digit) => digit * power).find((size) => size >= raw) ?? 1;
  const begin = Math.ceil(low / step);
  return Array.from({length: Math.max(0, Math.floor(high / step) - begin + 1)}, (_, place) => (begin + place) * step);
}
// The most that is drawn. What was wanted is drawn at twice the limit at most, with an arrow.
function top_of(series, shown) {
  const most = shown.reduce((top, column) => Math.max(top, column.most), 1), {limit, is_passed} = series;
  const is_end = is_passed && shown[shown.length - 1] === series.columns[series.columns.length - 1];
  const wanted = series.wanted ?? limit + 1, cross = is_end ? Math.min(wanted, 2 * limit) : 0;
  const near = limit <= 2 * most || is_end;
  return {near, cross, is_end, is_far: wanted > cross, top: 1.12 * Math.max(most, near ? limit : 0, cross)};
}
function frame_of(series, view, width) {
  const shown = series.columns.slice(view.begin, view.end), height = width < 600 ? 212 : 282;
  const box = {left: 54, right: width - 14, top: 18, bottom: height - 38};
  const first = shown[0].from, last = Math.max(shown[shown.length - 1].to, first + 1);
  const {top, ...ends} = top_of(series, shown);
  return {width, height, box, shown, first, last, is_whole: shown.length === series.columns.length, most: top, ...ends,
    x: (count) => box.left + (box.right - box.left) * (count - first) / (last - first),
    y: (value) => box.bottom - (box.bottom - box.top) * value / top};
}
function axes(frame, unit) {
  const {x, y, box, first, last, is_whole} = frame;
  const rows = steps_between(0, frame.most, 4).map((value) => [
    draw('line', {class: 'grid', x1: box.left, x2: box.right, y1: y(value), y2: y(value)}),
    draw('text', {class: 'soft', x: box.left - 6, y: y(value) + 4, 'text-anchor': 'end'}, short(value))]);
  const room = is_whole ? 100 : 0, name = is_whole ? short : number;
  const marks = steps_between(first, last, frame.width < 600 ? 3 : 6)
    .filter((count) => count > first && x(count) > box.left + room)
    .map((count) => draw('text', {class: 'soft', x: x(count), y: box.bottom + 30,
      'text-anchor': x(count) > box.right - 30 ? 'end' : 'middle'}, name(count)));
  const begin = is_whole ? [draw('text', {class: 'soft', x: box.left, y: box.bottom + 30}, '0 instructions')] : [];
  return [...rows.flat(), ...marks, ...begin,
    draw('text', {class: 'soft', x: box.left - 6, y: 11, 'text-anchor': 'end'}, unit)];
}
function areas({shown, x, y}) {
  const piece = (from, to, low, high) =>
    `M${x(from).toFixed(2)} ${y(low).toFixed(2)}V${y(high).toFixed(2)}H${x(to).toFixed(2)}V${y(low).toFixed(2)}Z`;
  const full = shown.map(({from, to, least}) => piece(from, to, 0, least)).join('');
  const pale = shown.map(({from, to, least, most}) => piece(from, to, least, most)).join('');
  return [draw('path', {class: 'area', d: full}), draw('path', {class: 'area pale', d: pale})];
}
// The band below the area has the colour of the function that ran most in each column.
function band({shown, x, box}, colours) {
  const paths = new Map();
  for (const {from, to, ran} of shown) {
    if (ran === undefined) continue;
    const piece = `M${x(from).toFixed(2)} ${box.bottom + 4}H${x(to).toFixed(2)}v10H${x(from).toFixed(2)}Z`;
    paths.set(ran, (paths.get(ran) ?? '') + piece);
  }
  return [...paths].map(([ran, d]) => draw('path', {class: 'band', d, fill: colours[ran][0]}));
}
// A text beside a place of the drawing, on the side that has more room, and within the axes.
function label(frame, at, height, kind, text) {
  const {left, right} = frame.box, size = Math.min(7 * text.length, right - left - 4);
  const begin = at > (left + right) / 2 ? at - 9 - size : at + 9, x = Math.max(left + 4, Math.min(begin, right - size));
  return draw('text', {class: kind, x, y: height, textLength: size, lengthAdjust: 'spacingAndGlyphs'}, text);
}
function limit_mark(series, {box, y}) {
  const height = y(series.limit);
  return [draw('line', {class: 'limit', x1: box.left, x2: box.right, y1: height, y2: height}),
    draw('text', {class: 'alarm', x: box.left + 4, y: height - 5}, `limit ${number(series.limit)} ${series.unit}`)];
}
function cross_mark(job, series, frame) {
  const end = frame.x(frame.last), height = frame.y(frame.cross);
  const cross = `M${end - 6} ${height - 6}l12 12m0 -12l-12 12`;
  const arrow = `M${end - 6} ${height + 2}l6 -10l6 10M${end} ${height - 8}v16`;
  const text = `line ${job.line} wanted ${series.wanted === null ? 'more' : number(series.wanted)}`;
  return [draw('path', {class: 'stop cross', d: frame.is_far ? arrow : cross}),
    label(frame, end, height - 8, 'alarm', text)];
}
function peak_mark(series, frame) {
  const {x, y, box, first, last, near} = frame, {peak, peak_at, unit, limit} = series;
  if (peak_at < first || peak_at > last) return [];
  const at = x(Math.max(peak_at - .5, first)), is_close = near && Math.abs(y(peak) - y(limit)) < 30;
  const low = Math.min(y(peak) + (is_close ? 20 : -8), box.bottom - 6);
  return [draw('circle', {class: 'peak', cx: at, cy: y(peak), r: 4.5}),
    label(frame, at, low, 'strong', `peak ${number(peak)} ${unit}, instruction ${number(peak_at)}`)];
}
function marks(job, series, frame) {
  const {x, box, last} = frame, is_end = last >= job.instructions;
  const stop = !is_good(job) && is_end
    ? [draw('line', {class: 'stop', x1: x(last), x2: x(last), y1: box.top, y2: box.bottom})] : [];
  return [frame.near ? limit_mark(series, frame) : [], stop, frame.is_end ? cross_mark(job, series, frame) : [],
    peak_mark(series, frame)];
}

const ONE_OF = {words: 'word', entries: 'entry', calls: 'call'};
const span_text = ({from, to}) => to - from > 1 ? `${number(from + 1)} to ${number(to)}` : number(to);
// The numbers of a column: what there was at its instructions, and after them.
function numbers_text(series, {from, to, most, least}) {
  const name = plural(most, ONE_OF[series.unit], series.unit), is_one = to - from <= 1;
  if (series.kind === 'levels') return is_one ? `${name} after it` : `at most ${name} after one of them`;
  if (is_one) return most === least ? `${name} at it and after it` : `${name} at it, ${number(least)} after it`;
  return `at most ${name} at one of them, at least ${number(least)} after one`;
}
function column_text(job, series, column) {
  const is_one = column.to - column.from <= 1, inside = column.place === undefined ? '' : name_of(job, column.place);
  const where = inside && !is_one ? `; the most in ${inside}` : '';
  const ran = is_one || column.ran === undefined ? '' : `; ${name_of(job, column.ran)} ran most`;
  const which = is_one ? `instruction ${span_text(column)}${inside && ` in ${inside}`}`
    : `instructions ${span_text(column)}`;
  return `${which}: ${numbers_text(series, column)}${where}${ran}`;
}
// Where the most of a column was, and the command that shows the state before it, or before the column.
function column_place(job, series, column) {
  const has_peak = column.from < series.peak_at && series.peak_at <= column.to && series.kind === 'words';
  const after = has_peak ? series.peak_at - 1 : column.from;
  const line = column.line ? [line_link(job, column.line, `line ${column.line}`), make('span', {class: 'made'},
    code_of(job, column.line))] : [];
  return [...line, make('span', {class: 'dim'}, `before instruction ${number(after + 1)}:`),
    make('code', {}, `vjobs-why --job ${job.job} --after ${after} FILE`)];
}

// The items of a list, those that are there most often first.
function often(items) {
  const counts = new Map();
  for (const item of items) counts.set(item, (counts.get(item) ?? 0) + 1);
  return [...counts].sort(([, left], [, right]) => right - left).map(([item]) => item);
}
// At most 64 columns for the table: neighbours are taken together.
function folded(columns) {
  const size = Math.ceil(columns.length / 64), found = [];
  for (let place = 0; place < columns.length; place += size) {
    const part = columns.slice(place, place + size);
    const most = part.reduce((best, column) => column.most > best.most ? column : best);
    found.push({from: part[0].from, to: part[part.length - 1].to, most: most.most, place: most.place,
      least: Math.min(...part.map((column) => column.least)), ran: often(part.map(({ran}) => ran)).slice(0, 3)});
  }
  return found;
}
function words_table(job, series) {
  const is_words = series.kind === 'words', {columns, unit} = series;
  const heads = [['instructions', 'number'], ...is_words ? [['least words after one', 'number']] : [],
    [is_words ? 'most words at one' : `most ${unit}`, 'number']];
  const names = (places) => places.map((place) => name_of(job, place)).join(', ');
  if (columns[0].place !== undefined) heads.push(['function with the most', '']);
  if (columns[0].ran !== undefined) heads.push(['functions that ran most', '']);
  const rows = folded(columns).map((column) => row([[span_text(column), 'number'],
    ...is_words ? [[number(column.least), 'number']] : [], [number(column.most), 'number'],
    ...column.place === undefined ? [] : [[names([column.place]), 'name']],
    ...column.ran[0] === undefined ? [] : [[names(column.ran), 'name']]]));
  return as_table(`${unit} over time`, `${series.title} over time`, heads, rows);
}

function paint_series(job, series, view, colours, width) {
  const frame = frame_of(series, view, width), {x, box} = frame;
  const cursor = draw('line', {class: 'cursor', x1: -9, x2: -9, y1: box.top, y2: box.bottom});
  const range = draw('rect', {class: 'range', x: -9, width: 0, y: box.top, height: box.bottom - box.top});
  view.mark = ({from, to}) => {
    for (const end of ['x1', 'x2']) cursor.setAttribute(end, x((from + to) / 2));
  };
  const svg = draw('svg', {viewBox: `0 0 ${width} ${frame.height}`, role: 'img'},
    draw('title', {}, `${series.unit} over time; the most are ${series.peak}, the limit is ${series.limit}`),
    axes(frame, series.unit), areas(frame), band(frame, colours), range, cursor, marks(job, series, frame));
  follow_pointer(svg, frame, range, view);
  view.mark(series.columns[view.at]);
  return svg;
}
// The pointer picks a column, and a range of columns if it is drawn over them.
function follow_pointer(svg, frame, range, view) {
  const {box, shown, width, x} = frame;
  let begin = null;
  const place_at = (event) => {
    const {left, width: size} = svg.getBoundingClientRect(), at = (event.clientX - left) * width / size;
    const count = frame.first + (frame.last - frame.first) * (at - box.left) / (box.right - box.left);
    const place = shown.findIndex(({to}) => count < to);
    return view.begin + (place < 0 ? shown.length - 1 : place);
  };
  svg.addEventListener('pointerdown', (event) => {
    begin = place_at(event);
    svg.setPointerCapture(event.pointerId);
  });
  svg.addEventListener('pointermove', (event) => {
    const place = place_at(event), [low, high] = [begin ?? place, place].sort((left, right) => left - right);
    view.pick(place);
    const [from, to] = [shown[low - view.begin].from, shown[high - view.begin].to].map(x);
    range.setAttribute('x', from);
    range.setAttribute('width', begin === null || low === high ? 0 : to - from);
  });
  svg.addEventListener('pointerup', (event) => {
    const [low, high] = [begin ?? 0, place_at(event)].sort((left, right) => left - right);
    if (begin !== null && high > low) view.show(low, high + 1);
    begin = null;
  });
}
// What picks a column and a range of them: the slider, the buttons and the pointer.
function picker(job, series, again) {
  const {columns} = series, output = make('output', {}), place = make('div', {class: 'where'});
  const input = make('input', {type: 'range', 'aria-label': `column of the ${series.unit}`});
  const view = {begin: 0, end: columns.length, at: Math.max(0, columns.findIndex(({to}) => series.peak_at <= to))};
  view.pick = (at) => {
    view.at = Math.max(view.begin, Math.min(at, view.end - 1));
    input.value = view.at;
    output.textContent = column_text(job, series, columns[view.at]);
    input.setAttribute('aria-valuetext', output.textContent);
    place.replaceChildren(...column_place(job, series, columns[view.at]));
    view.mark?.(columns[view.at]);
  };
  view.show = (begin, end) => {
    [view.begin, view.end] = [Math.max(0, begin), Math.min(columns.length, end)];
    [input.min, input.max] = [view.begin, view.end - 1];
    [enlarge.disabled, whole.disabled] = [view.end - view.begin <= 4, view.end - view.begin === columns.length];
    view.pick(view.at);
    again();
  };
  const enlarge = button('enlarge', () => {
    const size = Math.max(4, Math.ceil((view.end - view.begin) / 4));
    const begin = Math.max(view.begin, Math.min(view.at - Math.floor(size / 2), view.end - size));
    view.show(begin, begin + size);
  });
  const whole = button('whole run', () => view.show(0, columns.length));
  input.addEventListener('input', () => view.pick(Number(input.value)));
  const ranges = columns.length > 4 ? make('div', {class: 'ranges'}, enlarge, whole) : [];
  return {view, node: make('div', {class: 'pick'}, input, output, place, ranges)};
}
function legend(job, colours, places) {
  const shown = places.slice(0, 12), more = places.length - shown.length;
  const items = shown.map((place) => make('li', {}, swatch(colours[place]), name_of(job, place)));
  return make('ul', {class: 'legend'}, items,
    more ? make('li', {class: 'dim'}, `and ${number(more)} more`) : []);
}
function over_time(job, series, colours) {
  const {columns, unit, kind} = series, {each} = job.columns;
  let again = () => {};
  const pick = picker(job, series, () => again());
  const drawn = drawing((width) => paint_series(job, series, pick.view, colours, width));
  again = drawn.again;
  pick.view.show(0, columns.length);
  const used = often(columns.map(({ran}) => ran).filter((ran) => ran !== undefined));
  const column = `${each > 1 ? number(each) + ' instructions' : 'an instruction'} a column`;
  const full = kind === 'words' ? ': full up to the least, pale up to the most' : '';
  const colour = used.length ? '; the band has the colour of the function that ran most' : '';
  const is_far = series.limit > 2 * series.peak && !series.is_passed;
  const far = is_far ? `; the limit of ${number(series.limit)} is far above` : '';
  return section(kind, series.title, column + full + colour + far, drawn.place, pick.node,
    used.length ? legend(job, colours, used) : [], words_table(job, series));
}
function levels(job, colours) {
  return job.levels?.most.length ? [over_time(job, levels_over_time(job), colours)] : [];
}
function words(job, colours) {
  return job.columns?.most.length ? [over_time(job, words_over_time(job), colours)] : [];
}
"##;
