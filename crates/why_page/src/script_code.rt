//! What functions, lines and the source did.

/// This part of the script.
pub(crate) const CODE: &str = r##"
// What was counted of functions, lines and the source.

function heat(part, most) {
  const cell = make('td', {class: 'number heat'}, number(part));
  const strength = .08 + .4 * Math.sqrt(part / Math.max(most, 1));
  if (part > 0) cell.style.background = `rgb(var(--heat) / ${strength.toFixed(3)})`;
  return cell;
}

function functions(job, colours, unit) {
  const totals = job.functions.map((each, place) => ({...each, place, own: each[unit], all: each.with_callees[unit]}));
  totals.sort((left, right) => right.own - left.own);
  const whole = UNITS[unit].all(job);
  const rows = totals.map(({name, line, own, place, calls, all}) => {
    const head = [[[swatch(colours[place]), line_link(job, line, name)], 'name'], [number(line), 'number line'],
      [number(calls), 'number']];
    const cells = row(head), shares = [own, all].map((part) => make('td', {class: 'number'}, share(part, whole)));
    cells.append(heat(own, totals[0].own), ...shares);
    if (!calls) cells.className = 'never';
    return cells;
  });
  const heads = [['function', ''], ['line', 'number line'],
    ...['calls', 'own', 'own %', 'all %'].map((text) => [text, 'number'])];
  return section('functions', 'Functions', `their own ${unit}, and with their calls`,
    scroll('functions', table('Functions, those that did most first', heads, rows)));
}

// The lines of the source that the comments of the code name, those that did most first.
function source(job, unit) {
  if (!job.source?.lines.length) return [];
  const {files, lines, marks} = job.source, count_of = UNITS[unit].source;
  const order = lines.map((_, place) => place).sort((left, right) => count_of(lines[right]) - count_of(lines[left]));
  const firsts = new Map([...marks].reverse().map(([line, place]) => [place, line]));
  const rows = order.map((place) => {
    const [file, line, , , text] = lines[place], at = `${files[file]}:${line}`, code_line = firsts.get(place);
    const link = code_line ? line_link(job, code_line, at) : at;
    const cells = row([[link, 'name'], [text, 'text']]);
    cells.children[0].after(heat(count_of(lines[place]), count_of(lines[order[0]])));
    return cells;
  });
  const heads = [['source', ''], [unit, 'number'], ['text', '']];
  return [section('source', 'Source', `lines that the comments of the code name, by their ${unit}`,
    scroll('source', table('Lines of the source, those that did most first', heads, rows)))];
}

// The lines to which something on the page leads.
function lines_named(job) {
  const {functions = [], columns, held, active, source} = job, stack = job.stack ?? job.results;
  return new Set([...functions.map(({line}) => line), ...columns?.line ?? [],
    ...(held?.list ?? []).map(([line]) => line), ...(active?.list ?? []).map(([, line]) => line),
    ...(stack?.list ?? []).map(({line}) => line), ...(source?.marks ?? []).map(([line]) => line)]);
}
// The lines to be shown: all, or of a very long code those to which links lead, those near the end and those that ran.
function chosen_lines(job, times, named) {
  const all = job.code.lines.map((_, place) => job.code.first + place);
  if (all.length <= MOST_ROWS) return all;
  const is_kept = (line) => Math.abs(line - last_of(job)) <= 20 || named.has(line), kept = all.filter(is_kept);
  const ran = all.filter((line) => times.has(line) && !is_kept(line)).slice(0, Math.max(0, MOST_ROWS - kept.length));
  return [...ran, ...kept].sort((left, right) => left - right);
}
function code(job, unit) {
  const times = new Map((job.lines ?? []).map((row) => [row[0], UNITS[unit].line(row)]));
  const most = [...times.values()].reduce((left, right) => Math.max(left, right), 1), last = last_of(job);
  const heads = new Set((job.functions ?? []).map(({line}) => line));
  const lines = chosen_lines(job, times, lines_named(job)), shown = number(lines.length);
  const rows = lines.map((line) => {
    const count = times.get(line), ran = times.has(line), kind = ran || heads.has(line) || !job.lines ? '' : 'never';
    const node = make('tr', {id: line_id(job, line), class: kind},
      make('td', {class: 'number dim'}, String(line)), ran ? heat(count, most) : make('td', {class: 'number'}),
      make('td', {class: 'text'}, text_of(job, line) || ' '));
    if (line === last) node.className = is_good(job) ? 'last good' : 'last';
    return node;
  });
  const remark = lines.length < job.code.lines.length ? `${shown} of ${number(job.code.lines.length)} lines`
    : job.lines ? 'what each line executed; dim lines nothing' : 'the lines around the refused one';
  const heading = [['line', 'number'], [job.lines ? unit : '', 'number'], ['text', '']];
  return section('code', 'Code', remark, scroll('code', table('Lines of the batch', heading, rows)));
}
"##;
