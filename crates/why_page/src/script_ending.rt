//! How a job ended, and the state before its last instruction.

/// This part of the script.
pub(crate) const ENDING: &str = r##"
// How a job ended, what it used, and what there was before its last instruction.

function card(name, used, limit, is_passed) {
  const fraction = make('i', {});
  fraction.style.width = Math.min(100, 100 * used / Math.max(limit, 1)) + '%';
  const remark = is_passed ? make('span', {class: 'ended'}, 'this limit ended it') : [];
  const numbers = make('dd', {}, make('b', {}, number(used)),
    make('span', {class: 'dim'}, ` of ${number(limit)} (${share(used, limit)})`), remark);
  return make('div', {class: is_passed ? 'passed' : ''}, make('dt', {}, name), numbers,
    make('div', {class: 'bar', 'aria-hidden': 'true'}, fraction));
}
const CARDS = [['budget', 'instructions'], ['words', 'words at the peak'], ['cells', 'entries of the stack'],
  ['calls', 'calls inside one another']];
function cards(job) {
  const {used, limits} = job, passed = passed_of(job);
  return make('dl', {class: 'cards'},
    CARDS.map(([member, name]) => card(name, used[member], limits[member], member === passed)));
}

function limits_found(job) {
  const {least, tried, widest} = job;
  if (least) return [make('p', {}, 'Within these limits, and no less, it returns: ',
    make('code', {}, `JOB ${job.name} ${least.words} ${least.cells} ${least.calls} ${least.budget}`))];
  if (tried) return [make('p', {}, 'No limits within which it returns were found within '
    + `${number(tried.instructions)} instructions and ${number(tried.elements)} elements.`)];
  if (!widest) return [];
  const at = widest.line ? ` at line ${widest.line}` : '';
  const wanted = widest.wanted ? ` There ${number(widest.wanted)} words would be held and needed.` : '';
  return [make('p', {}, `Within the widest limits it ends so: ${widest.end}${at}, after `
    + `${plural(widest.instructions, 'instruction')}.${wanted}`)];
}
function ending(job) {
  const last = last_of(job), text = text_of(job, last);
  const blanks = text.length - text.trimStart().length;
  const [begin, end] = job.carets ?? [blanks, blanks + code_of(job, last).length];
  const shown = (line) => `${String(line).padStart(7)} | ${text_of(job, line)}\n`;
  const before = [2, 1].map((back) => last - back).filter((line) => text_of(job, line));
  const after = [1, 2].map((on) => last + on).filter((line) => text_of(job, line));
  const carets = ' '.repeat(begin) + '^'.repeat(end - begin);
  const note = make('span', {class: is_good(job) ? 'note good' : 'note'}, `${carets} ${job.note}`);
  const lines = make('pre', {}, before.map(shown), shown(last), '        | ', note, '\n', after.map(shown));
  const wanted = job.text ? scroll('what was expected', make('pre', {class: 'wide'}, expected_of(job))) : [];
  return section('ending', 'How it ended', '', lines, wanted, limits_found(job));
}
// Of what vjobs-why prints of a refused job the part after the lines around the refused one.
function expected_of(job) {
  const lines = job.text.split('\n'), carets = lines.findIndex((line) => line.startsWith('        | '));
  return lines.slice(lines.indexOf('', carets) + 1).join('\n').trim();
}

// What held the words before the peak, or before the instruction that the limit on words refused.
function held(job) {
  if (!job.held?.list.length) return [];
  const {before, line, words, unread, list, left} = job.held, most = list[0][1];
  const rows = list.map(([made, count, vectors, entries, idle]) => {
    const cells = row([[share(count, words), 'number'], [unread === null ? '-' : number(idle), 'number'],
      [number(vectors), 'number more'], [number(entries), 'number more'],
      [line_link(job, made, String(made)), 'number'], [code_of(job, made), 'text']]);
    cells.prepend(heat(count, most));
    return cells;
  });
  const heads = [['words', 'number'], ['share', 'number'], ['not read again', 'number'], ['vectors', 'number more'],
    ['entries', 'number more'], ['line', 'number'], ['instruction', '']];
  const title = passed_of(job) === 'words' ? 'Held where the limit ended it' : 'Held at the peak';
  const idle = unread ? `; ${number(unread)} of them are not read again` : '';
  const rest = left ? make('p', {class: 'dim'}, `and ${plural(left, 'more line')}`) : [];
  return [section('held', title, `${plural(words, 'word')} before instruction ${number(before)} at line ${line}${idle}`,
    scroll('held', table('Words that were held, by the lines that made them', heads, rows)), rest)];
}

// The entries of a stack, those of each call below its name.
function entry_rows(job, list) {
  const rows = [];
  let call = -1, room = 0;
  list.forEach((entry, depth) => {
    while (room === 0 && call + 1 < job.active.list.length) {
      call += 1;
      const [place, line, entries] = job.active.list[call];
      room = entries;
      if (entries) rows.push(make('tr', {class: 'group'}, make('th', {scope: 'rowgroup', colspan: 7}, 'in ',
        name_of(job, place), ' at line ', line_link(job, line, String(line)))));
    }
    room -= 1;
    rows.push(entry_row(job, entry, depth));
  });
  return rows;
}
function entry_row(job, entry, depth) {
  const total = entry.total === undefined ? '' : ` of ${number(entry.total)}`;
  const more = entry.left ? make('span', {class: 'dim'}, ` and ${number(entry.left)} more`) : [];
  const copied = make('span', {class: 'dim'}, `as entry ${entry.copy}`);
  const values = entry.copy === undefined ? [entry.values, more] : copied;
  return row([[String(depth), 'number dim'], [entry.name ?? '', ''], [entry.kind, ''],
    [number(entry.length) + total, 'number'], [values, 'values'],
    [line_link(job, entry.line, String(entry.line)), 'number'], [code_of(job, entry.line), 'text more']]);
}
function call_rows(job) {
  return job.active.list.map(([place, line, entries]) =>
    row([[name_of(job, place), 'name'], [line_link(job, line, String(line)), 'number'], [code_of(job, line), 'text'],
      [number(entries), 'number']]));
}
// What is left out of a list at its end.
const left_out = (left, one, many) =>
  left ? make('p', {class: 'dim'}, `${plural(left, one, many)} more ${left === 1 ? 'is' : 'are'} left out here`) : [];
function state(job) {
  const stack = job.stack ?? job.results;
  if (!stack || !job.active) return [];
  const is_stack = job.stack !== undefined, {active} = job;
  const heads = [['depth', 'number'], ['is', ''], ['kind', ''], ['length', 'number'], ['values', ''],
    ['line', 'number'], ['made by', 'more']];
  const remark = `${plural(stack.entries, 'entry', 'entries')}, ${plural(stack.words, 'word')}, the top first`;
  const entries = stack.list.length ? table('Entries of the stack, the top first', heads, entry_rows(job, stack.list))
    : make('p', {class: 'dim'}, 'It is empty.');
  const calls = scroll('active calls', table('Active calls, the innermost first',
    [['function', ''], ['line', 'number'], ['is at', ''], ['entries', 'number']], call_rows(job)));
  return [section('stack', is_stack ? 'Stack before its last instruction' : 'Results', remark, scroll('stack', entries),
    left_out(stack.left, 'entry', 'entries')),
  section('active', 'Active calls', `${plural(active.calls, 'call')}, the innermost first`, calls,
    left_out(active.left, 'call', 'calls'))];
}
"##;
