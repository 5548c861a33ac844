//! The jobs of the page.

/// This part of the script.
pub(crate) const JOBS: &str = r##"
// The jobs of the page.

// A choice of what is counted, which draws anew what has such counts.
function units(job, show) {
  const choices = Object.keys(UNITS).map((unit) => {
    const input = make('input', {type: 'radio', name: `unit-${job.job}`, value: unit});
    input.checked = unit === 'instructions';
    input.addEventListener('change', () => show(unit));
    return make('label', {}, input, ` ${unit}`);
  });
  return make('div', {class: 'units', role: 'radiogroup', 'aria-label': 'what is counted'},
    'Code, functions and calls count ', choices);
}
// What is drawn of a job below its head.
function body(job) {
  if (!job.functions) return [make('div', {class: 'sheet'}, ending(job), code(job, 'instructions'))];
  const colours = colours_of(job), counted = make('div', {class: 'counted'});
  const show = (unit) => {
    const side = make('div', {class: 'side'}, functions(job, colours, unit), source(job, unit),
      calls(job, colours, unit));
    counted.replaceChildren(code(job, unit), side);
    reveal(counted);
  };
  show('instructions');
  const states = make('div', {class: 'states'}, state(job));
  return [cards(job), make('div', {class: 'sheet'}, ending(job), states, levels(job, colours), words(job, colours),
    held(job), units(job, show), counted)];
}
// Scrolls the code so that the last line is in the middle of what is shown of it.
function reveal(part) {
  const line = part.querySelector('tr.last'), box = line?.closest('.scroll');
  if (box) box.scrollTop = line.offsetTop - (box.clientHeight - line.offsetHeight) / 2;
}
// A job is drawn when it is opened for the first time.
function article(job) {
  const after = is_refused(job) ? `never ran, refused at line ${number(job.line)}`
    : `${job.line ? `at line ${job.line}, ` : ''}after ${plural(job.instructions, 'instruction')}`;
  const head = make('header', {}, make('h1', {}, job.name), end_of(job),
    make('span', {class: 'dim'}, `${after}; job ${job.job} of the batch`));
  const part = make('details', {}, make('summary', {}, head));
  const fill_once = () => {
    if (!part.open || part.childElementCount > 1) return;
    part.append(...body(job));
    reveal(part);
  };
  part.addEventListener('toggle', fill_once);
  return make('article', {id: `job-${job.job}`}, part);
}
function open_job(place) {
  const part = document.querySelector(`#job-${place} > details`);
  if (!part) return;
  part.open = true;
  part.dispatchEvent(new Event('toggle'));
}
function jobs_table() {
  const rows = JOBS.map((job) => {
    const link = make('a', {href: `#job-${job.job}`}, job.name);
    link.addEventListener('click', () => open_job(job.job));
    return row([[String(job.job), 'number'], [link, 'name'], [end_of(job), ''],
      ...[job.line, job.instructions, job.peak].map((count) => [number(count), 'number'])]);
  });
  const heads = [['job', 'number'], ['name', ''], ['end', ''],
    ...['line', 'instructions', 'peak'].map((text) => [text, 'number'])];
  const returned = `${JOBS.filter(is_good).length} of ${JOBS.length} returned`;
  const all = button('open all', () => JOBS.forEach((job) => open_job(job.job)));
  return make('nav', {'aria-label': 'jobs'},
    section('jobs', 'Jobs', returned, all, scroll('jobs', table('Jobs', heads, rows))));
}

// Opens few jobs all, of many the first that didn't return, and the job that the address names.
function start() {
  const main = document.getElementById('jobs'), [, named] = /^#job-(\d+)/.exec(location.hash) ?? [];
  if (JOBS.length === 1) document.title = `${JOBS[0].name}: ${JOBS[0].end}`;
  if (JOBS.length > 1) main.append(jobs_table());
  main.append(...JOBS.map(article));
  const first = JOBS.find((job) => !is_good(job)) ?? JOBS[0];
  for (const job of JOBS.length > MOST_OPEN ? [first] : JOBS) open_job(job.job);
  if (named) {
    open_job(named);
    document.getElementById(location.hash.slice(1))?.scrollIntoView();
  }
}
start();
"##;
