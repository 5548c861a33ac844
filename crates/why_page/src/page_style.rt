//! How the page looks.

/// The style of the page.
pub(crate) const STYLE: &str = r##":root {
  color-scheme: light dark;
  --back: #fbfbf9; --card: #fff; --edge: #dcdfe3; --text: #16191d; --dim: #59616b; --code: #f3f4f6;
  --bad: #b3201b; --good: #116b34; --heat: 214 137 62; --accent: #3b6ea5; --focus: #0b57d0;
}
@media (prefers-color-scheme: dark) {
  :root {
    --back: #14171a; --card: #1c2024; --edge: #363c43; --text: #e9ecef; --dim: #a3abb4; --code: #252a30;
    --bad: #ff938a; --good: #74d196; --heat: 214 137 62; --accent: #79a9dd; --focus: #9cc2ff;
  }
}
* { box-sizing: border-box; }
body { margin: 0; background: var(--back); color: var(--text); font: 15px/1.5 system-ui, sans-serif; }
main, noscript { display: block; max-width: 1560px; margin: 0 auto; padding: 16px clamp(10px, 2vw, 32px); }
a { color: inherit; }
:focus-visible { outline: 3px solid var(--focus); outline-offset: 2px; }
nav { margin-bottom: 18px; }
nav h2 { display: inline-block; margin-right: 10px; }
nav .end { white-space: nowrap; padding: 0 8px; font-size: .9em; }
button, input[type="search"] {
  border: 1px solid var(--edge); border-radius: 6px; background: var(--code); color: inherit; font: inherit;
  padding: 1px 10px;
}
button:disabled { color: var(--dim); border-style: dashed; }
article + article { margin-top: 18px; border-top: 2px solid var(--edge); padding-top: 8px; }
article > details { margin: 0; }
article > details > summary { color: inherit; font-size: 1rem; list-style-position: outside; margin-left: 18px; }
header {
  display: inline-flex; flex-wrap: wrap; align-items: baseline; gap: 4px 14px; margin: 4px 0 10px; vertical-align: top;
}
h1 { margin: 0; font-size: 1.5rem; overflow-wrap: anywhere; }
h2 { margin: 0 0 8px; font-size: 1.05rem; }
h2 small, .dim { color: var(--dim); font-weight: normal; font-size: .9rem; }
.end { border: 1.5px solid var(--bad); border-radius: 99px; padding: 0 12px; color: var(--bad); font-weight: 600; }
.end.good { border-color: var(--good); color: var(--good); }
.cards { display: grid; grid-template-columns: repeat(auto-fit, minmax(165px, 1fr)); gap: 12px; margin: 0 0 14px; }
.cards > div, section {
  border: 1px solid var(--edge); border-radius: 8px; background: var(--card); padding: 12px 14px;
}
.cards > .passed { border-color: var(--bad); box-shadow: inset 0 0 0 1px var(--bad); }
.passed .bar i { background: var(--bad); }
.ended { display: block; color: var(--bad); font-weight: 600; font-size: .9rem; }
.cards dt { color: var(--dim); font-size: .9rem; }
.cards dd { margin: 0; overflow-wrap: anywhere; }
.cards b { font-size: 1.25rem; }
.bar { height: 5px; margin-top: 6px; border-radius: 3px; background: var(--edge); overflow: hidden; }
.bar i { display: block; height: 100%; background: var(--accent); print-color-adjust: exact; }
.sheet, .side, .counted, .states { display: grid; grid-template-columns: minmax(0, 1fr); gap: 14px; }
.units { display: flex; flex-wrap: wrap; gap: 2px 14px; }
.heard { position: absolute; width: 1px; height: 1px; overflow: hidden; clip-path: inset(50%); }
.states:empty { display: none; }
@media (min-width: 1000px) {
  .counted, .states { grid-template-columns: minmax(0, 3fr) minmax(0, 2fr); align-items: start; }
}
pre, code, td.text, td.values, .made { font: 13px/1.5 ui-monospace, "DejaVu Sans Mono", monospace; }
pre {
  margin: 0; padding: 10px 12px; border-radius: 6px; background: var(--code); white-space: pre-wrap;
  overflow-wrap: anywhere;
}
pre.wide { display: inline-block; min-width: 100%; margin-top: 10px; white-space: pre; }
pre .note { color: var(--bad); font-weight: 600; }
pre .note.good { color: var(--good); }
p { margin: 8px 0 0; }
p code { overflow-wrap: anywhere; }
svg { display: block; width: 100%; height: auto; font: 12px system-ui, sans-serif; }
svg text { fill: var(--text); }
svg .soft { fill: var(--dim); }
svg .grid { stroke: var(--edge); }
svg .limit { stroke: var(--bad); stroke-width: 1.5; stroke-dasharray: 6 4; }
svg .stop { stroke: var(--bad); stroke-width: 2.5; fill: none; }
svg .alarm { fill: var(--bad); font-weight: 600; }
svg .strong { font-weight: 600; }
svg .strong, svg .alarm { paint-order: stroke; stroke: var(--card); stroke-width: 3; }
svg .peak { fill: var(--card); stroke: var(--text); stroke-width: 2; }
svg .cursor { stroke: var(--text); stroke-width: 1; }
svg .area { fill: var(--accent); }
svg .pale { fill-opacity: .45; }
svg path, svg rect, .swatch { print-color-adjust: exact; }
svg .range { fill: var(--focus); fill-opacity: .25; }
svg .bars rect { stroke: var(--card); stroke-width: 1; }
svg .bars .found rect { stroke: var(--text); stroke-width: 2.5; }
svg .bars .found text { font-weight: 700; }
svg .chain:focus-visible { outline: none; }
svg .chain:focus-visible rect { stroke: var(--focus); stroke-width: 4; }
.words svg, .levels svg { touch-action: pan-y; cursor: crosshair; user-select: none; }
.legend {
  display: flex; flex-wrap: wrap; gap: 2px 16px; margin: 6px 0 0; padding: 0; list-style: none; font-size: .9rem;
}
.legend li { min-width: 0; overflow-wrap: anywhere; }
.swatch { display: inline-block; width: 11px; height: 11px; margin-right: 6px; border-radius: 2px; }
.pick { display: grid; grid-template-columns: minmax(0, 1fr); gap: 4px; margin-top: 6px; font-size: .9rem; }
.words .pick, .levels .pick { padding: 0 14px 0 54px; }
.pick input[type="range"] { width: 100%; margin: 0; accent-color: var(--accent); }
.pick output { font-variant-numeric: tabular-nums; overflow-wrap: anywhere; }
.where, .ranges { display: flex; flex-wrap: wrap; align-items: baseline; gap: 4px 12px; }
.where code { overflow-wrap: anywhere; user-select: all; }
.made { overflow-wrap: anywhere; }
.ranges input { flex: 1 1 12em; min-width: 8em; max-width: 22em; }
.scroll { overflow: auto; max-height: 75vh; }
details { margin-top: 8px; }
summary { cursor: pointer; color: var(--dim); font-size: .9rem; }
table { border-collapse: collapse; font-size: .92rem; font-variant-numeric: tabular-nums; }
section > .scroll > table { width: 100%; }
th {
  padding: 2px 10px 4px; border-bottom: 1px solid var(--edge); color: var(--dim); text-align: left; font-weight: 600;
}
.group th { padding-top: 6px; }
td.values { width: 70%; min-width: 7em; overflow-wrap: anywhere; }
.stack td.text { width: auto; max-width: 26ch; overflow: hidden; text-overflow: ellipsis; }
.scroll thead th { position: sticky; top: 0; background: var(--card); }
td { padding: 1px 10px; vertical-align: top; }
.functions td, .functions th { padding-inline: 6px; }
td.number, th.number { text-align: right; white-space: nowrap; }
td.text { white-space: pre; width: 99%; }
td.name { min-width: 7.5em; overflow-wrap: anywhere; }
td.name a { display: inline-block; max-width: calc(100% - 20px); vertical-align: top; }
nav td.name a, .source td.name a { max-width: 100%; }
@media (max-width: 500px) {
  section { padding: 10px; }
  .functions .line { display: none; }
  .functions table, .stack table, .active table, .held table { font-size: .8rem; }
  td, th, .functions td, .functions th { padding-inline: 3px; }
  td.values { min-width: 6em; font-size: 12px; }
  .held th { white-space: normal; vertical-align: bottom; }
  nav table { font-size: .8rem; }
  nav .end { display: inline-block; white-space: normal; border-radius: 8px; padding: 0 4px; line-height: 1.3; }
  td.name { min-width: 4.5em; }
  .words .pick, .levels .pick { padding: 0; }
  .more { display: none; }
}
tr.never td { color: var(--dim); }
tr.last td { background: color-mix(in srgb, var(--bad) 16%, transparent); }
tr.last.good td { background: color-mix(in srgb, var(--good) 16%, transparent); }
tr:target td { box-shadow: inset 0 2px var(--focus), inset 0 -2px var(--focus); }
td.heat { print-color-adjust: exact; }
@media print {
  :root {
    color-scheme: light;
    --back: #fff; --card: #fff; --edge: #dcdfe3; --text: #16191d; --dim: #59616b; --code: #f3f4f6;
    --bad: #b3201b; --good: #116b34; --accent: #3b6ea5;
  }
  body { font-size: 11px; }
  pre, code, td.text, td.values { font-size: 10px; }
  pre.wide { white-space: pre-wrap; }
  .scroll { max-height: none; overflow: visible; }
  .pick, .units, nav { display: none; }
  .more { display: revert; }
  .cards > div, section { break-inside: avoid; }
  section.code { break-inside: auto; }
  tr { break-inside: avoid; }
  td.text { white-space: pre-wrap; }
}
"##;
