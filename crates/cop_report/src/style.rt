//! The style of a page.

/// Light, and dark where the reader's system is.
pub(crate) const STYLE: &str = "
:root { color-scheme: light dark; --back: #f6f7f9; --card: #ffffff; --text: #1b2430; --soft: #5b6776; --line: #dde2e8;
  --track: #e7ebf0; --pdo: #2f6fd0; --fixed: #93a4b8; --little: #c2570c; --mark: #fff3e2; --good: #1c7a4b; --bad: #b3261e; }
@media (prefers-color-scheme: dark) { :root { --back: #12161c; --card: #1a2029; --text: #e6eaf0; --soft: #9aa7b6;
  --line: #2c3541; --track: #2a323d; --pdo: #6ea4ff; --fixed: #69798c; --little: #ff9f4a; --mark: #33261a; --good: #62c995;
  --bad: #ff8a80; } }
* { box-sizing: border-box; }
body { margin: 0; background: var(--back); color: var(--text); font: 16px/1.5 system-ui, sans-serif; overflow-wrap: break-word; }
main { max-width: 80rem; margin: 0 auto; padding: 1.5rem 1rem 3rem; }
h1 { font-size: 1.7rem; line-height: 1.2; margin: 0 0 .3rem; }
h2 { font-size: 1.2rem; margin: 0 0 .6rem; }
h3 { font-size: 1rem; margin: .8rem 0 .2rem; }
p { margin: .2rem 0 .6rem; max-width: 46rem; }
ul { margin: .2rem 0 .4rem; padding-left: 1.2rem; }
small, .soft { color: var(--soft); font-weight: normal; }
section { background: var(--card); border: 1px solid var(--line); border-radius: 10px; padding: 1.1rem 1.2rem; margin-top: 1.1rem; }
.block { display: flex; flex-wrap: wrap; gap: .3rem 1.6rem; margin: .6rem 0; } .block dt { color: var(--soft); font-size: .88rem; } .block dd { margin: 0; font-weight: 600; }
code { font-size: .88em; overflow-wrap: anywhere; } #files td:last-child { white-space: normal; }
.tiles { display: grid; grid-template-columns: repeat(auto-fit, minmax(11rem, 1fr)); gap: .8rem; margin-top: 1rem; }
.tiles div { background: var(--card); border: 1px solid var(--line); border-radius: 10px; padding: .7rem 1rem; }
.tiles b { display: block; font-size: 1.5rem; line-height: 1.3; }
.good { color: var(--good); } .bad { color: var(--bad); }
.cards { display: grid; grid-template-columns: repeat(auto-fill, minmax(min(17rem, 100%), 1fr)); gap: .4rem 1.4rem; }
@media (max-width: 79rem) { .scroll { overflow-x: auto; background: linear-gradient(to left, var(--track), transparent 1.2rem); } }
.taken { white-space: normal; min-width: 11rem; }
table { border-collapse: collapse; width: 100%; font-size: .92rem; }
tr { border-bottom: 1px solid var(--line); } th, td { text-align: left; padding: .32rem .5rem; white-space: nowrap; }
thead th { color: var(--soft); font-weight: 600; background: var(--card); box-shadow: inset 0 -1px var(--line); position: sticky; top: 0; }
a { color: inherit; text-decoration-color: var(--line); text-underline-offset: .2em; }
nav { display: flex; flex-wrap: wrap; gap: .3rem 1.1rem; margin-top: 1rem; }
:target { outline: 2px solid var(--pdo); outline-offset: 2px; }
.n { text-align: right; font-variant-numeric: tabular-nums; }
.wide { min-width: 6rem; width: 30%; } #pdos .wide { width: 8%; }
#pdos small { display: block; } #pdos tr:first-child td:nth-child(2), #frames td:nth-child(2) { white-space: normal; min-width: 10rem; }
.spread { display: block; width: 100%; min-width: 7rem; height: 1.6rem; } .loads { display: block; width: 100%; height: 6rem; }
#pdos tr { border: 0; } #pdos tbody { border-bottom: 1px solid var(--line); } #pdos .more td { max-width: 0; padding: 0 .5rem .32rem; white-space: normal; }
.more details { margin: 0; font-size: .92em; } .more summary { overflow: hidden; text-overflow: ellipsis; white-space: nowrap; } .more details[open] summary { white-space: normal; }
.more ul { margin: .2rem 0 .3rem; padding: 0; list-style: none; } .map { columns: 22rem; column-gap: 1.6rem; } .map li { break-inside: avoid; } .map small { display: inline !important; white-space: nowrap; }
.parts { color: var(--soft); } p.parts { margin: 0; } ul.parts { display: flex; flex-wrap: wrap; gap: 0 1rem; } .parts b { color: var(--text); font-variant-numeric: tabular-nums; }
.bar { display: block; width: 100%; height: .7rem; border-radius: 3px; }
.track { fill: var(--track); } .pdo { fill: var(--pdo); background: var(--pdo); } .fixed { fill: var(--fixed); background: var(--fixed); }
.missed, .nothing { fill: var(--bad); color: var(--bad); } .little { fill: var(--little); color: var(--little); } .missed, .nothing, .little { font-weight: 600; }
.fair { fill: var(--pdo); } .ample { fill: var(--good); }
.key.nothing { background: var(--bad); } .key.little { background: var(--little); } .key.fair { background: var(--pdo); } .key.ample { background: var(--good); }
.full { stroke: var(--bad); stroke-width: 2; vector-effect: non-scaling-stroke; }
.close td, .close th, .chosen td, .chosen th { background: var(--mark); }
#pdos em { color: var(--little); font-style: normal; font-weight: 600; }
.key { display: inline-block; width: .8rem; height: .8rem; border-radius: 3px; margin-left: .8rem; }
.net { display: block; width: 100%; height: auto; font-size: 13px; } .net text { fill: var(--text); } .net .head { fill: var(--soft); } .net .id { font-weight: 700; }
.net path { fill: none; stroke-width: 1.3; opacity: .7; } .net g:hover path { stroke-width: 3; opacity: 1; } .net line { stroke: var(--line); } .net.matrix { font-size: 12px; }
.net path.missed, .net path.nothing { stroke: var(--bad); } .net path.little { stroke: var(--little); } .net path.fair { stroke: var(--pdo); } .net path.ample { stroke: var(--good); }
.lane { display: grid; grid-template-columns: 18rem minmax(0, 1fr) 9rem; column-gap: .8rem; align-items: center; font-size: .92rem; }
.lane svg { display: block; width: 100%; height: 20px; background: linear-gradient(to right, var(--line) 1px, transparent 1px)
  calc(100% * var(--first) / (var(--span) - var(--step))) 0 / calc(100% * var(--step) / var(--span)) 100%;
  border: solid var(--line); border-width: 0 1px 1px; }
.waits, .sends { stroke-width: 1; vector-effect: non-scaling-stroke; }
.waits { fill: var(--fixed); stroke: var(--fixed); } .sends { fill: var(--pdo); stroke: var(--pdo); }
.axis { position: sticky; top: 0; background: var(--card); color: var(--soft); text-align: right; padding: .2rem 0; }
.marks { position: relative; height: 1.5em; font-variant-numeric: tabular-nums; }
.marks span { position: absolute; left: calc(100% * var(--at) / var(--span)); transform: translateX(-50%); }
#find:not([hidden]) { display: flex; flex-wrap: wrap; gap: .4rem .6rem; align-items: center; } #find input { font: inherit; }
th button { font: inherit; color: inherit; background: none; border: 0; padding: 0; cursor: pointer; }
[aria-sort=ascending] button::after { content: ' \\2191'; } [aria-sort=descending] button::after { content: ' \\2193'; }
#window { max-width: none; flex-wrap: wrap; gap: .4rem .6rem; align-items: center; } #window:not([hidden]) { display: flex; }
#window input { width: 8rem; font: inherit; } #window button { font: inherit; }
@media (max-width: 45rem) { .lane { grid-template-columns: minmax(0, 1fr) auto; margin-top: .3rem; } .axis div:first-child, .axis .n { display: none; }
  .lane svg, .marks { grid-column: 1 / -1; order: 1; } .marks span:nth-child(even) { display: none; } }
@media screen and (max-width: 45rem) { #pdos .scroll { overflow: visible; background: none; } #pdos table, #pdos .more td { display: block; } #pdos thead { display: none; }
  #pdos tbody { display: grid; grid-template-columns: auto minmax(0, 1fr) auto auto; gap: .1rem .6rem; align-items: center; padding: .45rem .2rem; } #pdos tbody[hidden] { display: none; }
  #pdos tbody > tr { display: contents; } #pdos tbody > tr > * { padding: 0; white-space: normal; min-width: 0; text-align: left; background: none; } #pdos .close { background: var(--mark); }
  #pdos tbody > tr:first-child > * { display: none; order: 3; grid-column: 1 / -1; } #pdos .more td { order: 2; grid-column: 1 / -1; max-width: none; padding: 0; }
  #pdos tr:first-child > :is(th, :nth-child(9), :nth-child(10), :nth-child(11)) { display: block; order: 0; grid-column: auto; width: auto; } #pdos tr:first-child > :nth-child(2) { display: block; order: 1; }
  #pdos tbody:has(details[open]) > tr:first-child > * { display: block; } #pdos tbody small { display: inline; }
  #pdos tr:first-child > :nth-child(3)::before { content: 'TPDO '; } #pdos tr:first-child > :nth-child(4)::before { content: 'Bytes '; } #pdos tr:first-child > :nth-child(5)::before { content: 'Period '; }
  #pdos tr:first-child > :nth-child(6)::before { content: 'Jitter '; } #pdos tr:first-child > :nth-child(7)::before { content: 'Deadline '; } #pdos tr:first-child > :nth-child(8)::before { content: 'Response '; }
  #pdos .taken::before { content: 'Taken by '; } }
details { margin-bottom: .6rem; } summary { cursor: pointer; color: var(--soft); }
footer { color: var(--soft); font-size: .88rem; margin-top: 1.2rem; }
@page { size: A4; margin: 12mm; }
@media print { :root { color-scheme: light; --back: #ffffff; --card: #ffffff; --text: #000000; --soft: #444444; --line: #bbbbbb;
  --track: #e7ebf0; --pdo: #2f6fd0; --fixed: #93a4b8; --little: #c2570c; --mark: #fff3e2; --good: #1c7a4b; --bad: #b3261e; }
  thead { display: table-header-group; } ::details-content { content-visibility: visible; block-size: auto; }
  * { print-color-adjust: exact; } body { font-size: 10pt; } main { max-width: none; padding: 0; } nav, #window, #find { display: none !important; } th button { display: contents; } th button::after { content: none !important; }
  section, .tiles div { border-radius: 0; padding: .6rem .7rem; } article, tr, thead, #pdos tbody, #picture, .lane, .tiles div { break-inside: avoid; } .more td { border-top: 0; }
  h1, h2, h3, summary { break-after: avoid; } h2 + p, h2 + ul, h2 + div { break-before: avoid; } p { orphans: 3; widows: 3; } table { font-size: 7.5pt; } th, td { padding: .2rem .3rem; white-space: normal; }
  thead th, .axis { position: static; } .n { white-space: nowrap; } .wide { min-width: 2.5rem; width: 10%; }
  .net { max-height: 240mm; } #rates details ul { columns: 2; column-gap: 2rem; } .more summary { display: none; } .more p, .more ul { margin: 0 0 .15rem; } p.parts { float: left; margin-right: 1rem; } .taken { min-width: 7rem; } .scroll { overflow: visible; background: none; }
  .lane { grid-template-columns: 11rem minmax(0, 1fr) 6rem; font-size: 7.5pt; } }
";
