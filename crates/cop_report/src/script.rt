//! The scripts of a page. Without them it shows the same, in one order.

/// Sorts the table of PDOs by the column whose head is pressed, and shows the PDOs that have some words. A PDO is a body of the table. A column of numbers has its head
/// at the right, and the numbers stand first in their cells.
pub(crate) const TABLE_SCRIPT: &str = "
(() => {
  const table = document.querySelector('#pdos table'), find = document.getElementById('find');
  const field = find.querySelector('input'), shown = find.querySelector('output');
  const heads = Array.from(table.tHead.rows[0].cells), pdos = Array.from(table.tBodies);
  const text = (pdo, column) => pdo.rows[0].cells[column].textContent;
  const byNumber = (column) => (a, b) => parseFloat(text(a, column)) - parseFloat(text(b, column));
  const byText = (column) => (a, b) => text(a, column).localeCompare(text(b, column));

  function sort(head, column) {
    const falls = head.ariaSort === 'ascending';
    for (const other of heads) other.ariaSort = null;
    head.ariaSort = falls ? 'descending' : 'ascending';
    pdos.sort(head.className === 'n' ? byNumber(column) : byText(column));
    table.append(...(falls ? pdos.slice().reverse() : pdos));
  }

  function filter() {
    const words = field.value.toLowerCase().split(' ').filter(Boolean);
    for (const pdo of pdos) {
      const has = pdo.textContent.toLowerCase();
      pdo.hidden = !words.every((word) => has.includes(word));
    }
    shown.value = `${pdos.filter((pdo) => !pdo.hidden).length} of ${pdos.length}`;
  }

  heads.forEach((head, column) => {
    if (!head.textContent) return;
    const button = document.createElement('button');
    button.append(...head.childNodes);
    button.addEventListener('click', () => sort(head, column));
    head.append(button);
  });
  heads[0].ariaSort = 'ascending';
  field.addEventListener('input', filter);
  addEventListener('hashchange', () => { field.value = ''; filter(); });
  find.hidden = false;
  filter();
})();
";

/// Opens what is folded before the page is printed, and folds it again afterwards.
pub(crate) const PRINT_SCRIPT: &str = "
(() => {
  addEventListener('beforeprint', () => {
    for (const folded of document.querySelectorAll('details:not([open])')) {
      folded.open = true;
      folded.dataset.folded = '';
    }
  });
  addEventListener('afterprint', () => {
    for (const opened of document.querySelectorAll('details[data-folded]')) {
      opened.open = false;
      delete opened.dataset.folded;
    }
  });
})();
";

/// Shows a window of the lanes: each bar is moved by the window's begin, and each lane gets its length. Moments are in ticks of
/// 250 ns from the first one that is drawn; the fields and the axis have milliseconds of the trace.
pub(crate) const LANES_SCRIPT: &str = "
(() => {
  const least = 40;
  const byId = (id) => document.getElementById(id);
  const lanes = byId('lanes'), from = byId('from'), to = byId('to');
  const begin = Number(lanes.dataset.begin), whole = Number(lanes.dataset.span);
  const pictures = lanes.querySelectorAll('svg'), marks = lanes.querySelector('.marks');
  const bars = Array.from(lanes.querySelectorAll('rect'), (bar) => [bar, Number(bar.getAttribute('x'))]);
  const millis = (tick) => String(Math.round((begin + tick) / 4) / 1000);
  const tick = (field) => Number(field.value) * 4000 - begin;
  let first = 0, span = whole;

  function step() {
    let it = 4;
    for (let turn = 0; it * 8 < span; turn += 1) it *= turn % 3 === 1 ? 2.5 : 2;
    return it;
  }

  function mark() {
    const each = step(), start = begin + first, at = Math.ceil(start / each) * each - start;
    const values = { '--span': span, '--first': at, '--step': each };
    for (const name in values) lanes.style.setProperty(name, values[name]);
    marks.replaceChildren();
    for (let it = at; it <= span; it += each) {
      const shown = document.createElement('span');
      shown.style.setProperty('--at', it);
      shown.textContent = millis(first + it);
      marks.append(shown);
    }
  }

  function show(start, length) {
    span = Math.min(Math.max(length, least), whole);
    first = Math.min(Math.max(start, 0), whole - span);
    for (const [bar, at] of bars) bar.setAttribute('x', at - first);
    for (const picture of pictures) picture.setAttribute('viewBox', `0 0 ${span} 20`);
    mark();
    from.value = millis(first);
    to.value = millis(first + span);
  }

  function typed() {
    const start = tick(from), end = tick(to);
    if (from.value && to.value && start < end) show(start, end - start);
    else show(first, span);
  }

  from.addEventListener('change', typed);
  to.addEventListener('change', typed);
  byId('in').addEventListener('click', () => show(first + span / 4, span / 2));
  byId('out').addEventListener('click', () => show(first - span / 2, span * 2));
  byId('left').addEventListener('click', () => show(first - span / 2, span));
  byId('right').addEventListener('click', () => show(first + span / 2, span));
  byId('whole').addEventListener('click', () => show(0, whole));
  byId('window').hidden = false;
  show(0, whole);
})();
";
