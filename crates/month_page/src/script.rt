//! The script of a page. The page is whole without it: it adds a field to search in, and sorts tables by their columns.

/// Search and sort.
pub static SCRIPT: &[u8] = br#"<script>
"use strict";
(() => {
  const all = (what, within = document) => [...within.querySelectorAll(what)];
  const value = (row, at) => {
    const cell = row.cells[at];
    return cell.dataset.v ?? cell.textContent.trim();
  };
  const compare = (a, b) => {
    const difference = parseFloat(a) - parseFloat(b);
    const numbers = /^[\d.]/.test(a) && /^[\d.]/.test(b);
    return numbers && difference ? difference : a.localeCompare(b, "en", { numeric: true });
  };
  const sort = (table, at, down) => {
    const body = table.tBodies[0];
    const rows = [...body.rows].map(row => [value(row, at), row]);
    rows.sort((a, b) => compare(a[0], b[0]) * (down ? -1 : 1));
    rows.forEach(pair => body.append(pair[1]));
  };
  for (const table of all("table.sort")) {
    all("thead th.k", table).forEach(head => {
      const button = document.createElement("button");
      button.type = "button";
      button.append(...head.childNodes);
      head.append(button);
      button.addEventListener("click", () => {
        const down = head.getAttribute("aria-sort") === "ascending";
        all("thead th", table).forEach(other => other.removeAttribute("aria-sort"));
        head.setAttribute("aria-sort", down ? "descending" : "ascending");
        sort(table, head.cellIndex, down);
      });
    });
  }
  const place = document.getElementById("search");
  if (!place) return;
  const field = document.createElement("input");
  field.type = "search";
  field.placeholder = "Search pilots, trips, bids";
  field.setAttribute("aria-label", field.placeholder);
  place.append(field);
  const parts = all("tbody tr, main section").filter(part => !part.closest("footer"));
  const texts = parts.map(part => part.textContent.toLowerCase());
  field.addEventListener("input", () => {
    const words = field.value.toLowerCase().split(/\s+/).filter(Boolean);
    parts.forEach((part, at) => { part.hidden = !words.every(word => texts[at].includes(word)); });
  });
})();
</script>
"#;
