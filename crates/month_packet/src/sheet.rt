//! The sheet on which a pilot makes bids: a form that a script fills lines from, each in the grammar of `bids.txt`.

/// The form. It is hidden where no script runs; what stands above it says how bids are written by hand.
pub static FORM: &[u8] = br#"<h2 id="bids">Your bids</h2>
<p>A bid is a weight from 1 to 1000 and a wish: <code>20 fly TRIP</code>, <code>10 off 2026-06-06 to 2026-06-09</code>, <code>5 avoid layover FCO</code>, <code>5 prefer 2 weekday SUN and not days 1</code>, <code>3 credit below 75:00</code>, <code>3 daysoff 12</code>. Send your lines, at most 64, as a file of your name: <code>NAME.txt</code>.</p>
<form id="sheet" hidden>
<p><label>I am <select id="me"><option value="">..</option></select></label></p>
<p><label>Weight <input id="weight" value="10" size="4"></label>
<label>Wish <select id="wish"><option>fly</option><option>avoid</option><option>prefer</option><option>off</option><option>credit below</option><option>credit above</option><option>daysoff</option></select></label>
<span id="values"></span></p>
<p id="tests"></p>
<p><output id="told"></output></p>
<p><button type="button" id="add">Add this bid</button> <button type="button" id="show">Show these trips alone</button> <button type="button" id="all">Show all</button></p>
<p><label>Your lines<br><textarea id="lines" rows="8" cols="60"></textarea></label></p>
<p><button type="button" id="copy">Copy</button></p>
</form>
"#;

/// The script of the form.
pub static SHEET: &[u8] = br##"<script>
"use strict";
(() => {
  const get = id => document.getElementById(id);
  const make = (kind, parts) => Object.assign(document.createElement(kind), parts);
  const rows = [...document.querySelectorAll("#list tr")];
  const first = get("sheet").dataset.first, last = get("sheet").dataset.last;
  const minutes = clock => { const [h, m] = clock.split(":"); return 60 * h + Number(m); };
  const day = date => Number(date.slice(8));
  const clock = /^([01]\d|2[0-3]):[0-5]\d$/, station = /^[A-Z]{3}$/;
  const known = name => rows.some(row => row.dataset.name === name);
  const within = (least, most) => word => /^(0|[1-9]\d*)$/.test(word) && least <= word && word <= most;
  const date = word => /^\d{4}-\d\d-\d\d$/.test(word) && first <= word && word <= last;
  const has = key => (row, word) => row.dataset[key].split(" ").includes(word);
  const test = {
    "layover": [station, has("layover")],
    "departs": [station, has("departs")],
    "arrives": [station, has("arrives")],
    "report before": [clock, (row, word) => row.dataset.report < minutes(word)],
    "report after": [clock, (row, word) => minutes(word) < row.dataset.report],
    "release before": [clock, (row, word) => row.dataset.release < minutes(word)],
    "release after": [clock, (row, word) => minutes(word) < row.dataset.release],
    "days": [within(1, 40), (row, word) => row.dataset.days === word],
    "weekday": [/^(MON|TUE|WED|THU|FRI|SAT|SUN)$/, has("weekday")],
    "pairing": [known, (row, word) => row.dataset.name === word],
  };
  const fits = (form, word) => form instanceof RegExp ? form.test(word) : form(word);
  const fields = {
    "fly": [["trip", known]], "avoid": [], "prefer": [["how many", within(1, 600)]],
    "off": [["first day", date], ["last day", date]], "daysoff": [["days", within(0, 31)]],
    "credit below": [["credit", /^(0|[1-9]\d{0,2}):[0-5]\d$/]], "credit above": [["credit", /^(0|[1-9]\d{0,2}):[0-5]\d$/]],
  };
  const values = () => [...get("values").querySelectorAll("input")].map(field => field.value.trim());
  const atoms = () => [...get("tests").querySelectorAll(".atom")].map(box => {
    const [not, kind, word] = box.querySelectorAll("input, select");
    return { not: not.checked, kind: kind.value, word: word.value.trim() };
  });
  const isKept = row => atoms().every(a => test[a.kind][1](row, a.word) !== a.not);
  const hasTests = () => ["avoid", "prefer"].includes(get("wish").value);
  const touched = () => {
    const wish = get("wish").value, [one, two] = values();
    if (wish === "fly") return rows.filter(row => row.dataset.name === one);
    if (wish === "off") return rows.filter(row => row.dataset.first <= day(two || one) && day(one) <= row.dataset.last);
    return hasTests() ? rows.filter(isKept) : [];
  };
  const isWhole = () => {
    const wish = get("wish").value, words = values();
    if (!within(1, 1000)(get("weight").value.trim())) return false;
    if (wish === "off" && words[1] === "") words[1] = words[0];
    if (wish === "off" && words[1] < words[0]) return false;
    return fields[wish].every(([, form], at) => fits(form, words[at])) && (!hasTests() || atoms().every(a => fits(test[a.kind][0], a.word)));
  };
  const line = () => {
    const wish = get("wish").value, words = values().filter(Boolean);
    const kept = atoms().map(a => (a.not ? "not " : "") + a.kind + " " + a.word).join(" and ");
    return [get("weight").value.trim(), wish, words.join(wish === "off" ? " to " : " "), hasTests() ? kept : ""].filter(Boolean).join(" ");
  };
  const tell = () => {
    const whole = isWhole(), trips = whole ? touched() : [];
    rows.forEach(row => row.classList.toggle("touched", trips.includes(row)));
    get("add").disabled = !whole;
    get("told").textContent = whole ? line() + ": " + (hasTests() || fields[get("wish").value][0][0] !== "credit" && get("wish").value !== "daysoff" ? trips.length + " trips " + trips.slice(0, 40).map(row => row.dataset.name).join(" ") : "about the whole line") : "not whole yet";
  };
  const field = (name, kind) => { const label = make("label", { textContent: name + " " }); label.append(make("input", { size: 10, type: kind })); return label; };
  const addTest = () => {
    const box = make("span", { className: "atom" }), kind = make("select", {}), not = make("label", { textContent: "not" });
    Object.keys(test).forEach(name => kind.append(make("option", { textContent: name })));
    not.prepend(make("input", { type: "checkbox" }));
    box.append(not, kind, make("input", { size: 8 }));
    const more = make("button", { type: "button", textContent: "and" });
    more.onclick = () => { if (atoms().length < 8) { more.remove(); addTest(); tell(); } };
    get("tests").append(box, more);
  };
  const choose = () => {
    get("values").replaceChildren(...fields[get("wish").value].map(([name, form]) => field(name, form === date ? "date" : "text")));
    get("tests").replaceChildren();
    if (hasTests()) addTest();
    tell();
  };
  const put = text => { get("lines").value = (get("lines").value.trimEnd() + "\n" + text + "\n").trimStart(); };
  document.querySelectorAll(".pilot").forEach(part => get("me").append(make("option", { textContent: part.dataset.name })));
  get("me").onchange = () => document.querySelectorAll(".pilot").forEach(part => { part.hidden = get("me").value !== "" && part.dataset.name !== get("me").value; });
  get("wish").onchange = choose;
  get("sheet").oninput = tell;
  get("add").onclick = () => { if (isWhole()) put(line()); };
  get("show").onclick = () => rows.forEach(row => { row.hidden = !row.classList.contains("touched"); });
  get("all").onclick = () => rows.forEach(row => { row.hidden = false; });
  get("copy").onclick = () => { get("lines").select(); navigator.clipboard?.writeText(get("lines").value); };
  get("sheet").hidden = false;
  choose();
})();
</script>
"##;

/// The rules of the packet alone.
pub static STYLE: &[u8] =
    br#".calendar{display:grid;grid-template-columns:repeat(auto-fill,minmax(min(9rem,45%),1fr));gap:.3rem;padding:0;list-style:none;font-size:.8rem}
.calendar li{border:1px solid var(--rule);padding:.2rem .4rem;overflow-wrap:anywhere}
.calendar .w{background:var(--shade)}
tr.touched>*{background:var(--mark)}
#sheet{border:1px solid var(--rule);border-radius:6px;padding:.4rem .8rem}
#sheet p{margin:.4rem 0}
#sheet button:disabled{opacity:.4}
.atom{margin-right:.4rem;white-space:nowrap}
#told{font-size:.85rem;overflow-wrap:anywhere}
"#;
