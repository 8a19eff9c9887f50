//! What pages look like.

use crate::colours::COLOURS;
use crate::html::Html;
use duty_calendar::Memory;

/// The rules for all pages: text, tables, cards, charts, paper.
static COMMON: &[u8] = br#"*,*:before{box-sizing:border-box}
html{-webkit-text-size-adjust:100%}
body{margin:0;padding:1rem;color:var(--ink);background:var(--paper);font:.95rem/1.35 system-ui,-apple-system,"Segoe UI",Roboto,"DejaVu Sans",sans-serif}
h1{margin:0;font-size:1.5rem}
h2{margin:1.6rem 0 .5rem;font-size:1.2rem}
h3{margin:0;font-size:1.05rem}
h4{margin:.5rem 0 .1rem;font-size:.9rem}
p{margin:.15rem 0}
a{color:var(--link)}
small{color:var(--soft);font-size:.85em;font-weight:400}
nav a{margin-right:1rem}
table{border-collapse:separate;border-spacing:0;font-size:.8rem;font-variant-numeric:tabular-nums}
th,td{padding:.15rem .4rem;border-bottom:1px solid var(--rule);background:var(--paper);text-align:left;vertical-align:top}
thead th{position:sticky;top:0;z-index:3;border-bottom:2px solid var(--ink);vertical-align:bottom}
td.r,th.r{text-align:right;white-space:nowrap}
.wide{overflow:auto}
table.list{width:100%}
thead th button{all:unset;cursor:pointer;text-decoration:underline dotted}
input,select,button,textarea{font:inherit;color:inherit;background:var(--paper);border:1px solid var(--soft);border-radius:4px;padding:.15rem .4rem;max-width:100%}
tr:target>*{background:var(--mark)}
tr,section{scroll-margin-top:4rem}
main{display:grid;grid-template-columns:repeat(auto-fill,minmax(min(22rem,100%),1fr));gap:.8rem}
section{padding:.6rem .8rem;border:1px solid var(--rule);border-radius:6px;font-size:.85rem;overflow-wrap:anywhere}
section:target{outline:3px solid #e0b52e}
section ul,section ol{margin:.2rem 0;padding-left:1.6rem}
section ul.plain{padding:0;list-style:none}
section li small{display:block}
.y{color:var(--yes)}
.x{color:var(--no)}
p.why{padding-left:.6rem;border-left:2px solid var(--no)}
figure{margin:.6rem 0 1.2rem}
figcaption{font-size:.85rem}
svg.chart{display:block;width:100%;height:7rem;border-bottom:1px solid var(--soft);background:var(--paper)}
rect.whole{fill:var(--shade)}
rect.part{fill:var(--edge)}
rect.dot{fill:var(--ink)}
footer{margin-top:1.6rem;color:var(--soft);font-size:.8rem}
code{overflow-wrap:anywhere}
[hidden]{display:none!important}
@media screen and (max-width:40rem){body{padding:.5rem}table.list{font-size:.75rem}th,td{padding:.15rem .25rem}}
@media print{@page{size:A4 landscape;margin:8mm}*{-webkit-print-color-adjust:exact;print-color-adjust:exact}
html{font-size:10px}
body{padding:0}
.wide{overflow:visible;border:0}
thead{display:table-header-group}
thead th,th.n{position:static}
tr,li,figure,p.why{break-inside:avoid}
h2,h3,h4{break-after:avoid}
a{color:inherit;text-decoration:none}
input,select,button,textarea,.tool{display:none!important}
main{display:block;columns:3;column-gap:1.2rem}
section{break-inside:avoid;margin:0 0 .8rem;padding:.4rem .6rem}}
"#;

/// Appends the rules for all pages.
pub fn put_style(html: &mut Html) -> Result<(), Memory> {
    html.markup(COLOURS)?;
    html.markup(COMMON)
}
