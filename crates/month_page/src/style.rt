//! What the page of a month looks like.

/// The rules of strips and of the roster. `--t` is how many minutes the month has, `--n` how long the longest name is. What
/// lies in a strip begins at `--a` and has `--w` minutes; a label has `--v` on a narrow screen, where labels stand in two lanes.
pub static STYLE: &[u8] =
    br#".key{display:flex;flex-wrap:wrap;gap:.3rem 1.2rem;margin:.6rem 0;padding:0;list-style:none;font-size:.85rem}
.key li{display:flex;align-items:center;gap:.4rem}
.key .strip{width:2.4rem;height:1.4rem;background:none;--t:1}
table.roster{table-layout:fixed;width:100%}
.roster th,.roster td{padding:.1rem .3rem;vertical-align:middle}
.roster th.n{position:sticky;left:0;z-index:2;width:calc(var(--n)*1.1ch + 2.4rem);white-space:nowrap;overflow:hidden;text-overflow:ellipsis}
.roster thead th.n{z-index:4}
th.n small{display:inline-block;min-width:1.5em;text-align:right}
.roster th.c{width:5.6rem}
.roster th.s{width:3.2rem}
.roster th.v{width:4.2rem}
.roster th.f{width:2.6rem}
.roster td.c small{display:block;line-height:1}
.roster td.l,.roster th.l{padding:0}
.strip{position:relative;height:2.9rem;overflow:hidden}
.strip>*{position:absolute;left:calc(var(--a)*100%/var(--t));width:calc(var(--w,1440)*100%/var(--t));overflow:hidden;white-space:nowrap;text-decoration:none}
.days{height:2.3rem}
.days>.d{top:.2rem;text-align:center;font-weight:400;font-size:.75rem;line-height:1.1}
.days>.w{font-weight:700}
.days small{display:block;font-size:.62rem}
.strip>b{top:.25rem;height:1.1rem;min-width:4px;border:1px solid var(--edge);border-radius:3px}
b.t{background:var(--trip);border-left-width:3px}
b.f{background:var(--fly);border:3px double var(--flown)!important}
b.g{background:repeating-linear-gradient(135deg,var(--ground) 0 3px,var(--paper) 3px 6px);border-color:var(--grounded)!important}
b.l{background:radial-gradient(var(--left) 1px,var(--leave) 1.2px) 0 0/6px 6px;border:1px dashed var(--left)!important}
b.o{border-right:4px dotted var(--edge)!important;border-top-right-radius:0;border-bottom-right-radius:0}
.strip>.n{top:1.4rem;height:.8rem;line-height:.8rem;font-size:.66rem;font-weight:600;container-type:inline-size}
.strip>.n i{display:block;overflow:hidden;text-overflow:ellipsis;font-style:normal;padding-right:.12rem}
@container (max-width:2.1rem){.n i{font-size:.54rem}}
@container (max-width:1.3rem){.n i{display:none!important}}
.strip>u{top:.25rem;height:1.1rem;width:calc(var(--k)*144000%/var(--t));background:radial-gradient(circle,var(--soft) 1.5px,#0000 2px) 0 0/calc(100%/var(--k)) 100%}
.strip>s{top:2.25rem;height:4px;border-radius:2px;background:var(--yes)}
.strip>s.x{top:2.5rem;background:repeating-linear-gradient(90deg,var(--no) 0 4px,#0000 4px 6px)}
span.m{position:relative;display:block;width:100%;height:.35rem;margin:2px 0;border:1px solid var(--soft);background:var(--shade)}
span.m:before{content:"";position:absolute;top:-2px;bottom:-2px;width:3px;margin-left:-1px;left:calc(var(--a,1)*100%/var(--s,2));background:var(--ink)}
.own .strip:not(.days){height:3.2rem}
@media screen and (max-width:40rem){.roster,.roster thead,.roster tbody{display:block}.roster tr{display:flex;flex-wrap:wrap;border-bottom:1px solid var(--rule)}.roster th,.roster td{border:0;width:auto!important}.roster th.n{position:static;flex:1}.roster td.c small{display:inline}.roster span.m{display:none}.roster td.l,.roster th.l{flex:0 0 100%}.roster thead{position:sticky;top:0;z-index:3;background:var(--paper)}.roster thead th:not(.l){display:none}.days small{display:none}.days>.d{font-size:.54rem}.days{height:1rem}.roster td.s:before{content:"score "}.roster td.f:after{content:" off"}.roster .strip:not(.days),.own .strip:not(.days){height:3.5rem}.strip>.n{width:calc(var(--v)*100%/var(--t));font-size:.6rem}.strip>.n:nth-of-type(even){top:2.2rem}.roster .strip>s,.own .strip>s{top:3rem}.roster .strip>s.x,.own .strip>s.x{top:3.25rem}}
@media print{.roster{font-size:7.5px}.roster th,.roster td{padding:0 2px}.roster td.c small{display:none}.roster span.m{display:none}.strip{height:20px}.days{height:20px}.strip>b,.strip>u{top:1px;height:8px}.strip>.n{top:10px;height:7px;line-height:7px;font-size:6.5px}.strip>s{top:17px;height:1.5px}.strip>s.x{top:18.5px}.roster th.c{width:34px}.roster th.s,.roster th.v,.roster th.f{width:26px}.sheet{break-after:page}section.big{column-span:all}section.big ol{columns:3}h1{font-size:14px}.key{margin:2px 0;font-size:8px}.key .strip{height:10px}header p{font-size:8px}details::details-content{content-visibility:visible}}
"#;

/// What each bar and mark means.
pub static LEGEND: &[u8] = br#"<ul class="key">
<li><span class="strip"><b class="t" style="--a:0;--w:1"></b></span> trip, from report to release</li>
<li><span class="strip"><b class="t o" style="--a:0;--w:1"></b></span> goes on after the month</li>
<li><span class="strip"><b class="f" style="--a:0;--w:1"></b></span> fixed flight</li>
<li><span class="strip"><b class="g" style="--a:0;--w:1"></b></span> ground duty</li>
<li><span class="strip"><b class="l" style="--a:0;--w:1"></b></span> leave, which counts as days off</li>
<li>&middot; day off</li>
<li><span class="strip"><s class="y" style="--a:0;--w:1;top:.5rem"></s></span> trip or days, wanted and given</li>
<li><span class="strip"><s class="x" style="--a:0;--w:1;top:.5rem"></s></span> wanted and not given</li>
</ul>
"#;
