//! Texts that would be markup in a page.

use duty_calendar::List;
use page_parts::put_escaped;
use std::test::Fail;

#[test]
fn a_text_makes_no_markup(rt: HostRuntime) -> Result<(), Fail> {
    let mut out = List::new(rt.alloc());
    put_escaped(&mut out, b"<a b='c' d=\"e\">&f</a>")?;
    let due = b"&lt;a b=&#39;c&#39; d=&quot;e&quot;&gt;&amp;f&lt;/a&gt;";
    assert!(rt; out.as_slice() == due.as_slice());
    Ok(())
}
