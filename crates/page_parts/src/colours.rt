//! The colours of pages, by day and by night.

/// The colours: those of paper, and those that a reader sees who asked for a dark screen.
pub static COLOURS: &[u8] =
    br#":root{color-scheme:light dark;--ink:#15202b;--soft:#56626d;--rule:#d5dbe1;--shade:#eef1f4;--paper:#fff;--trip:#cfe3f7;--edge:#1f5c99;--link:#0b4f8a;--no:#a12622;--yes:#1d6b2a;--mark:#fff6d6;--fly:#e6ddf5;--flown:#5b3a96;--ground:#f4d9b8;--grounded:#8a5a12;--leave:#dff0db;--left:#2f6b34}
@media screen and (prefers-color-scheme:dark){:root{--ink:#e6ebf0;--soft:#a3afba;--rule:#37424d;--shade:#1e2730;--paper:#12171d;--trip:#234b73;--edge:#83b9ee;--link:#8fc4f8;--no:#ff9d95;--yes:#8bd694;--mark:#463e17;--fly:#3d2f5b;--flown:#bfa3f2;--ground:#4c3818;--grounded:#e0b36a;--leave:#1f3d22;--left:#8bd694}}
"#;
