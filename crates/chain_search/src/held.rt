//! Bounds that are lent.

use label_setter::Rest;

/// A bound that is lent, so that several climbs share it.
#[derive(Clone, Copy)]
pub struct Held<'a, B> {
    pub inner: &'a B,
}

impl<'a, R, B: Rest<R>> Rest<R> for Held<'a, B> {
    ghost rest = { λ held. B.rest held.inner.now };

    fn rest(&self, place: u32, resource: &R) -> i64 {
        self.inner.rest(place, resource)
    }
}
