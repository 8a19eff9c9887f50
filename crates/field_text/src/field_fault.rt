//! What is wrong with a field.
ghost use Rattle.std.specs.Prelude.{◌≡◌};
ghost use Rattle.field_text.specs.Codes.{field_code};

use thiserror::Error;

/// Why a text is no field of its form, tested in this order.
#[derive(Clone, Copy, Debug, PartialEq, Eq, Error)]
pub enum FieldFault {
    /// The field is empty. Code 1.
    #[error("an empty field")]
    Empty,
    /// The column, from 1, of the first byte at which no text of the form goes on. Code 2.
    #[error("no field of this form from byte {0} on")]
    Shape(u32),
    /// A value outside the field's range. Code 3.
    #[error("out of range")]
    Range,
    /// A day that the calendar does not have. Code 4.
    #[error("no day of the calendar")]
    NoSuchDay,
    /// A moment outside the horizon. Code 5.
    #[error("outside the horizon")]
    OutsideHorizon,
}

impl FieldFault {
    /// The number by which the fault is printed.
    pub fn code(&self) -> u32
        ensures value { result ≡ field_code self.now }
    {
        match self {
            FieldFault::Empty => 1,
            FieldFault::Shape(_) => 2,
            FieldFault::Range => 3,
            FieldFault::NoSuchDay => 4,
            FieldFault::OutsideHorizon => 5,
        }
    }
}
