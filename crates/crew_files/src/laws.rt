//! Laws of the form of flights.
ghost use Rattle.std.specs.Prelude.{◌≡◌, ◌↔◌, ℕ, List as Sequence, Some, None};
ghost use Rattle.field_text.specs.Columns.{StopsAt};
ghost use Rattle.crew_files.specs.Flights.{flights_fault, AreFlights};

/// What the column of a fault of shape says of a field of flights.
pub fn flights_laws()
    // There is no column where the text is of flights.
    ensures fits { (text : Sequence ℕ) → (flights_fault 0 text ≡ None) ↔ AreFlights text }
    // A column is that of the first byte at which no text of flights goes on.
    ensures stops { (text : Sequence ℕ) (column : ℕ) → flights_fault 0 text ≡ Some column
        → StopsAt AreFlights text column }
{}
