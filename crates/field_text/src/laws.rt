//! Laws of the forms of fields and of the tokens of a line.
ghost use Rattle.std.specs.Prelude.{◌≡◌, ◌↔◌, ℕ, ◌+◌, ◌<◌, ◌≤◌, ◌^◌, ◌∷◌, [], ◌++◌, List as Sequence, length, Some, None, Ok, IsTrue};
ghost use Rattle.std.specs.List.{list_all};
ghost use Rattle.duty_calendar.specs.Calendar.{horizon_end};
ghost use Rattle.duty_calendar.specs.Forms.{is_name, is_station_code};
ghost use Rattle.duty_calendar.specs.declared.event.Kind.{Kind};
ghost use Rattle.duty_calendar.specs.declared.horizon.Horizon.{Horizon};
ghost use Rattle.field_text.specs.Form.{Form, fault_from};
ghost use Rattle.field_text.specs.Columns.{Fits, StopsAt, is_live};
ghost use Rattle.field_text.specs.Fields.{forms, number_field, minutes_field, moment_field, name_field, station_field, kind_field};
ghost use Rattle.field_text.specs.Spelling.{number_text, minutes_text, moment_text, kind_text};
ghost use Rattle.field_text.specs.Tokens.{is_graphic, token_at, tokens_from, ◌andthen◌};

/// What the column of a fault of shape says of the texts of a form. Each part of the fields' forms
/// can be gone on to its end, so this holds of each of them.
pub fn column_laws()
    ensures live { IsTrue (list_all is_live forms) }
    // There is no column where the text is of the form.
    ensures fits { (f : Form) (text : Sequence ℕ) → IsTrue (is_live f)
        → (fault_from 1 f text ≡ None) ↔ Fits f text }
    // A column is that of the first byte at which no text of the form goes on.
    ensures stops { (f : Form) (text : Sequence ℕ) (column : ℕ) → IsTrue (is_live f)
        → fault_from 1 f text ≡ Some column → StopsAt (Fits f) text column }
{}

/// A word and a space in front of other words give the word's token in front of theirs, and a last
/// word its own alone.
pub fn word_laws()
    ensures more { (n b : ℕ) (bs rest : Sequence ℕ) → IsTrue (list_all is_graphic (b ∷ bs))
        → tokens_from None n ((b ∷ bs) ++ (32 ∷ rest))
        ≡ (token_at n (b ∷ bs) ∷ []) andthen tokens_from None (n + length (b ∷ bs) + 1) rest }
    ensures last { (n b : ℕ) (bs : Sequence ℕ) → IsTrue (list_all is_graphic (b ∷ bs))
        → tokens_from None n (b ∷ bs) ≡ Ok (token_at n (b ∷ bs) ∷ []) }
{}

/// Each field reads as the value that it spells.
pub fn field_laws()
    ensures number { (n : ℕ) → n < 2 ^ 32 → number_field (number_text n) ≡ Ok n }
    ensures minutes { (n : ℕ) → n < 60000 → minutes_field (minutes_text n) ≡ Ok n }
    ensures moment { (h : Horizon) (n : ℕ) → n ≤ horizon_end h
        → moment_field h (moment_text h n) ≡ Ok n }
    ensures name { (text : Sequence ℕ) → IsTrue (is_name text) → name_field text ≡ Ok text }
    ensures station { (text : Sequence ℕ) → IsTrue (is_station_code text)
        → station_field text ≡ Ok text }
    ensures kind { (k : Kind) → kind_field (kind_text k) ≡ Ok k }
{}
