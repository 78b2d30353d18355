//! The addresses and sizes of the lines of a source text.
ghost use Rattle.std.specs.Prelude.{◌≡◌, ℕ, List, Ok, map};
ghost use Rattle.std.specs.List.{flat_map};
ghost use Rattle.mcs_source.specs.Assembly.{assembly_of_text};
ghost use Rattle.mcs_source.specs.Survey.{Survey, survey_of_text};
ghost use Rattle.mcs_source.specs.SpanAddresses.{addresses_of_span};

/// The address at which a line starts, and the number of bytes that the line emits.
#[derive(Clone, Copy, Debug, PartialEq, Eq)]
pub struct Span {
    /// The address at which the line starts; 4096 if the line starts after the last ROM address.
    pub at: u16,
    /// The number of bytes that the line emits.
    pub size: u16,
}

/// Proves the law of surveys: the addresses in the spans of a text, in line order, are the
/// addresses of the bytes that the text emits. The law covers every text that assembles. The
/// function has an empty body.
pub fn spans_law()
    ensures { (text : List ℕ) (pairs : List (ℕ × ℕ)) (survey : Survey) → assembly_of_text text ≡ Ok pairs
        → survey_of_text text ≡ Ok survey → map (λ p. p.0) pairs ≡ flat_map addresses_of_span survey.spans }
{}
