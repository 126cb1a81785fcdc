//! The laws of patterns.
ghost use Rattle.std.specs.Prelude.{◌≡◌, ◌↔◌, ℕ, List, Result, true};
ghost use Rattle.alias_match.specs.Pattern.{BeginsLiterally, Matches, Piece, is_match};
ghost use Rattle.alias_match.specs.Reading.{Reads, pattern_of};
ghost use Rattle.alias_match.specs.declared.read.PatternError.{PatternError};

/// A text has one reading: it is one pattern, or it has one first fault.
pub fn one_reading()
    ensures { (text : List ℕ) (x y : Result (List Piece) PatternError)
        → Reads text x → Reads text y → x ≡ y }
{}

/// The test for a match says what the relation says.
pub fn match_is_decided()
    ensures { (ps : List Piece) (s : List ℕ) → (is_match ps s ≡ true) ↔ Matches ps s }
{}

/// Each text has a reading, the one that the function gives.
pub fn reading_is_total()
    ensures { (text : List ℕ) → Reads text (pattern_of text) }
{}

/// A text that a pattern matches begins with the pattern's literal beginning. So a pattern is left out of a look-up
/// if the text begins otherwise.
pub fn matches_begin_literally()
    ensures { BeginsLiterally }
{}
