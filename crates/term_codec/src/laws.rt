//! Laws of spellings. Each holds for all terms, and its function does nothing.

ghost use Rattle.std.specs.Prelude.{◌≡◌, List, ℕ, ◌++◌};
ghost use Rattle.json_terms.specs.Json.{Json};
ghost use Rattle.json_terms.specs.Terms.{IsTerm};
ghost use Rattle.term_codec.specs.Spelling.{spelling};
ghost use Rattle.term_codec.specs.SpelledAt.{IsWithin};

/// No spelling is the beginning of another: of two terms whose spellings begin the same bytes, each is the other, and the
/// same bytes are left.
pub fn spellings_are_prefix_free()
    ensures { (t u : Json) (rest more : List ℕ) → IsTerm t → IsWithin t → IsTerm u → IsWithin u
        → spelling t ++ rest ≡ spelling u ++ more → (t ≡ u) × (rest ≡ more) }
{}
