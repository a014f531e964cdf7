//! Laws of the tokens of a text. Each is the contract of a function that does nothing.

ghost use Rattle.std.specs.Prelude.{◌≡◌, ℕ, List, map, All};
ghost use Rattle.med_lexer.specs.Lexemes.{IsLongestAt, Lexeme, Lexes, Shape};
ghost use Rattle.med_lexer.specs.Faults.{IsFaulty};
ghost use Rattle.med_lexer.specs.Printing.{AreShapes, printed};

/// A text has at most one list of tokens.
pub fn one_list()
    ensures { (text : List ℕ) (ts us : List Lexeme) → Lexes 0 text ts → Lexes 0 text us → ts ≡ us }
{}

/// In the list of a text's tokens each is spelled by the bytes that it covers, and is the longest token at its place.
pub fn longest()
    ensures { (text : List ℕ) (ts : List Lexeme) → Lexes 0 text ts → All (IsLongestAt text) ts }
{}

/// Where a text has no list of tokens, it begins with some tokens, and behind them stands a character that begins no token, a quote
/// that is not closed, an empty quoted name, a number directly before a letter or `_`, or a comment with U+0000 in it.
pub fn why_no_tokens()
    ensures { (text : List ℕ) → ((ts : List Lexeme) → Lexes 0 text ts → ⊥) → IsFaulty 0 text }
{}

/// What the tokens of a text say can be written, so that `printed_again` speaks of it.
pub fn tokens_can_be_printed()
    ensures { (text : List ℕ) (ts : List Lexeme) → Lexes 0 text ts → AreShapes (map (λ (t : Lexeme). t.shape) ts) }
{}

/// What is written with one space between tokens has those tokens.
pub fn printed_again()
    ensures { (ss : List Shape) → AreShapes ss → (ts : List Lexeme) × Lexes 0 (printed ss) ts × (map (λ (t : Lexeme). t.shape) ts ≡ ss) }
{}
