//! Laws of model files. Nothing here runs: a contract is the law.

ghost use Rattle.std.specs.Prelude.{◌≡◌, ℕ, List, None};
ghost use Rattle.py_lexer.specs.declared.token.Token.{Token};
ghost use Rattle.pysa_syntax.specs.declared.decl.Decl.{Decl};
ghost use Rattle.pysa_syntax.specs.Faults.{Spells};
ghost use Rattle.pysa_syntax.specs.Forms.{form_at};
ghost use Rattle.pysa_syntax.specs.Laws.{HasOneAnswer};

/// Each text declares one list of models, or else has one fault.
pub fn one_answer()
    ensures { (text : List ℕ) → HasOneAnswer text }
{}

/// No list of tokens spells two lists of models.
pub fn one_reading()
    ensures { (ts : List Token) (a b : List Decl) → Spells ts a → Spells ts b → a ≡ b }
{}

/// No list of tokens that spells models has a form in it that isn't read, so a text with one has a fault.
pub fn no_form_is_read()
    ensures { (ts : List Token) (decls : List Decl) → Spells ts decls → (i : ℕ) → form_at ts i ≡ None }
{}
