//! The classes of tokens that begin statements and their parts, as numbers (Language Reference, chapter 2, for the tokens).

ghost use Rattle.std.specs.Prelude.{◌≡◌, ◌∷◌, []};
ghost use Rattle.phrases.specs.Sets.{has, starts};
ghost use Rattle.py_ast.specs.Kinds.{class};
ghost use Rattle.py_ast.specs.Tokens.{name_codes};
ghost use Rattle.py_ast.specs.Grammar.{expr_first};
ghost use Rattle.py_ast.specs.Literals.{literal_codes, literal_first, literal_argument_first};
ghost use Rattle.py_ast.specs.Statements.{augment_codes, word_codes, return_first, simple_first};
ghost use Rattle.py_ast.specs.Files.{member_first, file_simple_first, compound_first, function_first, definition_first};

use py_expr::class::{
    AMPERSAND_EQUAL, ASSERT, AT, AT_EQUAL, BAR_EQUAL, BREAK, CARET_EQUAL, CLASS, CONTINUE, DEF,
    DOUBLE_SLASH_EQUAL, DOUBLE_STAR_EQUAL, ELLIPSIS, FALSE, FOR, FROM, IF, IMPORT, LEFT_BRACE,
    LEFT_BRACKET, LEFT_PAREN, LEFT_SHIFT_EQUAL, MINUS_EQUAL, NAME, NONE, NUMBER, PASS,
    PERCENT_EQUAL, PLUS_EQUAL, RETURN, RIGHT_SHIFT_EQUAL, SLASH_EQUAL, STAR_EQUAL, SUPER, TEXT,
    TRUE, WHILE, begins_expr, class_of,
};
use py_lexer::Token;

/// Whether the class is that of a name, `super` among them.
fn is_name(class: u8) -> bool
    ensures { result ≡ has name_codes class }
{
    class == NAME || class == SUPER
}

/// Whether the class is that of an operator with `=`.
pub(crate) fn is_augmented(class: u8) -> bool
    ensures { result ≡ has augment_codes class }
{
    class == PLUS_EQUAL
        || class == MINUS_EQUAL
        || class == STAR_EQUAL
        || class == SLASH_EQUAL
        || class == DOUBLE_SLASH_EQUAL
        || class == PERCENT_EQUAL
        || class == AT_EQUAL
        || class == AMPERSAND_EQUAL
        || class == BAR_EQUAL
        || class == CARET_EQUAL
        || class == RIGHT_SHIFT_EQUAL
        || class == LEFT_SHIFT_EQUAL
        || class == DOUBLE_STAR_EQUAL
}

/// Whether the class is that of `pass`, or in a loop of `break` or `continue`.
pub(crate) fn is_word(loops: bool, class: u8) -> bool
    ensures { result ≡ has (word_codes loops) class }
{
    if loops {
        class == PASS || class == BREAK || class == CONTINUE
    } else {
        class == PASS
    }
}

/// Whether the class is that of `assert`, or in a function of `return`.
fn is_return(returns: bool, class: u8) -> bool
    ensures { result ≡ has (return_first returns) class }
{
    if returns {
        class == ASSERT || class == RETURN
    } else {
        class == ASSERT
    }
}

/// Whether the class begins a simple statement.
#[tactic(auto, using(crate::proofs::Firsts::simple_first_has))]
pub fn begins_simple(returns: bool, loops: bool, class: u8) -> bool
    ensures { result ≡ has (simple_first returns loops) class }
{
    let expr = begins_expr(class);
    let word = is_word(loops, class);
    let returning = is_return(returns, class);
    expr || word || returning
}

/// Whether the class begins a simple statement of a class.
pub fn begins_member(class: u8) -> bool
    ensures { result ≡ has member_first class }
{
    class == NAME || class == PASS || class == ELLIPSIS || class == TEXT
}

/// Whether the class begins a simple statement of a file.
pub fn begins_file_simple(class: u8) -> bool
    ensures { result ≡ has file_simple_first class }
{
    class == IMPORT || class == FROM || begins_simple(false, false, class)
}

/// Whether the class begins an `if` or a loop.
pub fn begins_compound(class: u8) -> bool
    ensures { result ≡ has compound_first class }
{
    class == IF || class == WHILE || class == FOR
}

/// Whether the class begins a function, with decorators or without.
pub fn begins_function(class: u8) -> bool
    ensures { result ≡ has function_first class }
{
    class == AT || class == DEF
}

/// Whether the class begins a function or a class, with decorators or without.
pub fn begins_definition(class: u8) -> bool
    ensures { result ≡ has definition_first class }
{
    class == AT || class == DEF || class == CLASS
}

/// Whether the class is that of a literal of one token, but a string.
fn is_literal(class: u8) -> bool
    ensures { result ≡ has literal_codes class }
{
    class == NUMBER || class == FALSE || class == NONE || class == TRUE || class == ELLIPSIS
}

/// Whether the class begins a literal.
fn begins_literal(class: u8) -> bool
    ensures { result ≡ has literal_first class }
{
    is_literal(class)
        || class == TEXT
        || class == LEFT_PAREN
        || class == LEFT_BRACKET
        || class == LEFT_BRACE
}

/// Whether the class begins a literal argument, where `keyword` says that it must have a keyword.
fn begins_argument(keyword: bool, class: u8) -> bool
    ensures { result ≡ has (literal_argument_first keyword) class }
{
    if keyword {
        is_name(class)
    } else {
        is_name(class) || begins_literal(class)
    }
}

/// Whether a name stands at the front.
pub(crate) fn stands_name(tokens: &[Token]) -> bool
    ensures { result ≡ starts class name_codes tokens.now }
{
    match tokens {
        [first, ..] => is_name(class_of(first)),
        [] => false,
    }
}

/// Whether an expression begins at the front.
pub(crate) fn stands_expr(tokens: &[Token]) -> bool
    ensures { result ≡ starts class expr_first tokens.now }
{
    match tokens {
        [first, ..] => begins_expr(class_of(first)),
        [] => false,
    }
}

/// Whether an operator with `=` stands at the front.
pub(crate) fn stands_augmented(tokens: &[Token]) -> bool
    ensures { result ≡ starts class augment_codes tokens.now }
{
    match tokens {
        [first, ..] => is_augmented(class_of(first)),
        [] => false,
    }
}

/// Whether `pass`, or in a loop `break` or `continue`, stands at the front.
pub fn stands_word(tokens: &[Token], loops: bool) -> bool
    ensures { result ≡ starts class (word_codes loops) tokens.now }
{
    match tokens {
        [first, ..] => is_word(loops, class_of(first)),
        [] => false,
    }
}

/// Whether an `if` or a loop begins at the front.
pub fn stands_compound(tokens: &[Token]) -> bool
    ensures { result ≡ starts class compound_first tokens.now }
{
    match tokens {
        [first, ..] => begins_compound(class_of(first)),
        [] => false,
    }
}

/// Whether a function begins at the front, with decorators or without.
pub fn stands_function(tokens: &[Token]) -> bool
    ensures { result ≡ starts class function_first tokens.now }
{
    match tokens {
        [first, ..] => begins_function(class_of(first)),
        [] => false,
    }
}

/// Whether a function or a class begins at the front, with decorators or without.
pub fn stands_definition(tokens: &[Token]) -> bool
    ensures { result ≡ starts class definition_first tokens.now }
{
    match tokens {
        [first, ..] => begins_definition(class_of(first)),
        [] => false,
    }
}

/// Whether a literal of one token, but no string, stands at the front.
pub(crate) fn stands_literal_token(tokens: &[Token]) -> bool
    ensures { result ≡ starts class literal_codes tokens.now }
{
    match tokens {
        [first, ..] => is_literal(class_of(first)),
        [] => false,
    }
}

/// Whether a literal begins at the front.
pub(crate) fn stands_literal(tokens: &[Token]) -> bool
    ensures { result ≡ starts class literal_first tokens.now }
{
    match tokens {
        [first, ..] => begins_literal(class_of(first)),
        [] => false,
    }
}

/// Whether a literal argument begins at the front, where `keyword` says that it must have a keyword.
pub(crate) fn stands_argument(tokens: &[Token], keyword: bool) -> bool
    ensures { result ≡ starts class (literal_argument_first keyword) tokens.now }
{
    match tokens {
        [first, ..] => begins_argument(keyword, class_of(first)),
        [] => false,
    }
}
