//! Where in an expression a token stands.

ghost use Rattle.std.specs.Prelude.{◌≡◌};
ghost use Rattle.later_forms.specs.Spots.{is_behind, is_begin, is_item, is_slice, is_parameter, is_behind_async, wants_operand, takes_name, takes_string, takes_expression, goes_on_primary};

/// Where in an expression a token stands, by the token before it.
#[derive(Clone, Copy, Debug, PartialEq, Eq)]
pub enum Spot {
    /// Directly behind the bracket.
    Begin,
    /// Behind a comma, or what may end there too.
    Item,
    /// Where an expression must begin.
    Value,
    /// Where one without a `lambda` must begin.
    Inversion,
    /// Where one without a `not` must begin either.
    Operand,
    /// Behind a dot.
    Attribute,
    /// Behind `is`.
    BehindIs,
    /// Between `not` and `in`.
    NotIn,
    /// Where a parameter of a lambda may begin.
    Parameter,
    /// Between `async` and `for`.
    BehindAsync,
    /// Behind a colon of a subscript.
    Slice,
    /// Behind an operand.
    Behind,
    /// Behind an operand that is a string: another one may follow.
    BehindString,
}

impl Spot {
    /// Whether an operand ends there.
    pub fn is_behind(self) -> bool
        ensures { result ≡ is_behind self }
    {
        match self {
            Spot::Behind | Spot::BehindString => true,
            _ => false,
        }
    }

    pub fn is_begin(self) -> bool
        ensures { result ≡ is_begin self }
    {
        match self {
            Spot::Begin => true,
            _ => false,
        }
    }

    pub fn is_item(self) -> bool
        ensures { result ≡ is_item self }
    {
        match self {
            Spot::Item => true,
            _ => false,
        }
    }

    pub fn is_slice(self) -> bool
        ensures { result ≡ is_slice self }
    {
        match self {
            Spot::Slice => true,
            _ => false,
        }
    }

    pub fn is_parameter(self) -> bool
        ensures { result ≡ is_parameter self }
    {
        match self {
            Spot::Parameter => true,
            _ => false,
        }
    }

    pub fn is_behind_async(self) -> bool
        ensures { result ≡ is_behind_async self }
    {
        match self {
            Spot::BehindAsync => true,
            _ => false,
        }
    }

    /// Whether an operand may begin.
    pub fn wants_operand(self) -> bool
        ensures { result ≡ wants_operand self }
    {
        match self {
            Spot::Begin
            | Spot::Item
            | Spot::Value
            | Spot::Inversion
            | Spot::Operand
            | Spot::BehindIs
            | Spot::Slice => true,
            _ => false,
        }
    }

    /// Whether a name may stand there: an operand, an attribute or a parameter.
    pub fn takes_name(self) -> bool
        ensures { result ≡ takes_name self }
    {
        match self {
            Spot::Attribute | Spot::Parameter => true,
            _ => self.wants_operand(),
        }
    }

    /// Whether a string may stand there: an operand, or the next of several in a row.
    pub fn takes_string(self) -> bool
        ensures { result ≡ takes_string self }
    {
        match self {
            Spot::BehindString => true,
            _ => self.wants_operand(),
        }
    }

    /// Whether a whole expression may begin, which a `lambda` may be.
    pub fn takes_expression(self) -> bool
        ensures { result ≡ takes_expression self }
    {
        match self {
            Spot::Begin | Spot::Item | Spot::Value | Spot::Slice => true,
            _ => false,
        }
    }

    /// Whether what stands there goes on with a primary that began before.
    pub fn goes_on_primary(self) -> bool
        ensures { result ≡ goes_on_primary self }
    {
        match self {
            Spot::Attribute | Spot::Behind | Spot::BehindString => true,
            _ => false,
        }
    }
}
