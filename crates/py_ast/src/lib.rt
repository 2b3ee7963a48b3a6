//! Trees of Python files, and what tokens spell them (Language Reference, chapters 6 to 9).
#![tactic(auto)]

mod argument;
mod binding;
mod chain;
mod keys;
mod laws;
mod lists;
mod parsed;
mod remark;
mod statement;
mod target;
mod tree;
mod whole_number;

pub use binding::{Binding, BindingKind, Display, How, ScopeFault, Use};
pub use chain::{anchor_after, node_after};
pub use keys::{Key, KeyName};
pub use laws::{one_expression, one_module};
pub use lists::given_after;
pub use parsed::{Modules, Parsed};
pub use remark::{Remark, RemarkKind};
pub use statement::{
    AugmentOperator, Branch, Class, Decorator, Dotted, Function, Imported, ImportedName, Module,
    Parameter, Stmt, StmtForm, Suite, Tail, Target,
};
pub use tree::{
    Argument, BinaryOperator, Comparator, Compared, Constant, Expr, Form, Joined, NameAt, Operand,
    Pair, Part, Piece, Step, StepForm, UnaryOperator,
};
pub use whole_number::WholeNumber;
