//! The names that statements and parameters bind.

ghost use Rattle.std.specs.Prelude.{◌≡◌, ◌++◌, ◌∷◌, [], IfOk, OnOk, map};
ghost use Rattle.std.specs.List.{flat_map};
ghost use Rattle.py_ast.specs.Bindings.{bound, bound_all, name_in, given_name, dotted_names, imported_as, imported, imported_name, display, assigned, annotated_kind, with_annotation, annotated, augmented, all_bound, bound_in, bound_in_branch, parameter};

use py_ast::{
    Binding, BindingKind, Branch, Display, Dotted, Expr, Form, Imported, ImportedName, NameAt,
    Parameter, Stmt, StmtForm,
};
use py_literals::place::Pos;
use rv_names::{Memory, Name, QName};
use sqlite_items::{Boxed, Items};
use std::alloc::Global;

/// Where a statement stands: its number, and whether a loop stands round it.
#[derive(Clone, Copy)]
struct Place {
    node: Pos,
    looped: bool,
}

/// Adds a binding of the name, without an annotation.
fn name(
    name: &Name,
    at: Pos,
    kind: BindingKind,
    place: Place,
    found: &mut Items<Binding>,
) -> Result<(), Memory>
    ensures { OnOk result (found.new ≡ found.old ++ bound place.looped place.node kind (record { name = name.now; at = at }) ∷ []) }
{
    let name = name.copy()?;
    found.push(Binding {
        name,
        at,
        node: place.node,
        kind,
        annotated: false,
        looped: place.looped,
    })?;
    Ok(())
}

/// The names of a dotted name.
fn dotted(alloc: Global, dotted: &Dotted) -> Result<Vec<Name>, Memory>
    ensures { IfOk result (λ parts. parts.items ≡ dotted_names dotted.now) }
{
    let mut parts = Vec::new(alloc);
    parts.push(dotted.first.name.copy()?)?;
    for other in dotted.others.as_slice() {
        parts.push(other.name.copy()?)?;
    }
    Ok(parts)
}

fn imported(
    alloc: Global,
    source: &Imported,
    place: Place,
    found: &mut Items<Binding>,
) -> Result<(), Memory>
    ensures { OnOk result (found.new ≡ found.old ++ imported place.looped place.node source.now ∷ []) }
{
    match &source.alias {
        None => {
            let first = &source.name.first;
            let mut parts = Vec::new(alloc);
            parts.push(first.name.copy()?)?;
            let kind = BindingKind::Import(QName::new(parts));
            name(&first.name, first.at, kind, place, found)
        }
        Some(alias) => {
            let kind = BindingKind::Import(QName::new(dotted(alloc, &source.name)?));
            name(&alias.name, alias.at, kind, place, found)
        }
    }
}

fn imports(
    alloc: Global,
    modules: &[Imported],
    place: Place,
    found: &mut Items<Binding>,
) -> Result<(), Memory>
    ensures { OnOk result (found.new ≡ found.old ++ map (imported place.looped place.node) modules.now) }
{
    for source in modules {
        imported(alloc, source, place, found)?;
    }
    Ok(())
}

fn imported_name(
    alloc: Global,
    source: &Dotted,
    item: &ImportedName,
    place: Place,
    found: &mut Items<Binding>,
) -> Result<(), Memory>
    ensures { OnOk result (found.new ≡ found.old ++ imported_name place.looped place.node source.now item.now ∷ []) }
{
    let mut parts = dotted(alloc, source)?;
    parts.push(item.name.name.copy()?)?;
    let kind = BindingKind::Import(QName::new(parts));
    match &item.alias {
        None => name(&item.name.name, item.name.at, kind, place, found),
        Some(alias) => name(&alias.name, alias.at, kind, place, found),
    }
}

fn imported_names(
    alloc: Global,
    source: &Dotted,
    items: &[ImportedName],
    place: Place,
    found: &mut Items<Binding>,
) -> Result<(), Memory>
    ensures { OnOk result (found.new ≡ found.old ++ map (imported_name place.looped place.node source.now) items.now) }
{
    for item in items {
        imported_name(alloc, source, item, place, found)?;
    }
    Ok(())
}

fn display(value: &Expr) -> Display
    ensures { result ≡ display value.now }
{
    match &value.form {
        Form::List(_) => Display::List,
        Form::Dictionary(_) => Display::Dictionary,
        _ => Display::Other,
    }
}

fn unpacked(exprs: &[Expr], place: Place, found: &mut Items<Binding>) -> Result<(), Memory>
    ensures { OnOk result (found.new ≡ found.old ++ bound_all place.looped place.node BindingKind.Unpacked (flat_map (λ e. given_name (name_in e)) exprs.now)) }
{
    for expr in exprs {
        if let Form::Name(text) = &expr.form {
            name(text, expr.node, BindingKind::Unpacked, place, found)?;
        }
    }
    Ok(())
}

fn assigned(
    target: &Expr,
    value: &Expr,
    place: Place,
    found: &mut Items<Binding>,
) -> Result<(), Memory>
    ensures { OnOk result (found.new ≡ found.old ++ assigned place.looped place.node target.now value.now) }
{
    match &target.form {
        Form::Name(text) => {
            let kind = BindingKind::Value(display(value));
            name(text, target.node, kind, place, found)
        }
        Form::Tuple(items) => unpacked(items.as_slice(), place, found),
        _ => Ok(()),
    }
}

fn annotated_kind(value: &Option<Boxed<Expr>>) -> BindingKind
    ensures { result ≡ annotated_kind value.now }
{
    match value {
        None => BindingKind::Annotation,
        Some(value) => BindingKind::Value(display(value.get())),
    }
}

fn annotated(
    target: &Expr,
    value: &Option<Boxed<Expr>>,
    place: Place,
    found: &mut Items<Binding>,
) -> Result<(), Memory>
    ensures { OnOk result (found.new ≡ found.old ++ annotated place.looped place.node target.now value.now) }
{
    if let Form::Name(text) = &target.form {
        let name = text.copy()?;
        found.push(Binding {
            name,
            at: target.node,
            node: place.node,
            kind: annotated_kind(value),
            annotated: true,
            looped: place.looped,
        })?;
    }
    Ok(())
}

fn augmented(target: &Expr, place: Place, found: &mut Items<Binding>) -> Result<(), Memory>
    ensures { OnOk result (found.new ≡ found.old ++ augmented place.looped place.node target.now) }
{
    match &target.form {
        Form::Name(text) => name(text, target.node, BindingKind::Augmented, place, found),
        _ => Ok(()),
    }
}

fn loop_names(names: &[NameAt], place: Place, found: &mut Items<Binding>) -> Result<(), Memory>
    ensures { OnOk result (found.new ≡ found.old ++ bound_all place.looped place.node BindingKind.Loop names.now) }
{
    for item in names {
        name(&item.name, item.at, BindingKind::Loop, place, found)?;
    }
    Ok(())
}

/// Adds the names that the statement binds. Only blocks in it recurse.
#[cycle(bindings)]
fn statement(
    alloc: Global,
    stmt: &Stmt,
    looped: bool,
    found: &mut Items<Binding>,
) -> Result<(), Memory>
    ensures { OnOk result (found.new ≡ found.old ++ bound_in stmt.now looped) }
{
    let place = Place {
        node: stmt.node,
        looped,
    };
    match &stmt.form {
        StmtForm::Assign(target, value) => assigned(target, value, place, found),
        StmtForm::Annotate(target, _, value) => annotated(target, value, place, found),
        StmtForm::Augment(target, _, _) => augmented(target, place, found),
        StmtForm::Import(modules) => imports(alloc, modules.as_slice(), place, found),
        StmtForm::ImportFrom(source, items) => {
            imported_names(alloc, source, items.as_slice(), place, found)
        }
        StmtForm::If(first, others, otherwise) => {
            block(alloc, first.body.as_slice(), looped, found)?;
            branches(alloc, others.as_slice(), looped, found)?;
            block(alloc, otherwise.as_slice(), looped, found)
        }
        StmtForm::While(_, body) => block(alloc, body.as_slice(), true, found),
        StmtForm::For(names, _, body) => {
            loop_names(names.as_slice(), place, found)?;
            block(alloc, body.as_slice(), true, found)
        }
        StmtForm::Function(function) => {
            let item = &function.name;
            name(&item.name, item.at, BindingKind::Function, place, found)
        }
        StmtForm::Class(class) => {
            let item = &class.name;
            name(&item.name, item.at, BindingKind::Class, place, found)
        }
        _ => Ok(()),
    }
}

/// Adds the names that the statements bind, those in their blocks too, in order of place; a loop stands round them or not.
/// Linear in the trees.
#[cycle(bindings)]
pub fn block(
    alloc: Global,
    stmts: &[Stmt],
    looped: bool,
    found: &mut Items<Binding>,
) -> Result<(), Memory>
    ensures { OnOk result (found.new ≡ found.old ++ all_bound looped (map bound_in stmts.now)) }
{
    for stmt in stmts {
        statement(alloc, stmt, looped, found)?;
    }
    Ok(())
}

#[cycle(bindings)]
fn branches(
    alloc: Global,
    items: &[Branch],
    looped: bool,
    found: &mut Items<Binding>,
) -> Result<(), Memory>
    ensures { OnOk result (found.new ≡ found.old ++ all_bound looped (map bound_in_branch items.now)) }
{
    for item in items {
        block(alloc, item.body.as_slice(), looped, found)?;
    }
    Ok(())
}

/// Adds the parameters, in order. Linear in them.
pub fn parameters(items: &[Parameter], found: &mut Items<Binding>) -> Result<(), Memory>
    ensures { OnOk result (found.new ≡ found.old ++ map parameter items.now) }
{
    for item in items {
        let name = item.name.name.copy()?;
        found.push(Binding {
            name,
            at: item.name.at,
            node: item.name.at,
            kind: BindingKind::Parameter,
            annotated: item.annotation.is_some(),
            looped: false,
        })?;
    }
    Ok(())
}
