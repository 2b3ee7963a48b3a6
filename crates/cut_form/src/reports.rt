//! Which live files have the cut form, and what is reported of them.

ghost use Rattle.std.specs.Prelude.{◌≡◌, IfOk, option_map};
ghost use Rattle.std.specs.Option.{option_copied};
ghost use Rattle.std.specs.FinMap.{get};
ghost use Rattle.cut_form.specs.Answers.{Gives};
ghost use Rattle.cut_form.specs.Reports.{app_path, are_known, body_at, body_in, config_path, fits, form_of, has_rules, is_config_item, is_known, is_models_item, models_path, others_fit, report_of, report_value};

use crate::bodies::{Body, app_of};
use crate::configuration::is_config;
use crate::declarations::are_models;
use crate::lines::{Report, report_parts};
use crate::refusal::Refusal;
use project::{File, Files, Item};
use rv_names::{Memory, Text};
use sqlite_items::Items;
use std::alloc::Global;

/// The path of the configuration.
const CONFIG: &str = "taint.config";

/// The path of the models.
const MODELS: &str = "general.pysa";

/// The path of the code.
const APP: &str = "app.py";

fn is_known(path: &Text) -> bool
    ensures { result ≡ is_known path.now }
{
    let path = path.as_str();
    path == CONFIG || path == MODELS || path == APP
}

/// Whether no other file is live.
fn are_known(files: &Files) -> bool
    ensures { result ≡ are_known files.now }
{
    files.iter().all(|(path, _)| is_known(path))
}

fn file_at<'a>(alloc: Global, files: &'a Files, path: &str) -> Result<Option<&'a File>, Memory>
    ensures { IfOk result (λ o. option_copied o ≡ get files.now path.now) }
{
    let path = Text::read(alloc, path)?;
    Ok(files.get(&path))
}

fn is_config_item(item: &Item) -> bool
    ensures { result ≡ is_config_item item.now }
{
    match item {
        Item::Config(config) => is_config(config),
        Item::Models(_) | Item::Module(_) => false,
    }
}

fn is_models_item(item: &Item) -> bool
    ensures { result ≡ is_models_item item.now }
{
    match item {
        Item::Models(decls) => are_models(decls.as_slice()),
        Item::Config(_) | Item::Module(_) => false,
    }
}

/// Whether the file is the configuration of the form, if there is one.
fn may_be_config(file: Option<&File>) -> bool
    ensures { result ≡ fits is_config_item (option_copied file.entry) }
{
    match file {
        None => true,
        Some(file) => is_config_item(file.item()),
    }
}

/// Whether the file is that of the form's models, if there is one.
fn may_be_models(file: Option<&File>) -> bool
    ensures { result ≡ fits is_models_item (option_copied file.entry) }
{
    match file {
        None => true,
        Some(file) => is_models_item(file.item()),
    }
}

fn config_fits(alloc: Global, files: &Files) -> Result<bool, Memory>
    ensures { IfOk result (λ b. b ≡ fits is_config_item (get files.now config_path)) }
{
    let file = file_at(alloc, files, CONFIG)?;
    Ok(may_be_config(file))
}

fn models_fit(alloc: Global, files: &Files) -> Result<bool, Memory>
    ensures { IfOk result (λ b. b ≡ fits is_models_item (get files.now models_path)) }
{
    let file = file_at(alloc, files, MODELS)?;
    Ok(may_be_models(file))
}

fn body_in(alloc: Global, item: &Item) -> Result<Body, Refusal>
    ensures { Gives (λ body. body) result (body_in item.now) }
{
    match item {
        Item::Module(parsed) => app_of(alloc, parsed.module()),
        Item::Config(_) | Item::Models(_) => Err(Refusal::NotCut),
    }
}

fn body_at(alloc: Global, file: Option<&File>) -> Result<Body, Refusal>
    ensures { Gives (λ body. body) result (body_at (option_copied file.entry)) }
{
    match file {
        None => Ok(Body {
            function: Text::read(alloc, "")?,
            places: Items::new(alloc),
        }),
        Some(file) => body_in(alloc, file.item()),
    }
}

/// Whether no other file is live, and the configuration and the models have their form where they are.
fn others_fit(alloc: Global, files: &Files) -> Result<bool, Memory>
    ensures { IfOk result (λ b. b ≡ others_fit files.now) }
{
    let config = config_fits(alloc, files)?;
    let models = models_fit(alloc, files)?;
    Ok(are_known(files) && config && models)
}

fn app_body(alloc: Global, files: &Files) -> Result<Body, Refusal>
    ensures { Gives (λ body. body) result (body_at (get files.now app_path)) }
{
    let app = file_at(alloc, files, APP)?;
    body_at(alloc, app)
}

/// The body of `app.py`, where the files have the form.
#[tactic(auto, unfolding(crate::specs::Reports::form_of))]
fn form_of(alloc: Global, files: &Files) -> Result<Body, Refusal>
    ensures { Gives (λ body. body) result (form_of files.now) }
{
    if others_fit(alloc, files)? {
        app_body(alloc, files)
    } else {
        Err(Refusal::NotCut)
    }
}

/// Whether the configuration and the models are live.
fn has_rules(alloc: Global, files: &Files) -> Result<bool, Memory>
    ensures { IfOk result (λ b. b ≡ has_rules files.now) }
{
    let config = file_at(alloc, files, CONFIG)?;
    let models = file_at(alloc, files, MODELS)?;
    Ok(config.is_some() && models.is_some())
}

#[tactic(auto, unfolding(crate::specs::Reports::report_of))]
fn reported(alloc: Global, files: &Files) -> Result<Report, Refusal>
    ensures { Gives report_value result (report_of files.now) }
{
    let Body { function, places } = form_of(alloc, files)?;
    if has_rules(alloc, files)? {
        Ok(report_parts(alloc, &function, places.as_slice())?)
    } else {
        Ok(report_parts(alloc, &function, &[])?)
    }
}

/// What is reported of the live files: `None` exactly where they don't have the cut form. The issues stand statement by statement,
/// and in a nest of calls from the outside in, with lines and columns from 1. Where `taint.config`, `general.pysa` or `app.py` is
/// missing, and the others have their form, there is no issue. Linear in the files, but quadratic in a nest of calls, in which the
/// grammar lets 100 stand in one another.
///
/// `Err` comes for want of memory alone.
pub fn report(alloc: Global, files: &Files) -> Result<Option<Report>, Memory>
    ensures { IfOk result (λ r. option_map report_value r ≡ report_of files.now) }
{
    match reported(alloc, files) {
        Ok(report) => Ok(Some(report)),
        Err(Refusal::NotCut) => Ok(None),
        Err(Refusal::Memory) => Err(Memory),
    }
}
