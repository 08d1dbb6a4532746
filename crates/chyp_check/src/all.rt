// The verdicts of all statements of a text with its modules.
ghost use Rattle.std.specs.Prelude.{◌≡◌, ◌≤◌, ◌<◌, ◌+◌, ℕ, List, [], None, Some, IfOk, OnOk, OnErr, length, slice_index_or, slice_set};
ghost use Rattle.chyp_lex.specs.Tokens.{text_limit};
ghost use Rattle.chyp_modules.specs.Checking.{HasChecks};
ghost use Rattle.chyp_modules.specs.Library.{library_of, with_main};
ghost use Rattle.chyp_modules.specs.Modules.{AreVerdicts};
ghost use Rattle.chyp_load.specs.Loading.{AreShort};
ghost use Rattle.chyp_check.specs.Order.{HaveModules};
ghost use Rattle.chyp_check.specs.Progress.{AreMade, IsReady};
ghost use Rattle.chyp_check.specs.Project.{library_in, name_at};

use crate::order::order;
use crate::project::Project;
use crate::reading::read_all;
use crate::text::{Checked, check_statements, check_text};
use crate::{Modules, Verdicts};
use chyp_base::{Name, NoMemory, Steps};
use chyp_load::{MainText, ReadModules};
use chyp_names::Env;
use std::alloc::Global;
use std::mem::replace;
use std::sync::ledger::Ledger;

// A place for the environment of each text.
fn no_envs(alloc: Global, count: usize) -> Result<Vec<Option<Env>>, NoMemory>
    ensures count { IfOk result (λ envs. length envs.items ≡ count) }
    ensures none { IfOk result (λ envs. (i : ℕ) → slice_index_or envs.items i None ≡ None) }
{
    let mut envs = Vec::with_capacity(alloc, count)?;
    for _ in 0..count {
        envs.push(None)?;
    }
    Ok(envs)
}

// Puts the environment of this text into its place.
fn place_env(envs: &mut [Option<Env>], number: usize, env: Env)
    requires { number < length envs.old }
    ensures { envs.new ≡ slice_set envs.old number (Some env) }
{
    let before = replace(&mut envs[number], Some(env));
    drop(before);
}

// The environments of the modules that the main text reaches, whose statements are checked, at one step
// each.
fn check_modules<G: Ledger>(
    alloc: Global,
    project: &Project<'_>,
    steps: &mut Steps<G>,
) -> Result<Vec<Option<Env>>, NoMemory>
    requires some { 0 < length project.now.nodes }
    requires main { name_at project.now.nodes 0 ≡ [] }
    ensures made { IfOk result (λ envs. AreMade project.now envs.items) }
    ensures ready { IfOk result (λ envs. IsReady project.now envs.items 0) }
    ensures steps { (n : ℕ) → HaveModules (library_in project.now.nodes) n → OnOk result (steps.new ≡ steps.old + n) }
    ensures rises { steps.old ≤ steps.new }
    ensures no_more { (n : ℕ) → HaveModules (library_in project.now.nodes) n → OnErr result (steps.new ≤ steps.old + n) }
{
    project.mapped();
    project.square();
    let order = order(alloc, project)?;
    let mut envs = no_envs(alloc, project.count())?;
    for number in &order {
        let Checked { env, verdicts } = check_text(alloc, project, *number, &envs, steps)?;
        drop(verdicts);
        place_env(&mut envs, *number, env);
    }
    Ok(envs)
}

/// The verdicts of the statements of a text, over the modules that it reaches. Each statement of the
/// text and of those modules is checked once, at one step.
///
/// # Errors
///
/// `NoMemory` may come at any point; then no more steps were counted than there are statements.
pub fn check_all<G: Ledger>(
    alloc: Global,
    text: &[u8],
    modules: &Modules,
    steps: &mut Steps<G>,
) -> Result<Verdicts, NoMemory>
    requires short { length text.now ≤ text_limit }
    requires within { AreShort modules.now }
    ensures verdicts { IfOk result (λ verdicts. AreVerdicts (with_main (library_of modules.now) text.now) [] verdicts) }
    ensures steps { (n : ℕ) → HasChecks (with_main (library_of modules.now) text.now) n → OnOk result (steps.new ≡ steps.old + n) }
    ensures rises { steps.old ≤ steps.new }
    ensures no_more { (n : ℕ) → HasChecks (with_main (library_of modules.now) text.now) n → OnErr result (steps.new ≤ steps.old + n) }
{
    let main = MainText::new(alloc, text)?;
    let read = read_all(alloc, modules)?;
    check_main(alloc, &main, &read, steps)
}

/// What [`check_all`] gives, for a caller who has read the text and its modules already.
///
/// # Errors
///
/// As for [`check_all`].
pub fn check_main<G: Ledger>(
    alloc: Global,
    main: &MainText<'_>,
    modules: &ReadModules,
    steps: &mut Steps<G>,
) -> Result<Verdicts, NoMemory>
    requires within { AreShort modules.now }
    ensures verdicts { IfOk result (λ verdicts. AreVerdicts (with_main (library_of modules.now) main.now.text) [] verdicts) }
    ensures steps { (n : ℕ) → HasChecks (with_main (library_of modules.now) main.now.text) n → OnOk result (steps.new ≡ steps.old + n) }
    ensures rises { steps.old ≤ steps.new }
    ensures no_more { (n : ℕ) → HasChecks (with_main (library_of modules.now) main.now.text) n → OnErr result (steps.new ≤ steps.old + n) }
{
    modules.distinct();
    let home = Name::new(alloc, "")?;
    let project = Project::new(alloc, &home, main, modules)?;
    let envs = check_modules(alloc, &project, steps)?;
    let Checked { env, verdicts } = check_statements(
        alloc,
        &project,
        0,
        &envs,
        main.statements(),
        steps,
    )?;
    drop(env);
    drop(envs);
    drop(project);
    Ok(verdicts)
}
