// The verdicts of the statements of one text.
ghost use Rattle.std.specs.Prelude.{◌≡◌, ◌≤◌, ◌<◌, ◌+◌, List, ℕ, [], ◌∷◌, length, IfOk, OnOk, OnErr};
ghost use Rattle.chyp_env.specs.Import.{AgreeOnOrigins};
ghost use Rattle.chyp_env.specs.ImportState.{imported_of, site_of};
ghost use Rattle.chyp_env.specs.Site.{IsImportState};
ghost use Rattle.chyp_names.specs.Binding.{Binds};
ghost use Rattle.chyp_verdicts.specs.Judged.{IsJudged};
ghost use Rattle.chyp_modules.specs.Checking.{HaveStatements};
ghost use Rattle.chyp_modules.specs.Import.{Imports, LeadsTo};
ghost use Rattle.chyp_modules.specs.Modules.{AreVerdicts, HasEnvironment, Makes};
ghost use Rattle.chyp_check.specs.Progress.{AreMade, IsNext, IsReady};
ghost use Rattle.chyp_check.specs.Project.{library_in, name_at, text_at};

use crate::import_state::import_state;
use crate::one::judge_statement;
use crate::project::Project;
use crate::{Inputs, Verdicts};
use chyp_base::{Name, NoMemory, Steps, Verdict};
use chyp_lex::every_text_has_one_token_list;
use chyp_load::Statements;
use chyp_modules::modules_are_determined;
use chyp_names::{ChunkView, Env, ImportState, bind_owned};
use chyp_syntax::each_text_has_one_list_of_chunks;
use std::alloc::Global;
use std::sync::ledger::Ledger;

/// The verdict of a statement, whose name is then bound.
pub(crate) fn judge_and_bind(
    alloc: Global,
    home: &Name,
    chunk: &ChunkView<'_>,
    index: u32,
    env: &mut Env,
    import: &ImportState<'_>,
) -> Result<Verdict, NoMemory>
    requires state { IsImportState (site_of (record { words = chunk.now; env = env.old }) home.now import.now) }
    requires origins { AgreeOnOrigins env.old (imported_of import.now) }
    ensures judged { IfOk result (λ verdict.
        IsJudged (site_of (record { words = chunk.now; env = env.old }) home.now import.now) verdict) }
    ensures binds { IfOk result (λ verdict.
        Binds (site_of (record { words = chunk.now; env = env.old }) home.now import.now) index verdict env.new) }
{
    let inputs = Inputs {
        module: &*home,
        chunk: &*chunk,
        env: &*env,
        import: &*import,
    };
    let outcome = judge_statement(alloc, &inputs)?;
    bind_owned(
        env,
        home,
        index,
        chunk,
        import,
        outcome.body,
        &outcome.verdict,
    )?;
    Ok(outcome.verdict)
}

// The verdict of the next statement of the text of this number, whose name is then bound.
fn check_next(
    alloc: Global,
    project: &Project<'_>,
    number: usize,
    envs: &[Option<Env>],
    chunk: &ChunkView<'_>,
    index: u32,
    env: &mut Env,
) -> Result<Verdict, NoMemory>
    requires within { number < length project.now.nodes }
    requires made { AreMade project.now envs.now }
    requires ready { IsReady project.now envs.now number }
    requires leads { (name : List ℕ) → Imports chunk.now name
        → LeadsTo (library_in project.now.nodes) (name_at project.now.nodes number) name }
    requires makes { Makes (library_in project.now.nodes) (name_at project.now.nodes number) index env.old }
    ensures { IfOk result (λ verdict.
        IsNext (library_in project.now.nodes) (name_at project.now.nodes number) chunk.now env.old index verdict env.new) }
{
    modules_are_determined();
    let import = import_state(alloc, project, number, envs, chunk)?;
    let node = project.node(number);
    judge_and_bind(alloc, node.name(), chunk, index, env, &import)
}

/// What the statements of a text make: the environment that its module passes on, and their verdicts.
#[derive(Drop)]
pub(crate) struct Checked {
    pub(crate) env: Env,
    pub(crate) verdicts: Verdicts,
}

// The same from the statements that were read from the text, at one step each.
fn check_each<G: Ledger>(
    alloc: Global,
    project: &Project<'_>,
    number: usize,
    envs: &[Option<Env>],
    statements: &Statements<'_>,
    steps: &mut Steps<G>,
) -> Result<Checked, NoMemory>
    requires within { number < length project.now.nodes }
    requires made { AreMade project.now envs.now }
    requires ready { IsReady project.now envs.now number }
    requires text { statements.now.text ≡ text_at project.now.nodes number }
    ensures env { IfOk result (λ checked. HasEnvironment (library_in project.now.nodes) (name_at project.now.nodes number) checked.env) }
    ensures verdicts { IfOk result (λ checked.
        AreVerdicts (library_in project.now.nodes) (name_at project.now.nodes number) checked.verdicts) }
    ensures steps { OnOk result (steps.new ≡ steps.old + length statements.now.chunks) }
    ensures rises { steps.old ≤ steps.new }
    ensures no_more { OnErr result (steps.new ≤ steps.old + length statements.now.chunks) }
{
    project.mapped();
    statements.cut();
    let mut env = Env::new(alloc);
    let mut verdicts = Vec::with_capacity(alloc, statements.count())?;
    for index in 0..statements.count() {
        steps.tick();
        let view = statements.statement(index);
        let verdict = check_next(alloc, project, number, envs, &view, index as u32, &mut env)?;
        verdicts.push(verdict)?;
    }
    let verdicts = Verdicts::from_vec(verdicts);
    Ok(Checked { env, verdicts })
}

/// The verdicts of the statements of the text of this number from the left, at one step each, where the
/// environments of the modules that it reaches are there. Each name is bound once its statement has its
/// verdict.
pub(crate) fn check_statements<G: Ledger>(
    alloc: Global,
    project: &Project<'_>,
    number: usize,
    envs: &[Option<Env>],
    statements: &Statements<'_>,
    steps: &mut Steps<G>,
) -> Result<Checked, NoMemory>
    requires within { number < length project.now.nodes }
    requires made { AreMade project.now envs.now }
    requires ready { IsReady project.now envs.now number }
    requires text { statements.now.text ≡ text_at project.now.nodes number }
    ensures env { IfOk result (λ checked. HasEnvironment (library_in project.now.nodes) (name_at project.now.nodes number) checked.env) }
    ensures verdicts { IfOk result (λ checked.
        AreVerdicts (library_in project.now.nodes) (name_at project.now.nodes number) checked.verdicts) }
    ensures steps { (n : ℕ) → HaveStatements (library_in project.now.nodes) (name_at project.now.nodes number ∷ []) n
        → OnOk result (steps.new ≡ steps.old + n) }
    ensures rises { steps.old ≤ steps.new }
    ensures no_more { (n : ℕ) → HaveStatements (library_in project.now.nodes) (name_at project.now.nodes number ∷ []) n
        → OnErr result (steps.new ≤ steps.old + n) }
{
    every_text_has_one_token_list();
    each_text_has_one_list_of_chunks();
    project.mapped();
    statements.cut();
    check_each(alloc, project, number, envs, statements, steps)
}

/// The same for a text whose statements were not read yet.
pub(crate) fn check_text<G: Ledger>(
    alloc: Global,
    project: &Project<'_>,
    number: usize,
    envs: &[Option<Env>],
    steps: &mut Steps<G>,
) -> Result<Checked, NoMemory>
    requires within { number < length project.now.nodes }
    requires made { AreMade project.now envs.now }
    requires ready { IsReady project.now envs.now number }
    ensures env { IfOk result (λ checked. HasEnvironment (library_in project.now.nodes) (name_at project.now.nodes number) checked.env) }
    ensures verdicts { IfOk result (λ checked.
        AreVerdicts (library_in project.now.nodes) (name_at project.now.nodes number) checked.verdicts) }
    ensures steps { (n : ℕ) → HaveStatements (library_in project.now.nodes) (name_at project.now.nodes number ∷ []) n
        → OnOk result (steps.new ≡ steps.old + n) }
    ensures rises { steps.old ≤ steps.new }
    ensures no_more { (n : ℕ) → HaveStatements (library_in project.now.nodes) (name_at project.now.nodes number ∷ []) n
        → OnErr result (steps.new ≤ steps.old + n) }
{
    let statements = Statements::new(alloc, project.text(number))?;
    check_statements(alloc, project, number, envs, &statements, steps)
}
