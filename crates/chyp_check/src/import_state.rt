// What a statement imports.
ghost use Rattle.std.specs.Prelude.{◌≡◌, ◌<◌, List, ℕ, IfOk, length};
ghost use Rattle.chyp_env.specs.ImportState.{imported_of};
ghost use Rattle.chyp_modules.specs.Import.{Imports, LeadsTo};
ghost use Rattle.chyp_modules.specs.Modules.{Finds};
ghost use Rattle.chyp_check.specs.Progress.{AreMade, IsReady};
ghost use Rattle.chyp_check.specs.Project.{library_in, name_at};

use crate::project::Project;
use chyp_base::NoMemory;
use chyp_load::imported_name;
use chyp_names::{ChunkView, Env, ImportState};
use std::alloc::Global;

/// What a statement of the text of this number imports, where the environments of the modules that the text
/// reaches are there.
pub(crate) fn import_state<'a>(
    alloc: Global,
    project: &Project<'_>,
    number: usize,
    envs: &'a [Option<Env>],
    chunk: &ChunkView<'_>,
) -> Result<ImportState<'a>, NoMemory>
    requires within { number < length project.now.nodes }
    requires made { AreMade project.now envs.now }
    requires ready { IsReady project.now envs.now number }
    requires leads { (name : List ℕ) → Imports chunk.now name
        → LeadsTo (library_in project.now.nodes) (name_at project.now.nodes number) name }
    ensures { IfOk result (λ import'. Finds (library_in project.now.nodes) chunk.now (imported_of import')) }
{
    project.mapped();
    let Some(name) = imported_name(alloc, chunk)? else {
        return Ok(ImportState::NotImport);
    };
    let Some(place) = project.place_of(&name) else {
        return Ok(ImportState::Absent);
    };
    if project.reaches(place, place) {
        return Ok(ImportState::OnCycle);
    }
    match &envs[place] {
        Some(env) => Ok(ImportState::Module(env)),
        None => unreachable!(),
    }
}
