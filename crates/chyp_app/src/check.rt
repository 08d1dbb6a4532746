// From the bytes of a text to its report.
ghost use Rattle.std.specs.Prelude.{◌≡◌, ◌≤◌, ◌<◌, ◌+◌, ◌-◌, ◌^◌, ◌⊎◌, ℕ, length, IfOk, IfSome, IsErrOf, OnOk, OnErr};
ghost use Rattle.chyp_lex.specs.Tokens.{text_limit};
ghost use Rattle.chyp_modules.specs.Checking.{HasChecks};
ghost use Rattle.chyp_modules.specs.Library.{library_of, with_main};
ghost use Rattle.chyp_load.specs.Imports.{ImportsSome};
ghost use Rattle.chyp_load.specs.Loading.{AreShort, LoadHasCause};
ghost use Rattle.chyp_app.specs.Output.{status_of, CountsStatements, EachOutputIsExplained, EachRunHasOneOutput, EachTextIsChecked, IsCheck, nothing_but};
ghost use Rattle.chyp_app.specs.Reported.{IsReport};
ghost use Rattle.chyp_app.specs.Headline.{BeginsToCheck, Gives, IsEnded, IsReached};

use crate::report::{good_count, report};
use chyp_base::{Library, NoMemory, Status, Steps, Verdict};
use chyp_check::check_main;
use chyp_lex::every_text_has_one_token_list;
use chyp_load::{LoadError, MainText, ReadModules, load};
use chyp_modules::modules_are_determined;
use chyp_syntax::each_text_has_one_list_of_chunks;
use std::alloc::Global;
use std::sync::ledger::Ledger;

/// The report of a text, and the status that it gives.
#[derive(Drop)]
pub struct Checked {
    /// A line for each statement, and the total.
    pub report: Vec<u8>,
    /// `Done` where every statement is good, and else `SomeNotGood`.
    pub status: Status,
}

// Done exactly where each statement is good.
fn status_of(verdicts: &[Verdict]) -> Status
    ensures same { result ≡ status_of verdicts.now }
    ensures ended { IsEnded result }
{
    if good_count(verdicts) == verdicts.len() {
        Status::Done
    } else {
        Status::SomeNotGood
    }
}

/// For all words, bytes and texts of a library there is exactly one output; each text is checked, its
/// checks are the statements of it and its modules, and what the report says of its rewrites is so.
pub fn each_run_has_one_output()
    ensures one { EachRunHasOneOutput }
    ensures each { EachTextIsChecked }
    ensures counts { CountsStatements }
    ensures explained { EachOutputIsExplained }
{
    every_text_has_one_token_list();
    each_text_has_one_list_of_chunks();
    modules_are_determined();
}

// Checks a text over its modules, which were read, and makes the report.
fn check_over<G: Ledger>(
    alloc: Global,
    main: &MainText<'_>,
    modules: &ReadModules,
    steps: &mut Steps<G>,
) -> Result<Checked, NoMemory>
    requires within { AreShort modules.now }
    ensures ended { IfOk result (λ checked. IsEnded checked.status) }
    ensures report { IfOk result (λ checked. IsReport (library_of modules.now) main.now.text checked.report.items checked.status) }
    ensures steps { (n : ℕ) → HasChecks (with_main (library_of modules.now) main.now.text) n → OnOk result (steps.new ≡ steps.old + n) }
    ensures rises { steps.old ≤ steps.new }
    ensures no_more { (n : ℕ) → HasChecks (with_main (library_of modules.now) main.now.text) n → OnErr result (steps.new ≤ steps.old + n) }
{
    every_text_has_one_token_list();
    each_text_has_one_list_of_chunks();
    let statements = main.statements();
    statements.cut();
    let verdicts = check_main(alloc, main, modules, steps)?;
    let report = report(alloc, statements, verdicts.as_slice())?;
    let status = status_of(verdicts.as_slice());
    Ok(Checked { report, status })
}

/// Reads the modules that a text reaches, checks each statement of the text and of those modules, at one
/// step each, and makes the report.
///
/// # Errors
///
/// As for [`load`]. `NoMemory` may come at any point; then no more steps were counted than there are
/// statements.
pub fn check_text<L: Library, G: Ledger>(
    alloc: Global,
    text: &[u8],
    library: &mut L,
    steps: &mut Steps<G>,
) -> Result<Checked, LoadError>
    requires short { length text.now ≤ text_limit }
    requires faults { L.faults library.old < 2 ^ 64 - 1 }
    ensures ended { IfOk result (λ checked. IsEnded checked.status) }
    ensures checks { IfOk result (λ checked. IfSome (L.texts library.old) (λ texts. Gives (IsCheck texts text.now)
        (λ output. (checked.report.items ≡ output.text) × IsReached steps.old steps.new checked.status output))) }
    ensures begins { OnErr result (IfSome (L.texts library.old) (λ texts. BeginsToCheck (IsCheck texts text.now) steps.old steps.new)) }
    ensures long { IsErrOf result LoadError.TooLong → IfSome (L.texts library.old) (λ texts.
        IsCheck texts text.now (nothing_but Status.TooLong)) }
    ensures uncounted { (IsErrOf result LoadError.TooLong ⊎ IsErrOf result LoadError.Failed) → steps.new ≡ steps.old }
    ensures wanted { IsErrOf result LoadError.Failed → ImportsSome text.now }
    ensures same { L.texts library.new ≡ L.texts library.old }
    ensures cause { LoadHasCause (L.faults library.old) (L.faults library.new) result }
{
    each_run_has_one_output();
    modules_are_determined();
    let main = MainText::new(alloc, text)?;
    let modules = ReadModules::new(load(alloc, library, &main)?);
    Ok(check_over(alloc, &main, &modules, steps)?)
}
