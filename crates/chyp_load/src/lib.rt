//! The modules that a text wants, read from a library.
//!
//! [`Statements`] is a text that is cut into its statements. [`imported_name`] says which module a
//! statement imports, and [`imports_of`] says it of all statements of a text; a [`MainText`] keeps both,
//! a [`ModuleText`] the text and what it imports. [`load`] reads each module that a text reaches by
//! imports, once, as long as no text passes its limit and no more than 64 modules are there;
//! [`ReadModules`] are those that were read.
#![tactic(auto)]

mod imports;
mod load_error;
mod loading;
mod main_text;
mod module_list;
mod module_text;
mod read_modules;
mod statements;

pub use imports::{imported_name, imports_of};
pub use load_error::LoadError;
pub use loading::load;
pub use main_text::MainText;
pub use module_text::ModuleText;
pub use read_modules::ReadModules;
pub use statements::Statements;
