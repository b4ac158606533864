//! Lines of a script: those that are run, the macros that they define, and the words into which a line falls.
#![tactic(auto)]

mod definition;
mod fault;
mod laws;
mod lines;
mod names;
mod redirection;
mod repository;
mod script;
mod script_text;
mod texts;
mod trimming;
mod word;
mod words;

pub use fault::{at_fault, bad_words, or_at_fault};
pub use laws::{a_script_is_never_absent, words_are_found_again};
pub use lines::{is_long, is_nothing, too_long};
pub use names::{is_given_name, is_letter, is_repo_name, repo_name};
pub use redirection::{Direction, redirected};
pub use repository::RepoName;
pub use script::{ItemList, LineList, Script, ScriptItem, ScriptLine};
pub use script_text::ScriptText;
pub use texts::{name_in, said_before, text_before, texts_in};
pub use trimming::{trim, trim_back, trim_front};
pub use word::{Word, WordList};
pub use words::{cut_head, skip_blanks, words_in};
