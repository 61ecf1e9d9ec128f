// The words of a command line.
ghost use Rattle.std.specs.Prelude.{◌≡◌, List, ℕ, map, option_map, string_bytes};
ghost use Rattle.std.specs.Result.{result_ok};
ghost use Rattle.avm_script.specs.Job.{first_asked, commands, job_of, store_of, spare_of, value_of};
ghost use Rattle.avm_script.specs.View.{job_view, text_view};

use crate::options::once;
use crate::{BadWords, Job, commands, levels, views};

/// The job that the words name: a command, then options and values in pairs, in any order. BadWords exactly where
/// they name none.
pub fn job(words: &[String]) -> Result<Job<'_>, BadWords>
    ensures { option_map job_view (result_ok result) ≡ job_of (map string_bytes words.now) }
{
    asked(words).ok_or(BadWords)
}

#[tactic(auto, unfolding(crate::specs::Job::job_of))]
fn asked(words: &[String]) -> Option<Job<'_>>
    ensures { option_map job_view result ≡ job_of (map string_bytes words.now) }
{
    match words {
        [] => None,
        [name, words @ ..] => named(name.as_str(), words),
    }
}

// The command of that name.
fn named<'a>(name: &str, words: &'a [String]) -> Option<Job<'a>>
    ensures { option_map job_view result ≡ first_asked name.now (map string_bytes words.now) commands }
{
    match name {
        "keygen" => commands::keygen(words),
        "format" => commands::format(words),
        "record" => commands::record(words),
        "export" => commands::export(words),
        "audit" => commands::audit(words),
        "check" => commands::check(words),
        "rebut" => commands::rebut(words),
        "list" => commands::list(words),
        "sample" => commands::sample(words),
        "retain" => commands::retain(words),
        "roll" => levels::roll(words),
        "enroll" => levels::enroll(words),
        "widen" => levels::widen(words),
        "narrow" => levels::narrow(words),
        "view" => views::view(words),
        _ => None,
    }
}

/// The name behind `--store`. None exactly where the words are no job, or the job has no store.
pub fn store_word(words: &[String]) -> Option<&str>
    ensures { text_view result ≡ store_of (map string_bytes words.now) }
{
    value(words, "--store")
}

/// The name behind `--into`. None exactly where the words are no job, or the job has no spare store.
pub fn spare_word(words: &[String]) -> Option<&str>
    ensures { text_view result ≡ spare_of (map string_bytes words.now) }
{
    value(words, "--into")
}

// The value behind an option of a valid job.
#[tactic(auto, unfolding(crate::specs::Job::value_of))]
fn value<'a>(words: &'a [String], option: &str) -> Option<&'a str>
    ensures { text_view result ≡ value_of option.now (map string_bytes words.now) }
{
    match words {
        [] => None,
        [_, others @ ..] => {
            asked(words)?;
            once(others, option)
        }
    }
}
