// The command that shows a guest's state, in its two forms.
ghost use Rattle.std.specs.Prelude.{◌≡◌, List, ℕ, map, option_map, string_bytes};
ghost use Rattle.avm_script.specs.Job.{asked_of, view_command, view_job, view_at_job, view_changes_job, window_of};
ghost use Rattle.avm_script.specs.View.{job_view, text_view};

use crate::Job;
use crate::options::{given, is_paired, once};
use crate::values::{address, number, word_count};

// An address and a number of words, both or neither.
fn window(from: Option<&str>, count: Option<&str>) -> Option<(u32, u32)>
    ensures { result ≡ window_of (text_view from.entry) (text_view count.entry) }
{
    match (from, count) {
        (None, None) => Some((0, 0)),
        (Some(from), Some(count)) => {
            let from = address(from)?;
            let count = word_count(count)?;
            Some((from, count))
        }
        _ => None,
    }
}

#[tactic(auto, unfolding(crate::specs::Job::view_at_job))]
fn view_at(words: &[String]) -> Option<Job<'_>>
    ensures { option_map job_view result ≡ view_at_job (map string_bytes words.now) }
{
    let segment = once(words, "--segment")?;
    let count = number(once(words, "--count")?)?;
    let from = given(words, "--from")?;
    let shown = given(words, "--words")?;
    let (from, words) = window(from, shown)?;
    Some(Job::ViewAt {
        segment,
        count,
        from,
        words,
    })
}

#[tactic(auto, unfolding(crate::specs::Job::view_changes_job))]
fn view_changes(words: &[String]) -> Option<Job<'_>>
    ensures { option_map job_view result ≡ view_changes_job (map string_bytes words.now) }
{
    let segment = once(words, "--segment")?;
    let at = address(once(words, "--changes")?)?;
    Some(Job::ViewChanges { segment, at })
}

#[tactic(auto, unfolding(crate::specs::Job::view_job))]
fn either(words: &[String]) -> Option<Job<'_>>
    ensures { option_map job_view result ≡ view_job (map string_bytes words.now) }
{
    if is_paired(words, &["--segment", "--count", "--from", "--words"]) {
        return view_at(words);
    }
    if is_paired(words, &["--segment", "--changes"]) {
        return view_changes(words);
    }
    None
}

#[tactic(auto, using(crate::proofs::Asked::refused, crate::proofs::Asked::asked))]
pub fn view(words: &[String]) -> Option<Job<'_>>
    ensures { option_map job_view result ≡ asked_of view_command (map string_bytes words.now) }
{
    if !is_paired(
        words,
        &["--segment", "--count", "--from", "--words", "--changes"],
    ) {
        return None;
    }
    either(words)
}
