// The commands of keys in two levels, one function each.
ghost use Rattle.std.specs.Prelude.{◌≡◌, List, ℕ, map, option_map, string_bytes};
ghost use Rattle.avm_script.specs.Job.{asked_of, roll_command, enroll_command, widen_command, narrow_command};
ghost use Rattle.avm_script.specs.View.{job_view};

use crate::Job;
use crate::options::{are_apart, is_paired, once};

#[tactic(auto, using(crate::proofs::Asked::refused, crate::proofs::Asked::asked), unfolding(crate::specs::Job::roll_job))]
pub fn roll(words: &[String]) -> Option<Job<'_>>
    ensures { option_map job_view result ≡ asked_of roll_command (map string_bytes words.now) }
{
    if !is_paired(words, &["--store", "--key"]) {
        return None;
    }
    let store = once(words, "--store")?;
    let key = once(words, "--key")?;
    if !are_apart(&[store, key]) {
        return None;
    }
    Some(Job::Roll { store, key })
}

#[tactic(auto, using(crate::proofs::Asked::refused, crate::proofs::Asked::asked), unfolding(crate::specs::Job::enroll_job))]
pub fn enroll(words: &[String]) -> Option<Job<'_>>
    ensures { option_map job_view result ≡ asked_of enroll_command (map string_bytes words.now) }
{
    if !is_paired(words, &["--store", "--key", "--public", "--endorse"]) {
        return None;
    }
    let store = once(words, "--store")?;
    let key = once(words, "--key")?;
    let public = once(words, "--public")?;
    let endorse = once(words, "--endorse")?;
    if !are_apart(&[store, key, public, endorse]) {
        return None;
    }
    Some(Job::Enroll {
        store,
        key,
        public,
        endorse,
    })
}

#[tactic(auto, using(crate::proofs::Asked::refused, crate::proofs::Asked::asked), unfolding(crate::specs::Job::widen_job))]
pub fn widen(words: &[String]) -> Option<Job<'_>>
    ensures { option_map job_view result ≡ asked_of widen_command (map string_bytes words.now) }
{
    if !is_paired(words, &["--endorse", "--auths", "--out"]) {
        return None;
    }
    let endorse = once(words, "--endorse")?;
    let auths = once(words, "--auths")?;
    let out = once(words, "--out")?;
    if !are_apart(&[endorse, auths, out]) {
        return None;
    }
    Some(Job::Widen {
        endorse,
        auths,
        out,
    })
}

#[tactic(auto, using(crate::proofs::Asked::refused, crate::proofs::Asked::asked), unfolding(crate::specs::Job::narrow_job))]
pub fn narrow(words: &[String]) -> Option<Job<'_>>
    ensures { option_map job_view result ≡ asked_of narrow_command (map string_bytes words.now) }
{
    if !is_paired(words, &["--key", "--auths", "--public", "--out"]) {
        return None;
    }
    let key = once(words, "--key")?;
    let auths = once(words, "--auths")?;
    let public = once(words, "--public")?;
    let out = once(words, "--out")?;
    if !are_apart(&[key, auths, public, out]) {
        return None;
    }
    Some(Job::Narrow {
        key,
        auths,
        public,
        out,
    })
}
