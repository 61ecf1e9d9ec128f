// One function a command: its options, and the job that they give.
ghost use Rattle.std.specs.Prelude.{◌≡◌, List, ℕ, map, option_map, string_bytes};
ghost use Rattle.avm_script.specs.Job.{asked_of, signed_of, keygen_command, format_command, record_command, export_command, audit_command, check_command, rebut_command, list_command, sample_command, retain_command};
ghost use Rattle.avm_script.specs.View.{job_view, signed_view};

use crate::options::{are_apart, given, is_paired, once};
use crate::values::{height, hex_16, hex_32, number, small_number, width};
use crate::{Job, Signed};

#[tactic(auto, using(crate::proofs::Asked::refused, crate::proofs::Asked::asked), unfolding(crate::specs::Job::keygen_job))]
pub fn keygen(words: &[String]) -> Option<Job<'_>>
    ensures { option_map job_view result ≡ asked_of keygen_command (map string_bytes words.now) }
{
    if !is_paired(
        words,
        &["--height", "--w", "--id", "--seed", "--key", "--public"],
    ) {
        return None;
    }
    let height = height(once(words, "--height")?)?;
    let w = width(once(words, "--w")?)?;
    let id = hex_16(once(words, "--id")?)?;
    let seed = hex_32(once(words, "--seed")?)?;
    let key = once(words, "--key")?;
    let public = once(words, "--public")?;
    if !are_apart(&[key, public]) {
        return None;
    }
    Some(Job::Keygen {
        height,
        w,
        id,
        seed,
        key,
        public,
    })
}

#[tactic(auto, using(crate::proofs::Asked::refused, crate::proofs::Asked::asked), unfolding(crate::specs::Job::format_job))]
pub fn format(words: &[String]) -> Option<Job<'_>>
    ensures { option_map job_view result ≡ asked_of format_command (map string_bytes words.now) }
{
    if !is_paired(words, &["--store", "--key", "--config", "--image"]) {
        return None;
    }
    let store = once(words, "--store")?;
    let key = once(words, "--key")?;
    let config = once(words, "--config")?;
    let image = once(words, "--image")?;
    if !are_apart(&[store, key, config, image]) {
        return None;
    }
    Some(Job::Format {
        store,
        key,
        config,
        image,
    })
}

#[tactic(auto, using(crate::proofs::Asked::refused, crate::proofs::Asked::asked), unfolding(crate::specs::Job::record_words))]
pub fn record(words: &[String]) -> Option<Job<'_>>
    ensures { option_map job_view result ≡ asked_of record_command (map string_bytes words.now) }
{
    if !is_paired(
        words,
        &[
            "--store",
            "--key",
            "--script",
            "--packets",
            "--console",
            "--auths",
        ],
    ) {
        return None;
    }
    let store = once(words, "--store")?;
    let key = once(words, "--key")?;
    let script = once(words, "--script")?;
    let packets = once(words, "--packets")?;
    let console = once(words, "--console")?;
    let auths = once(words, "--auths")?;
    if !are_apart(&[store, key, script, packets, console, auths]) {
        return None;
    }
    Some(Job::Record {
        store,
        key,
        script,
        packets,
        console,
        auths,
    })
}

#[tactic(auto, using(crate::proofs::Asked::refused, crate::proofs::Asked::asked), unfolding(crate::specs::Job::export_job))]
pub fn export(words: &[String]) -> Option<Job<'_>>
    ensures { option_map job_view result ≡ asked_of export_command (map string_bytes words.now) }
{
    if !is_paired(words, &["--store", "--from", "--to", "--segment"]) {
        return None;
    }
    let store = once(words, "--store")?;
    let from = number(once(words, "--from")?)?;
    let to = number(once(words, "--to")?)?;
    let segment = once(words, "--segment")?;
    if !are_apart(&[store, segment]) {
        return None;
    }
    Some(Job::Export {
        store,
        from,
        to,
        segment,
    })
}

// The names that go together: all three, or none.
#[tactic(auto, unfolding(crate::specs::Job::signed_of))]
fn signed(words: &[String]) -> Option<Option<Signed<'_>>>
    ensures { option_map (option_map signed_view) result ≡ signed_of (map string_bytes words.now) }
{
    let key = given(words, "--key")?;
    let auths = given(words, "--auths")?;
    let evidence = given(words, "--evidence")?;
    match (key, auths, evidence) {
        (Some(key), Some(auths), Some(evidence)) => Some(Some(Signed {
            key,
            auths,
            evidence,
        })),
        (None, None, None) => Some(None),
        _ => None,
    }
}

#[tactic(auto, using(crate::proofs::Asked::refused, crate::proofs::Asked::asked), unfolding(crate::specs::Job::audit_job))]
pub fn audit(words: &[String]) -> Option<Job<'_>>
    ensures { option_map job_view result ≡ asked_of audit_command (map string_bytes words.now) }
{
    if !is_paired(
        words,
        &["--segment", "--image", "--key", "--auths", "--evidence"],
    ) {
        return None;
    }
    let segment = once(words, "--segment")?;
    let image = given(words, "--image")?;
    let signed = signed(words)?;
    let apart = match (image, signed) {
        (None, None) => true,
        (Some(image), None) => are_apart(&[segment, image]),
        (None, Some(s)) => are_apart(&[segment, s.key, s.auths, s.evidence]),
        (Some(image), Some(s)) => are_apart(&[segment, image, s.key, s.auths, s.evidence]),
    };
    if !apart {
        return None;
    }
    Some(Job::Audit {
        segment,
        image,
        signed,
    })
}

#[tactic(auto, using(crate::proofs::Asked::refused, crate::proofs::Asked::asked), unfolding(crate::specs::Job::check_job))]
pub fn check(words: &[String]) -> Option<Job<'_>>
    ensures { option_map job_view result ≡ asked_of check_command (map string_bytes words.now) }
{
    if !is_paired(words, &["--key", "--evidence"]) {
        return None;
    }
    let key = once(words, "--key")?;
    let evidence = once(words, "--evidence")?;
    if !are_apart(&[key, evidence]) {
        return None;
    }
    Some(Job::Check { key, evidence })
}

#[tactic(auto, using(crate::proofs::Asked::refused, crate::proofs::Asked::asked), unfolding(crate::specs::Job::rebut_job))]
pub fn rebut(words: &[String]) -> Option<Job<'_>>
    ensures { option_map job_view result ≡ asked_of rebut_command (map string_bytes words.now) }
{
    if !is_paired(words, &["--store", "--evidence"]) {
        return None;
    }
    let store = once(words, "--store")?;
    let evidence = once(words, "--evidence")?;
    if !are_apart(&[store, evidence]) {
        return None;
    }
    Some(Job::Rebut { store, evidence })
}

#[tactic(auto, using(crate::proofs::Asked::refused, crate::proofs::Asked::asked), unfolding(crate::specs::Job::list_job))]
pub fn list(words: &[String]) -> Option<Job<'_>>
    ensures { option_map job_view result ≡ asked_of list_command (map string_bytes words.now) }
{
    if !is_paired(words, &["--store"]) {
        return None;
    }
    let store = once(words, "--store")?;
    Some(Job::List { store })
}

#[tactic(auto, using(crate::proofs::Asked::refused, crate::proofs::Asked::asked), unfolding(crate::specs::Job::sample_job))]
pub fn sample(words: &[String]) -> Option<Job<'_>>
    ensures { option_map job_view result ≡ asked_of sample_command (map string_bytes words.now) }
{
    if !is_paired(words, &["--seed"]) {
        return None;
    }
    let seed = small_number(once(words, "--seed")?)?;
    Some(Job::Sample { seed })
}

#[tactic(auto, using(crate::proofs::Asked::refused, crate::proofs::Asked::asked), unfolding(crate::specs::Job::retain_job))]
pub fn retain(words: &[String]) -> Option<Job<'_>>
    ensures { option_map job_view result ≡ asked_of retain_command (map string_bytes words.now) }
{
    if !is_paired(words, &["--store", "--into", "--at"]) {
        return None;
    }
    let store = once(words, "--store")?;
    let into = once(words, "--into")?;
    let at = number(once(words, "--at")?)?;
    if !are_apart(&[store, into]) {
        return None;
    }
    Some(Job::Retain { store, into, at })
}
