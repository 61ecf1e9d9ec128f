// Options and their values among words.
ghost use Rattle.std.specs.Prelude.{◌≡◌, ℕ, List, map, option_map, string_bytes};
ghost use Rattle.avm_model.specs.Words.{are_pairs, is_among, are_distinct, optional, needed};
ghost use Rattle.avm_script.specs.View.{text_view};

// Whether the word is one of those.
fn is_among_names(word: &str, names: &[&str]) -> bool
    ensures { result ≡ is_among word.now (map (λ n. n.now) names.now) }
{
    let mut left = names;
    while let [name, others @ ..] = left {
        if word == *name {
            return true;
        }
        left = others;
    }
    false
}

// Whether no name comes twice.
pub fn are_apart(names: &[&str]) -> bool
    ensures { result ≡ are_distinct (map (λ n. n.now) names.now) }
{
    let mut left = names;
    while let [name, others @ ..] = left {
        if is_among_names(name, others) {
            return false;
        }
        left = others;
    }
    true
}

// Whether the words are pairs of one of these options and a value.
#[tactic(auto, unfolding(avm_model::specs::Words::are_pairs))]
pub fn is_paired(words: &[String], options: &[&str]) -> bool
    ensures { result ≡ are_pairs (map (λ n. n.now) options.now) (map string_bytes words.now) }
{
    let mut left = words;
    while let [name, value, others @ ..] = left {
        if !is_among_names(name.as_str(), options) || value.is_empty() {
            return false;
        }
        left = others;
    }
    left.is_empty()
}

// The value of an option that may be missing. None where the option comes twice.
#[tactic(auto, unfolding(avm_model::specs::Words::values_of, avm_model::specs::Words::optional))]
pub fn given<'a>(words: &'a [String], option: &str) -> Option<Option<&'a str>>
    ensures { option_map text_view result ≡ optional option.now (map string_bytes words.now) }
{
    let mut left = words;
    let mut found: Option<&'a str> = None;
    while let [name, value, others @ ..] = left {
        if name.as_str() == option {
            if found.is_some() {
                return None;
            }
            found = Some(value.as_str());
        }
        left = others;
    }
    Some(found)
}

// The value of an option that has to come, and comes once.
#[tactic(auto, unfolding(avm_model::specs::Words::needed))]
pub fn once<'a>(words: &'a [String], option: &str) -> Option<&'a str>
    ensures { text_view result ≡ needed option.now (map string_bytes words.now) }
{
    given(words, option)?
}
