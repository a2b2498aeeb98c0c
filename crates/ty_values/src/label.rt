// Labels of endpoints, profiles and resources.
ghost use Rattle.std.specs.Prelude.{◌≡◌, ◌&&◌};
ghost use Rattle.std.specs.List.{list_all};
ghost use Rattle.serde_json.specs.View.{members_view};
ghost use Rattle.ty_select.specs.Words.{is_word};
ghost use Rattle.ty_rules.specs.Tests.{members, text};
ghost use Rattle.ty_values.specs.Labels.{labels};

use serde_json::{Map, Value};
use ty_rules::Test;
use ty_select::is_word;

/// An object of strings, each under the name of a label, which is a word of selectors.
#[derive(Drop)]
pub struct Labels;

impl Test for Labels {
    ghost holds = { λ _. labels };

    fn accepts(&self, value: &Value) -> bool {
        match value.as_object() {
            Some(map) => are_labels(map),
            None => false,
        }
    }
}

fn are_labels(map: &Map<String, Value>) -> bool
    ensures { result ≡ list_all (λ m. is_word m.0 && text m.1) (members (members_view map.now.entries)) }
{
    map.iter().all(|(name, value)| is_word(name.as_bytes()) && value.is_string())
}
