// Values behind keys.
ghost use Rattle.std.specs.Prelude.{◌≡◌, option_map, option_and_then};
ghost use Rattle.serde_json.specs.Find.{as_object, as_str, get};
ghost use Rattle.serde_json.specs.View.{view, members_view};
ghost use Rattle.avm_script.specs.Config.{number_of, bytes_of, count, has_members as has_members_lem};

use serde_json::{Map, Value};

fn len(map: &Map<String, Value>) -> usize
    ensures { result ≡ count (members_view map.now.entries) }
{
    map.len()
}

// Whether it is an object of n members.
pub fn has_members(n: usize, value: &Value) -> bool
    ensures { result ≡ has_members_lem n (as_object (view value.now)) }
{
    match value.as_object() {
        Some(map) => len(map) == n,
        None => false,
    }
}

// The whole number behind a key.
pub fn number(value: &Value, key: &str) -> Option<u64>
    ensures { result ≡ number_of key.now (view value.now) }
{
    value.get(key).and_then(Value::as_u64)
}

// The text behind a key.
fn text<'a>(value: &'a Value, key: &str) -> Option<&'a str>
    ensures { option_map (λ t. t.now) result ≡ option_and_then as_str (get key.now (view value.now)) }
{
    value.get(key).and_then(Value::as_str)
}

// 56 bytes behind a key, in hexadecimal digits.
pub fn key_bytes(value: &Value, key: &str) -> Option<[u8; 56]>
    ensures { result ≡ bytes_of 56 key.now (view value.now) }
{
    match text(value, key) {
        Some(text) => <[u8; 56] as hex::FromHex>::from_hex(text).ok(),
        None => None,
    }
}
