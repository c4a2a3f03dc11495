//! What a document means is legal.

ghost use Rattle.std.specs.Prelude.{map};
ghost use Rattle.nano_value.specs.Meaning.{LegalList, LegalPair, LegalText};
ghost use Rattle.nano_value.specs.Meaning.{listed};
ghost use Rattle.nano_document.specs.Documents.{json_means, entry_means};
ghost use Rattle.nano_document.specs.DocumentCodecs.{json_codec};

use crate::json::Json;
use nano_value::Value;

/// Does nothing. Its contract says that what a document means is legal.
#[cycle(known)]
pub(crate) fn known_json(json: &Json)
    ensures { json_codec.encoding.legal (json_means json.now) }
{
    match json {
        Json::Null => {}
        Json::Bool(truth) => truth.known(),
        Json::U64(number) => number.known(),
        Json::I64(number) => number.known(),
        Json::Decimal(text) => text.known(),
        Json::Text(text) => text.known(),
        Json::List(items) => known_items(items),
        Json::Object(entries) => known_entries(entries),
    }
}

#[cycle(known)]
fn known_items(items: &Vec<Json>)
    ensures { LegalList json_codec.encoding.legal (listed (map json_means items.now.items)) }
{
    for item in items {
        known_json(item);
    }
}

#[cycle(known)]
fn known_entries(entries: &Vec<(String, Json)>)
    ensures { LegalList (LegalPair LegalText json_codec.encoding.legal)
        (listed (map (entry_means json_means) entries.now.items)) }
{
    for entry in entries {
        entry.0.known();
        known_json(&entry.1);
    }
}
