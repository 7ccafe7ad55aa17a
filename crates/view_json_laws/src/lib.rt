//! Laws of the text in the contract of `view_json::write_json`. A law computes nothing.
#![tactic(auto)]

ghost use Rattle.std.specs.Prelude.{◌≡◌, ◌++◌, List, codes, Option, Some, ℕ};
ghost use Rattle.view_events.specs.Event.{Event, print};
ghost use Rattle.view_events.specs.Document.{document_events};
ghost use Rattle.index_model.specs.Contents.{Contents};
ghost use Rattle.ext_small.specs.declared.marks.Marks.{Marks};
ghost use Rattle.index_parts.specs.declared.hash.ObjectId.{ObjectId};
ghost use Rattle.json.specs.Json.{Json};
ghost use Rattle.view_json.specs.Json.{event_text, json_text};
ghost use Rattle.view_json_laws.specs.Reading.{FitsWords, IsJson, json_of};
ghost use Rattle.view_json_laws.specs.Telling.{document_value, value_of};
ghost use Rattle.view_json_laws.specs.Value.{Value, spelling};

/// If events describe a JSON value, their text is the text of that value, and a newline. The events of each index, id
/// at the end and marks describe a value. So the text of an index is the text of its value.
pub fn text_spells_value()
    ensures events { (es : List Event) (v : Value) → value_of es ≡ Some v
        → print event_text es ≡ spelling v ++ codes "\n" }
    ensures told { (c : Contents) (checksum : Option ObjectId) (marks : Marks)
        → value_of (document_events c checksum marks)
        ≡ Some (document_value c checksum marks) }
    ensures spelled { (c : Contents) (checksum : Option ObjectId) (marks : Marks)
        → json_text c checksum marks ≡ spelling (document_value c checksum marks) ++ codes "\n" }
{}

/// The text of a value is JSON: by the grammar of the kit's `json`, its tokens are those of that value. The premise is
/// that each number has at most 64 bits, as in a file, and that what is printed in base 16 is bytes.
pub fn text_is_json()
    ensures { (v : Value) → FitsWords v → IsJson (spelling v) (json_of v) }
{}

/// A text is at most one JSON value. So two values with one text are equal to the grammar.
pub fn one_reading()
    ensures text { (text : List ℕ) (a b : Json) → IsJson text a → IsJson text b → a ≡ b }
    ensures value { (v w : Value) → FitsWords v → FitsWords w → spelling v ≡ spelling w
        → json_of v ≡ json_of w }
{}
