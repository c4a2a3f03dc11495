//! What a document holds, by its kind.

ghost use Rattle.std.specs.Prelude.{◌≡◌, ◌≢◌, ◌<◌, ◌^◌, ◌↔◌, ℕ, ℤ, pos, Bool, List, String, Vec};
ghost use Rattle.std.specs.Prelude.{MatchOption, MatchResult, IsTrue, FitsSigned};
ghost use Rattle.std.specs.Prelude.{string_bytes};
ghost use Rattle.std.specs.Global.{Global};
ghost use Rattle.std.specs.Int.{w64};
ghost use Rattle.nano_document.specs.Documents.{IsNumber, IsDecimalOf, IsTextOf};

use crate::decimal::is_decimal;
use crate::json::Json;

/// The calls that look at a document, and those that take it apart.
impl Json {
    /// Whether it is `null`.
    pub fn is_null(&self) -> bool
        ensures { IsTrue result ↔ (self.now ≡ Json.Null) }
    {
        matches!(self, Json::Null)
    }

    /// The boolean, if it is one.
    pub fn as_bool(&self) -> Option<bool>
        ensures { MatchOption result ((truth : Bool) → self.now ≢ Json.Bool truth)
            (λ truth. self.now ≡ Json.Bool truth) }
    {
        match self {
            Json::Bool(truth) => Some(*truth),
            _ => None,
        }
    }

    /// The number, if it is one from 0 to 2^64 - 1, as a `U64` or as an `I64`.
    pub fn as_u64(&self) -> Option<u64>
        ensures { MatchOption result ((n : ℕ) → n < 2 ^ 64 → IsNumber self.now (pos n) → ⊥)
            (λ n. IsNumber self.now (pos n)) }
    {
        match self {
            Json::U64(number) => Some(*number),
            Json::I64(number) => unsigned(*number),
            _ => None,
        }
    }

    /// The number, if it is one from -2^63 to 2^63 - 1, as a `U64` or as an `I64`.
    pub fn as_i64(&self) -> Option<i64>
        ensures { MatchOption result ((z : ℤ) → FitsSigned w64 z → IsNumber self.now z → ⊥)
            (λ z. IsNumber self.now z) }
    {
        match self {
            Json::U64(number) => i64::try_from(*number).ok(),
            Json::I64(number) => Some(*number),
            _ => None,
        }
    }

    /// The text of a decimal, if it is one.
    pub fn as_decimal(&self) -> Option<&str>
        ensures { MatchOption result ((text : String Global) → IsDecimalOf self.now text → ⊥)
            (λ string. (text : String Global) × IsDecimalOf self.now text
            × (string.now ≡ string_bytes text)) }
    {
        match self {
            Json::Decimal(text) if is_decimal(text.as_str()) => Some(text.as_str()),
            _ => None,
        }
    }

    /// The text, if it is one, as a `Text` or as a `Decimal` that is none.
    pub fn as_str(&self) -> Option<&str>
        ensures { MatchOption result ((text : String Global) → IsTextOf self.now text → ⊥)
            (λ string. (text : String Global) × IsTextOf self.now text
            × (string.now ≡ string_bytes text)) }
    {
        match self {
            Json::Decimal(text) if !is_decimal(text.as_str()) => Some(text.as_str()),
            Json::Text(text) => Some(text.as_str()),
            _ => None,
        }
    }

    /// The documents of a list, in order, if it is one.
    pub fn as_list(&self) -> Option<&Vec<Json>>
        ensures { MatchOption result ((items : Vec Json Global) → self.now ≢ Json.List items)
            (λ items. self.now ≡ Json.List items.now) }
    {
        match self {
            Json::List(items) => Some(items),
            _ => None,
        }
    }

    /// The names of an object with their documents, in order, if it is one.
    pub fn as_object(&self) -> Option<&Vec<(String, Json)>>
        ensures { MatchOption result
            ((entries : Vec (String Global × Json) Global) → self.now ≢ Json.Object entries)
            (λ entries. self.now ≡ Json.Object entries.now) }
    {
        match self {
            Json::Object(entries) => Some(entries),
            _ => None,
        }
    }

    /// The text of a decimal, taken out.
    ///
    /// # Errors
    ///
    /// It is no decimal, and is returned as it is.
    pub fn into_decimal(self) -> Result<String, Json>
        ensures { MatchResult result (λ text. IsDecimalOf self text)
            (λ json. (json ≡ self) × ((text : String Global) → IsDecimalOf self text → ⊥)) }
    {
        match self {
            Json::Decimal(text) => {
                if is_decimal(text.as_str()) {
                    Ok(text)
                } else {
                    Err(Json::Decimal(text))
                }
            }
            json => Err(json),
        }
    }

    /// The text, taken out.
    ///
    /// # Errors
    ///
    /// It is no text, and is returned as it is.
    pub fn into_text(self) -> Result<String, Json>
        ensures { MatchResult result (λ text. IsTextOf self text)
            (λ json. (json ≡ self) × ((text : String Global) → IsTextOf self text → ⊥)) }
    {
        match self {
            Json::Text(text) => Ok(text),
            Json::Decimal(text) => {
                if is_decimal(text.as_str()) {
                    Err(Json::Decimal(text))
                } else {
                    Ok(text)
                }
            }
            json => Err(json),
        }
    }

    /// The documents of a list, taken out.
    ///
    /// # Errors
    ///
    /// It is no list, and is returned as it is.
    pub fn into_list(self) -> Result<Vec<Json>, Json>
        ensures { MatchResult result (λ items. self ≡ Json.List items)
            (λ json. (json ≡ self) × ((items : Vec Json Global) → self ≢ Json.List items)) }
    {
        match self {
            Json::List(items) => Ok(items),
            json => Err(json),
        }
    }

    /// The names of an object with their documents, taken out.
    ///
    /// # Errors
    ///
    /// It is no object, and is returned as it is.
    pub fn into_object(self) -> Result<Vec<(String, Json)>, Json>
        ensures { MatchResult result (λ entries. self ≡ Json.Object entries)
            (λ json. (json ≡ self)
            × ((entries : Vec (String Global × Json) Global) → self ≢ Json.Object entries)) }
    {
        match self {
            Json::Object(entries) => Ok(entries),
            json => Err(json),
        }
    }
}

/// The number, unless it is negative.
fn unsigned(number: i64) -> Option<u64>
    ensures { MatchOption result ((n : ℕ) → number ≢ pos n) (λ n. number ≡ pos n) }
{
    if number < 0 {
        return None;
    }
    Some(number as u64)
}
