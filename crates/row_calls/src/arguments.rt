//! The arguments of a call.

use crate::call::Call;
use fixed_decimal::CompactDecimal;
use hex::FromHexError;
use plural_base::{PluralRulesData, RulesTextError};
use plural_reference::{PluralOperands, RawPluralOperands};
use serde_json::Value;
use std::alloc::Global;

/// Five texts of rules, from zero to many.
#[derive(Drop)]
pub struct FiveTexts {
    /// The text of `zero`.
    pub zero: Option<String>,
    /// The text of `one`.
    pub one: Option<String>,
    /// The text of `two`.
    pub two: Option<String>,
    /// The text of `few`.
    pub few: Option<String>,
    /// The text of `many`.
    pub many: Option<String>,
}

impl FiveTexts {
    /// Returns the rules of the texts, or the first text that gives none.
    pub fn read(&self, alloc: Global) -> Result<PluralRulesData<'static>, RulesTextError> {
        PluralRulesData::from_texts(
            alloc,
            self.zero.as_deref(),
            self.one.as_deref(),
            self.two.as_deref(),
            self.few.as_deref(),
            self.many.as_deref(),
        )
    }
}

impl Call {
    /// Returns a text: a JSON string, or an array of pieces.
    pub fn text(&mut self) -> String {
        let value = self.value();
        self.text_of(&value)
    }

    /// Returns a text, or `None` for `null`.
    pub fn optional_text(&mut self) -> Option<String> {
        let value = self.value();
        self.optional_text_of(Some(&value))
    }

    /// Returns the texts of an array.
    pub fn texts(&mut self) -> Vec<String> {
        let mut texts = Vec::new(self.alloc);
        for value in &self.list() {
            let text = self.text_of(value);
            self.add_item(&mut texts, text);
        }
        texts
    }

    /// Returns bytes, which are a text of hexadecimal digits.
    pub fn bytes(&mut self) -> Vec<u8> {
        let value = self.value();
        self.bytes_of(&value)
    }

    /// Returns a number from 0 to 18446744073709551615.
    pub fn number(&mut self) -> u64 {
        let value = self.value();
        self.number_of(&value)
    }

    /// Returns a number from 0 to 255.
    pub fn byte(&mut self) -> u8 {
        let number = self.number();
        if number > 255 {
            self.not("at most 255");
            return 0;
        }
        number as u8
    }

    /// Returns a size or an index.
    pub fn size(&mut self) -> usize {
        self.number() as usize
    }

    /// Returns a number from -32768 to 32767.
    pub fn magnitude(&mut self) -> i16 {
        let value = self.value();
        self.magnitude_of(&value)
    }

    /// Returns the numbers of an array, from -32768 to 32767.
    pub fn magnitudes(&mut self) -> Vec<i16> {
        let mut magnitudes = Vec::new(self.alloc);
        for value in &self.list() {
            let magnitude = self.magnitude_of(value);
            self.add_item(&mut magnitudes, magnitude);
        }
        magnitudes
    }

    /// Returns the values of an array.
    pub fn list(&mut self) -> Vec<Value> {
        if let Value::Array(values) = self.value() {
            return values;
        }
        self.not("a list");
        Vec::new(self.alloc)
    }

    /// Returns operands: those of an integer, of a text that writes a compact decimal, or the array
    /// of `i`, `v`, `w`, `f`, `t` and `c`.
    pub fn operands(&mut self) -> PluralOperands {
        let value = self.value();
        match &value {
            Value::Number(_) => PluralOperands::from(self.number_of(&value)),
            Value::Array(six) => self.operands_of_six(six.as_slice()),
            _ => self.operands_of_text(&value),
        }
    }

    /// Returns the texts of five rules: an object whose keys are `zero`, `one`, `two`, `few` and
    /// `many`.
    pub fn five_texts(&mut self) -> FiveTexts {
        let value = self.value();
        if !has_names(&value, &["zero", "one", "two", "few", "many"]) {
            self.not("five rules");
        }
        FiveTexts {
            zero: self.optional_text_of(value.get("zero")),
            one: self.optional_text_of(value.get("one")),
            two: self.optional_text_of(value.get("two")),
            few: self.optional_text_of(value.get("few")),
            many: self.optional_text_of(value.get("many")),
        }
    }

    /// Returns five rules, read from their texts.
    pub fn rules(&mut self) -> PluralRulesData<'static> {
        let texts = self.five_texts();
        match texts.read(self.alloc) {
            Ok(rules) => rules,
            Err(refusal) => {
                self.refused("five rules", &refusal.error);
                PluralRulesData::default()
            }
        }
    }

    // The operands of a compact decimal's text.
    fn operands_of_text(&mut self, value: &Value) -> PluralOperands {
        let text = self.text_of(value);
        match CompactDecimal::from_str(self.alloc, text.as_str()) {
            Ok(number) => PluralOperands::from(&number),
            Err(error) => {
                self.refused("operands", &error);
                PluralOperands::default()
            }
        }
    }

    // The operands i, v, w, f, t and c.
    fn operands_of_six(&mut self, six: &[Value]) -> PluralOperands {
        let [i, v, w, f, t, c] = six else {
            return self.no_operands();
        };
        PluralOperands::from(RawPluralOperands {
            i: self.number_of(i),
            v: self.number_of(v) as usize,
            w: self.number_of(w) as usize,
            f: self.number_of(f),
            t: self.number_of(t),
            c: self.number_of(c) as usize,
        })
    }

    /// Returns operands in the place of what are none.
    pub fn no_operands(&mut self) -> PluralOperands {
        self.not("operands");
        PluralOperands::default()
    }

    /// Returns the number of a value, from 0 to 18446744073709551615.
    pub fn number_of(&mut self, value: &Value) -> u64 {
        if let Some(number) = value.as_u64() {
            return number;
        }
        self.not("a number");
        0
    }

    // A number from -32768 to 32767.
    fn magnitude_of(&mut self, value: &Value) -> i16 {
        match value.as_i64() {
            Some(number) if -32768 <= number && number <= 32767 => number as i16,
            _ => {
                self.not("a magnitude");
                0
            }
        }
    }

    /// Returns the text of a value: a JSON string, or an array of pieces, each a string or
    /// `[string, count]`.
    pub fn text_of(&mut self, value: &Value) -> String {
        let mut text = self.empty();
        if let Value::Array(pieces) = value {
            for piece in pieces {
                self.add_piece(&mut text, piece);
            }
        } else {
            self.add_string(&mut text, value);
        }
        text
    }

    // Adds a piece: a string, or as many copies of one.
    fn add_piece(&mut self, text: &mut String, piece: &Value) {
        let [copied, count] = items_of(piece) else {
            return self.add_string(text, piece);
        };
        for _ in 0..self.number_of(count) {
            self.add_string(text, copied);
        }
    }

    // Adds a string.
    fn add_string(&mut self, text: &mut String, value: &Value) {
        match value.as_str() {
            Some(whole) => self.add(text, whole),
            None => self.not("a text"),
        }
    }

    /// Returns the text of a value that is present and isn't null.
    pub fn optional_text_of(&mut self, value: Option<&Value>) -> Option<String> {
        match value {
            None | Some(Value::Null) => None,
            Some(value) => Some(self.text_of(value)),
        }
    }

    /// Returns the bytes of a value: a text of hexadecimal digits.
    pub fn bytes_of(&mut self, value: &Value) -> Vec<u8> {
        let digits = self.text_of(value);
        match hex::decode(self.alloc, digits.as_str()) {
            Ok(bytes) => return bytes,
            Err(FromHexError::OutOfMemory) => self.out_of_memory(),
            Err(_) => self.not("bytes"),
        }
        Vec::new(self.alloc)
    }
}

/// Returns the values of an array, and no values if it is none.
pub fn items_of(value: &Value) -> &[Value] {
    match value {
        Value::Array(values) => values.as_slice(),
        _ => &[],
    }
}

/// Returns whether a value is an object whose members all have one of these names.
pub fn has_names(value: &Value, names: &[&str]) -> bool {
    let Value::Object(members) = value else {
        return false;
    };
    for (name, _) in members.iter() {
        if !is_one_of(name.as_str(), names) {
            return false;
        }
    }
    true
}

/// Returns whether a name is one of these.
pub fn is_one_of(name: &str, names: &[&str]) -> bool {
    for known in names {
        if *known == name {
            return true;
        }
    }
    false
}
