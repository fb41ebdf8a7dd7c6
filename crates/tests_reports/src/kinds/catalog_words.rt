//! The words of catalogues, and what they make.

use catalog_commands::{
    GivenFault, Word, arguments_of, given_words, pack_patterns, pack_words, say_words,
};
use message_pattern::Pattern;
use packed_pattern::{PackedPattern, pack};
use row_calls::call::Call;

/// Makes the call of a kind of this file. Returns whether there is such a kind.
pub fn make(kind: &str, call: &mut Call) -> bool {
    match kind {
        "catalog_pack_words" => catalog_pack_words(call),
        "catalog_say_words" => catalog_say_words(call),
        "catalog_given" => catalog_given(call),
        "catalog_packed" => catalog_packed(call),
        "catalog_arguments" => catalog_arguments(call),
        _ => return false,
    }
    true
}

// The words that texts are.
fn words_of<'a>(call: &mut Call, texts: &'a [String]) -> Vec<&'a str> {
    let mut words = Vec::new(call.alloc);
    for text in texts {
        call.add_item(&mut words, text.as_str());
    }
    words
}

// What words behind `pack` name.
fn catalog_pack_words(call: &mut Call) {
    let texts = call.texts();
    let words = words_of(call, texts.as_slice());
    match pack_words(words.as_slice()) {
        Some(said) => call.print_name(&said),
        None => call.print("none"),
    }
}

// What words behind `say` name.
fn catalog_say_words(call: &mut Call) {
    let texts = call.texts();
    let words = words_of(call, texts.as_slice());
    match say_words(words.as_slice()) {
        Some(said) => call.print_name(&said),
        None => call.print("none"),
    }
}

// The names and values that words give.
fn given_by<'a>(call: &mut Call, words: &[&'a str]) -> Vec<Word<'a>> {
    match given_words(call.alloc, words) {
        Ok(given) => return given,
        Err(GivenFault::NoValue(word)) => call.print_error(&GivenFault::NoValue(word)),
        Err(GivenFault::Memory) => call.out_of_memory(),
    }
    Vec::new(call.alloc)
}

// Prints the names and values that words give.
fn catalog_given(call: &mut Call) {
    let texts = call.texts();
    let words = words_of(call, texts.as_slice());
    for word in given_by(call, words.as_slice()).iter() {
        call.separate(" ");
        call.print_quoted(word.name);
        call.print(":");
        call.print_quoted(word.value);
    }
    call.print_none_if_empty();
}

// The bytes of the catalogue of patterns.
fn catalog_packed(call: &mut Call) {
    let patterns = call.value();
    match pack_patterns(call.alloc, &patterns) {
        Ok(bytes) => call.print_bytes(bytes.as_slice()),
        Err(fault) => call.print_error(&fault),
    }
}

// The arguments that words give a pattern.
fn catalog_arguments(call: &mut Call) {
    let (text, texts) = (call.text(), call.texts());
    let words = words_of(call, texts.as_slice());
    let given = given_by(call, words.as_slice());
    let pattern = match Pattern::parse(call.alloc, text.as_bytes()) {
        Ok(pattern) => pattern,
        Err(error) => return call.refused("a pattern", &error),
    };
    let Ok(bytes) = pack(call.alloc, &pattern) else {
        return call.out_of_memory();
    };
    let Ok(packed) = PackedPattern::parse_bytes(bytes.as_slice()) else {
        return call.not("a packed pattern");
    };
    match arguments_of(call.alloc, &packed, given.as_slice()) {
        Ok(arguments) => {
            for argument in arguments.iter() {
                call.separate(" ");
                call.print(argument.name);
                call.print(" ");
                call.print_name(&argument.value);
            }
        }
        Err(_) => call.out_of_memory(),
    }
}
