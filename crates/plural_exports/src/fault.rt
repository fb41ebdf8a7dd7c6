//! Why an export has no result, and the numbers that tell it.

ghost use Rattle.std.specs.Prelude.{◌≡◌};
ghost use Rattle.plural_exports.specs.Faults.{argument_number, block_number, catalog_number, decimal_number, elements_number, entries_number, entries_packing_number, fault_number, json_number, messages_number, packed_number, packing_number, parse_number, pattern_block_number, pattern_number, pattern_packing_number, rule_number};
ghost use Rattle.plural_exports.specs.Inner.Conversions.{decimal_fault, entries_pack_fault, format_fault, json_fault, json_text_fault, rules_pack_fault, pattern_fault, pattern_pack_fault, pattern_text_fault, patterns_fault, text_fault};
ghost use Rattle.plural_exports.specs.declared.fault.Fault.TheVariants.{Catalog, Elements, Messages, Packed, Rules};

use catalog_commands::{MessagesFault, PatternsFault};
use icu_plurals::provider::rules::reference::ParseError;
use icu_plurals::provider::rules::runtime::ast::{RuleBytesError, RuleError};
use icu_plurals::{
    DecimalError, ElementsBytesError, ElementsPackError, JsonError, ListError, RulesBytesError,
    RulesPackError,
};
use message_catalog::{MessageCatalogError, TextFault};
use message_format::{ArgumentFault, FormatError};
use message_pattern::{FaultKind, PatternError};
use packed_catalog::{CatalogError, PackCatalogError};
use packed_pattern::{BlockError, PackPatternError};
use plural_documents::JsonTextError;

// Why there is no result. A fault of memory is always `Memory`, whatever it was wanted for.
#[derive(Clone, Copy)]
pub(crate) enum Fault {
    // Out of memory.
    Memory,
    // A text isn't UTF-8.
    Utf8,
    // No type of rules, or no part of a document, has the number.
    RuleType,
    // A text isn't a number, or over a limit.
    Number(DecimalError),
    // A number is outside the exactness bound.
    OutsideBound,
    // A text gives no rule.
    Text(RuleError),
    // Bytes aren't a block of rules.
    Rules(RulesBytesError),
    // Rules are too long for a block.
    RulesLimit,
    // Bytes aren't packed elements.
    Elements(ElementsBytesError),
    // A text isn't JSON.
    Json,
    // A JSON value has another form.
    Document(JsonError),
    // The document has nothing of the type for the locale, or for its chain.
    Locale,
    // A table of categories has another length.
    TableLength,
    // A text isn't a pattern.
    Pattern(FaultKind),
    // A pattern says nothing with the arguments, because of one of them.
    Argument(ArgumentFault),
    // An argument's kind is neither 0 nor 1.
    ArgumentKind,
    // Bytes aren't the block of a pattern.
    Packed(BlockError),
    // A pattern can't be packed.
    Packing(PackPatternError),
    // Bytes aren't a catalogue of messages.
    Catalog(MessageCatalogError),
    // No message has the key.
    NoKey,
    // A document of messages has no patterns that are packed.
    Messages(MessagesFault),
    // Messages can't be packed as a catalogue.
    Entries(PackCatalogError),
}

impl Fault {
    // The number that an export returns.
    pub(crate) fn number(self) -> i32
        ensures { result ≡ fault_number self }
    {
        match self {
            Fault::Memory => MEMORY,
            Fault::Utf8 => -2,
            Fault::RuleType => -3,
            Fault::Number(fault) => decimal_number(fault),
            Fault::OutsideBound => -12,
            Fault::Text(fault) => rule_number(fault),
            Fault::Rules(fault) => block_number(fault),
            Fault::RulesLimit => -40,
            Fault::Elements(fault) => elements_number(fault),
            Fault::Json => -70,
            Fault::Document(fault) => json_number(fault),
            Fault::Locale => -75,
            Fault::TableLength => -80,
            Fault::Pattern(kind) => pattern_number(kind),
            Fault::Argument(fault) => argument_number(fault),
            Fault::ArgumentKind => -115,
            Fault::Packed(fault) => pattern_block_number(fault),
            Fault::Packing(fault) => pattern_packing_number(fault),
            Fault::Catalog(fault) => catalog_number(fault),
            Fault::NoKey => -144,
            Fault::Messages(fault) => messages_number(fault),
            Fault::Entries(fault) => entries_packing_number(fault),
        }
    }
}

impl From<DecimalError> for Fault {
    ghost from_gives = { λ error fault. fault ≡ decimal_fault error };

    fn from(error: DecimalError) -> Fault {
        match error {
            DecimalError::Syntax | DecimalError::Limit => Fault::Number(error),
            DecimalError::Memory => Fault::Memory,
        }
    }
}

impl From<RuleError> for Fault {
    ghost from_gives = { λ error fault. fault ≡ text_fault error };

    fn from(error: RuleError) -> Fault {
        match error {
            RuleError::Parse(_) | RuleError::StartLimit => Fault::Text(error),
            RuleError::Memory => Fault::Memory,
        }
    }
}

impl From<RulesBytesError> for Fault {
    ghost from_gives = { λ error fault. fault ≡ Rules error };

    fn from(error: RulesBytesError) -> Fault {
        Fault::Rules(error)
    }
}

impl From<RulesPackError> for Fault {
    ghost from_gives = { λ error fault. fault ≡ rules_pack_fault error };

    fn from(error: RulesPackError) -> Fault {
        match error {
            RulesPackError::StartLimit => Fault::RulesLimit,
            RulesPackError::Memory => Fault::Memory,
        }
    }
}

impl From<ElementsBytesError> for Fault {
    ghost from_gives = { λ error fault. fault ≡ Elements error };

    fn from(error: ElementsBytesError) -> Fault {
        Fault::Elements(error)
    }
}

impl From<JsonTextError> for Fault {
    ghost from_gives = { λ error fault. fault ≡ json_text_fault error };

    fn from(error: JsonTextError) -> Fault {
        match error {
            JsonTextError::Json => Fault::Json,
            JsonTextError::Memory => Fault::Memory,
        }
    }
}

impl From<JsonError> for Fault {
    ghost from_gives = { λ error fault. fault ≡ json_fault error };

    fn from(error: JsonError) -> Fault {
        match error {
            JsonError::Float
            | JsonError::Shape
            | JsonError::Rule(_, _)
            | JsonError::RangeKey
            | JsonError::RangeValue
            | JsonError::Pack(_) => Fault::Document(error),
            JsonError::Memory => Fault::Memory,
        }
    }
}

impl From<PatternError> for Fault {
    ghost from_gives = { λ error fault. fault ≡ pattern_fault error };

    fn from(error: PatternError) -> Fault {
        match error {
            PatternError::Fault(kind, _) => Fault::Pattern(kind),
            PatternError::Memory => Fault::Memory,
        }
    }
}

impl<'p> From<FormatError<'p>> for Fault {
    ghost from_gives = { λ error fault. fault ≡ format_fault error };

    fn from(error: FormatError<'p>) -> Fault {
        match error {
            FormatError::Argument(fault, _) => Fault::Argument(fault),
            FormatError::Memory => Fault::Memory,
        }
    }
}

impl From<BlockError> for Fault {
    ghost from_gives = { λ error fault. fault ≡ Packed error };

    fn from(error: BlockError) -> Fault {
        Fault::Packed(error)
    }
}

impl From<PackPatternError> for Fault {
    ghost from_gives = { λ error fault. fault ≡ pattern_pack_fault error };

    fn from(error: PackPatternError) -> Fault {
        match error {
            PackPatternError::CountLimit
            | PackPatternError::Part(_)
            | PackPatternError::Order(_)
            | PackPatternError::StartLimit => Fault::Packing(error),
            PackPatternError::Memory => Fault::Memory,
        }
    }
}

impl From<MessageCatalogError> for Fault {
    ghost from_gives = { λ error fault. fault ≡ Catalog error };

    fn from(error: MessageCatalogError) -> Fault {
        Fault::Catalog(error)
    }
}

impl From<MessagesFault> for Fault {
    ghost from_gives = { λ error fault. fault ≡ Messages error };

    fn from(error: MessagesFault) -> Fault {
        Fault::Messages(error)
    }
}

impl From<TextFault> for Fault {
    ghost from_gives = { λ error fault. fault ≡ pattern_text_fault error };

    fn from(error: TextFault) -> Fault {
        match error {
            TextFault::Text(kind, _) => Fault::Pattern(kind),
            TextFault::Pattern(reason) => Fault::from(reason),
        }
    }
}

impl From<PackCatalogError> for Fault {
    ghost from_gives = { λ error fault. fault ≡ entries_pack_fault error };

    fn from(error: PackCatalogError) -> Fault {
        match error {
            PackCatalogError::TooMany | PackCatalogError::Order(_) | PackCatalogError::TooLong => {
                Fault::Entries(error)
            }
            PackCatalogError::Memory => Fault::Memory,
        }
    }
}

impl<'a> From<PatternsFault<'a>> for Fault {
    ghost from_gives = { λ error fault. fault ≡ patterns_fault error };

    fn from(error: PatternsFault<'a>) -> Fault {
        match error {
            PatternsFault::NoObject | PatternsFault::NoText(_) => {
                Fault::Document(JsonError::Shape)
            }
            PatternsFault::Message(_, fault) => Fault::from(fault),
            PatternsFault::Catalog(reason) => Fault::from(reason),
            PatternsFault::Memory => Fault::Memory,
        }
    }
}

// Out of memory.
const MEMORY: i32 = -1;

// The number of a text that isn't a number.
fn decimal_number(fault: DecimalError) -> i32
    ensures { result ≡ decimal_number fault }
{
    match fault {
        DecimalError::Syntax => -10,
        DecimalError::Limit => -11,
        DecimalError::Memory => MEMORY,
    }
}

// The number of a text that isn't a rule.
fn parse_number(fault: ParseError) -> i32
    ensures { result ≡ parse_number fault }
{
    match fault {
        ParseError::ExpectedAndCondition => -20,
        ParseError::ExpectedRelation => -21,
        ParseError::ExpectedOperator => -22,
        ParseError::ExpectedOperand => -23,
        ParseError::ExpectedValue => -24,
        ParseError::ExpectedSampleType => -25,
        ParseError::ValueTooLarge => -26,
    }
}

// The number of a text that gives no rule.
fn rule_number(fault: RuleError) -> i32
    ensures { result ≡ rule_number fault }
{
    match fault {
        RuleError::Parse(fault) => parse_number(fault),
        RuleError::StartLimit => -27,
        RuleError::Memory => MEMORY,
    }
}

// The number of bytes that aren't a block of rules.
fn block_number(fault: RulesBytesError) -> i32
    ensures { result ≡ block_number fault }
{
    match fault {
        RulesBytesError::List(ListError::Header) => -30,
        RulesBytesError::List(ListError::ZeroCount) => -31,
        RulesBytesError::List(ListError::Start) => -32,
        RulesBytesError::ItemEmpty(_) => -33,
        RulesBytesError::Key(_) => -34,
        RulesBytesError::Rule(_, fault) => packed_number(fault),
    }
}

// The number of bytes in a block that aren't a rule.
fn packed_number(fault: RuleBytesError) -> i32
    ensures { result ≡ packed_number fault }
{
    match fault {
        RuleBytesError::List(ListError::Header) => -35,
        RuleBytesError::List(ListError::ZeroCount) => -36,
        RuleBytesError::List(ListError::Start) => -37,
        RuleBytesError::ItemLength(_) => -38,
        RuleBytesError::Operand(_) => -39,
    }
}

// The number of bytes that aren't packed elements.
fn elements_number(fault: ElementsBytesError) -> i32
    ensures { result ≡ elements_number fault }
{
    match fault {
        ElementsBytesError::Empty => -50,
        ElementsBytesError::Short => -51,
        ElementsBytesError::Padding => -52,
        ElementsBytesError::DefaultText => -53,
        ElementsBytesError::List(ListError::Header) => -54,
        ElementsBytesError::List(ListError::ZeroCount) => -55,
        ElementsBytesError::List(ListError::Start) => -56,
        ElementsBytesError::ItemEmpty(_) => -57,
        ElementsBytesError::Key(_) => -58,
        ElementsBytesError::ItemText(_) => -59,
    }
}

// The number of elements that can't be packed.
fn packing_number(fault: ElementsPackError) -> i32
    ensures { result ≡ packing_number fault }
{
    match fault {
        ElementsPackError::DefaultLimit => -60,
        ElementsPackError::StartLimit => -61,
        ElementsPackError::Memory => MEMORY,
    }
}

// The number of a JSON value that is refused.
fn json_number(fault: JsonError) -> i32
    ensures { result ≡ json_number fault }
{
    match fault {
        JsonError::Float => -71,
        JsonError::Shape => -72,
        JsonError::Rule(_, fault) => rule_number(fault),
        JsonError::RangeKey => -73,
        JsonError::RangeValue => -74,
        JsonError::Pack(fault) => packing_number(fault),
        JsonError::Memory => MEMORY,
    }
}

// The number of a text that isn't a pattern.
fn pattern_number(kind: FaultKind) -> i32
    ensures { result ≡ pattern_number kind }
{
    match kind {
        FaultKind::Unclosed => -90,
        FaultKind::ExpectedName => -91,
        FaultKind::BadNumber => -92,
        FaultKind::ExpectedEnd => -93,
        FaultKind::ExpectedType => -94,
        FaultKind::UnsupportedType => -95,
        FaultKind::ExpectedStyle => -96,
        FaultKind::ExpectedOffset => -97,
        FaultKind::ExpectedSelector => -98,
        FaultKind::ExpectedValue => -99,
        FaultKind::ExpectedBranch => -100,
        FaultKind::MissingOther => -101,
        FaultKind::TooDeep => -102,
    }
}

// The number of an argument that a pattern can't be said with.
fn argument_number(fault: ArgumentFault) -> i32
    ensures { result ≡ argument_number fault }
{
    match fault {
        ArgumentFault::Missing => -110,
        ArgumentFault::WrongKind => -111,
        ArgumentFault::NotANumber => -112,
        ArgumentFault::OverLimit => -113,
        ArgumentFault::CompactOffset => -114,
    }
}

// The number of bytes that aren't the block of a pattern.
fn pattern_block_number(fault: BlockError) -> i32
    ensures { result ≡ pattern_block_number fault }
{
    match fault {
        BlockError::List(ListError::Header) => -120,
        BlockError::List(ListError::ZeroCount) => -121,
        BlockError::List(ListError::Start) => -122,
        BlockError::Part(_) => -123,
        BlockError::Place(_) => -124,
        BlockError::Order(_) => -125,
    }
}

// The number of a pattern that can't be packed.
fn pattern_packing_number(fault: PackPatternError) -> i32
    ensures { result ≡ pattern_packing_number fault }
{
    match fault {
        PackPatternError::CountLimit => -130,
        PackPatternError::Part(_) => -131,
        PackPatternError::Order(_) => -132,
        PackPatternError::StartLimit => -133,
        PackPatternError::Memory => MEMORY,
    }
}

// The number of bytes that aren't a packed catalogue.
fn entries_number(fault: CatalogError) -> i32
    ensures { result ≡ entries_number fault }
{
    match fault {
        CatalogError::Header => -140,
        CatalogError::Length => -141,
        CatalogError::End(_) => -142,
        CatalogError::Order(_) => -143,
    }
}

// The number of bytes that aren't a catalogue of messages.
fn catalog_number(fault: MessageCatalogError) -> i32
    ensures { result ≡ catalog_number fault }
{
    match fault {
        MessageCatalogError::Catalog(fault) => entries_number(fault),
        MessageCatalogError::Pattern(_, fault) => pattern_block_number(fault),
    }
}

// The number of a document of messages without patterns that are packed.
fn messages_number(fault: MessagesFault) -> i32
    ensures { result ≡ messages_number fault }
{
    match fault {
        MessagesFault::NoLocale => -150,
        MessagesFault::SeveralLocales => -151,
        MessagesFault::AbsentLocale => -152,
        MessagesFault::CardinalForms => -153,
        MessagesFault::OrdinalForms => -154,
        MessagesFault::NoPatterns => -155,
    }
}

// The number of messages that can't be packed as a catalogue.
fn entries_packing_number(fault: PackCatalogError) -> i32
    ensures { result ≡ entries_packing_number fault }
{
    match fault {
        PackCatalogError::TooMany => -160,
        PackCatalogError::Order(_) => -161,
        PackCatalogError::TooLong => -162,
        PackCatalogError::Memory => MEMORY,
    }
}
