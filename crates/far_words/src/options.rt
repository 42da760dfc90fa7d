//! Options as `name=value`, and the options of a command as a whole.

ghost use Rattle.std.specs.Prelude.{◌≡◌, not, ◌&&◌, ◌||◌, map, string_bytes, bytes_eq};
ghost use Rattle.std.specs.Option.{option_map};
ghost use Rattle.std.specs.List.{list_any};
ghost use Rattle.far_model.specs.Words as model;
ghost use Rattle.far_model.specs.Words.{Number};
ghost use Rattle.far_words.specs.View.{kind_of_code, option_of_code};
ghost use Rattle.far_words.specs.Table.{u32_of_option};

use crate::number::read_number;
use crate::table::{OptionRule, ValueKind};

// Whether the value is a number from `least` to `greatest`.
fn is_number_in_range(least: u32, greatest: u32, value: &str) -> bool
    ensures { result ≡ model.is_value (Number least greatest) value.now }
{
    match read_number(value.as_bytes()) {
        Some(number) => least <= number && number <= greatest,
        None => false,
    }
}

// Whether the value is one of the names.
fn is_one_of(names: &[&str], value: &str) -> bool
    ensures { result ≡ list_any (bytes_eq value.now) (map (λ name. name.now) names.now) }
{
    let mut rest = names;
    while let [name, others @ ..] = rest {
        if value == *name {
            return true;
        }
        rest = others;
    }
    false
}

// Whether an option of this kind may have this value.
fn is_value(kind: &ValueKind, value: &str) -> bool
    ensures { result ≡ model.is_value (kind_of_code kind.now) value.now }
{
    match *kind {
        ValueKind::Number { least, greatest } => is_number_in_range(least, greatest, value),
        ValueKind::OneOf(names) => is_one_of(names, value),
    }
}

// Whether one of the rules has this name and allows this value.
fn some_rule_allows(rules: &[OptionRule], name: &str, value: &str) -> bool
    ensures { result ≡ list_any (λ rule. bytes_eq name.now rule.name && model.is_value rule.kind value.now) (map option_of_code rules.now) }
{
    let mut rest = rules;
    while let [rule, others @ ..] = rest {
        if name == rule.name && is_value(&rule.kind, value) {
            return true;
        }
        rest = others;
    }
    false
}

// Whether the word is `name=value`, with the name of a rule and a value that it allows.
fn is_option_of(rules: &[OptionRule], word: &str) -> bool
    ensures { result ≡ model.is_option_of (map option_of_code rules.now) word.now }
{
    match word.split_once('=') {
        Some((name, value)) => some_rule_allows(rules, name, value),
        None => false,
    }
}

// The part before the first `=`.
fn option_name(word: &str) -> &str
    ensures { result.now ≡ model.option_name word.now }
{
    match word.split_once('=') {
        Some((name, _)) => name,
        None => word,
    }
}

// The part after the first `=`.
fn option_value(word: &str) -> &str
    ensures { result.now ≡ model.option_value word.now }
{
    match word.split_once('=') {
        Some((_, value)) => value,
        None => "",
    }
}

// Whether one of the words has this name.
fn has_option(options: &[String], name: &str) -> bool
    ensures { result ≡ model.has_option (map string_bytes options.now) name.now }
{
    let mut rest = options;
    while let [option, others @ ..] = rest {
        if name == option_name(option.as_str()) {
            return true;
        }
        rest = others;
    }
    false
}

// Whether the word is not an option of the rules, or repeats the name of an earlier one.
fn is_bad_option(rules: &[OptionRule], earlier: &[String], word: &str) -> bool
    ensures { result ≡ (not (model.is_option_of (map option_of_code rules.now) word.now)
        || model.has_option (map string_bytes earlier.now) (model.option_name word.now)) }
{
    !is_option_of(rules, word) || has_option(earlier, option_name(word))
}

/// The place of the first bad option, counted from 0.
pub(crate) fn first_bad_option(rules: &[OptionRule], options: &[String]) -> Option<usize>
    ensures { result ≡ model.first_bad_option (map option_of_code rules.now) (map string_bytes options.now) }
{
    for (place, option) in options.iter().enumerate() {
        if is_bad_option(rules, &options[..place], option.as_str()) {
            return Some(place);
        }
    }
    None
}

/// Whether every required option is present.
pub(crate) fn has_required(rules: &[OptionRule], options: &[String]) -> bool
    ensures { result ≡ model.has_required (map option_of_code rules.now) (map string_bytes options.now) }
{
    let mut rest = rules;
    while let [rule, others @ ..] = rest {
        if rule.required && !has_option(options, rule.name) {
            return false;
        }
        rest = others;
    }
    true
}

/// The value of the option with this name.
pub(crate) fn value_of<'a>(options: &'a [String], name: &str) -> Option<&'a str>
    ensures { option_map (λ value. value.now) result ≡ model.value_of (map string_bytes options.now) name.now }
{
    let mut rest = options;
    while let [option, others @ ..] = rest {
        if name == option_name(option.as_str()) {
            return Some(option_value(option.as_str()));
        }
        rest = others;
    }
    None
}

/// The number of the option with this name, or `None` if its value is not a number that fits.
pub(crate) fn number_of(options: &[String], name: &str) -> Option<u32>
    ensures { result ≡ u32_of_option (map string_bytes options.now) name.now }
{
    read_number(value_of(options, name)?.as_bytes())
}
