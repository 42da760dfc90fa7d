//! The reading of words as a command.

ghost use Rattle.std.specs.Prelude.{◌≡◌, ◌∷◌, map, string_bytes, Some, IfOk, IsTrue};
ghost use Rattle.std.specs.Option.{option_map};
ghost use Rattle.far_model.specs.Words.{usage_of_rule};
ghost use Rattle.far_model.specs.Words as words;
ghost use Rattle.far_model.specs.Command.{IsInRange, read_or};
ghost use Rattle.far_model.specs.Command as model;
ghost use Rattle.far_words.specs.View.{table_of_code, rule_of_code, uv_of_code, by_of_code, select_of_code, sparse_uv_of_code, refine_of_code, sparse_of_code, limit_of_code, patch_of_code, map_of_code, gen_of_code, frames_of_code, command_of_code, result_of_code};
ghost use Rattle.far_words.specs.Table.{AreNumbersU32, is_u32_rule, is_u32_table, u32_of_option};

use crate::command::{
    By, Command, FramesOptions, GenOptions, LimitOptions, MakeCommand, MapOptions, PatchOptions,
    ReadCommand, RefineOptions, Select, SparseOptions, SparseUv, StoredCommand, StreamCommand, Uv,
};
use crate::options::{first_bad_option, has_required, number_of, value_of};
use crate::table::{CommandRule, command_table};

fn uv_named(name: &str) -> Uv
    ensures { uv_of_code result ≡ model.uv_of name.now }
{
    match name {
        "corners" => Uv::Corners,
        "boundaries" => Uv::Boundaries,
        "linear" => Uv::Linear,
        _ => Uv::Smooth,
    }
}

fn by_named(name: &str) -> By
    ensures { by_of_code result ≡ model.by_of name.now }
{
    match name {
        "level" => By::Level,
        _ => By::Table,
    }
}

// The number of a required option.
fn required_number(options: &[String], name: &str) -> u32
    requires { u32_of_option (map string_bytes options.now) name.now ≡ words.number_of (map string_bytes options.now) name.now }
    ensures { result ≡ words.required_number (map string_bytes options.now) name.now }
{
    number_of(options, name).unwrap_or(0)
}

fn refine_of(options: &[String]) -> RefineOptions
    requires { AreNumbersU32 (map string_bytes options.now) }
    ensures { refine_of_code result ≡ model.refine_of (map string_bytes options.now) }
{
    RefineOptions {
        depth: required_number(options, "depth"),
        decimals: number_of(options, "decimals"),
        uv: uv_named(value_of(options, "uv").unwrap_or("smooth")),
        by: by_named(value_of(options, "by").unwrap_or("table")),
        tags: value_of(options, "tags").unwrap_or("no") == "yes",
    }
}

fn select_named(name: &str) -> Select
    ensures { select_of_code result ≡ model.select_of name.now }
{
    match name {
        "all" => Select::All,
        _ => Select::Feature,
    }
}

fn sparse_uv_named(name: &str) -> SparseUv
    ensures { sparse_uv_of_code result ≡ model.sparse_uv_of name.now }
{
    match name {
        "none" => SparseUv::NoTexture,
        "corners" => SparseUv::Corners,
        "boundaries" => SparseUv::Boundaries,
        "linear" => SparseUv::Linear,
        _ => SparseUv::Smooth,
    }
}

fn sparse_of(options: &[String]) -> SparseOptions
    requires { AreNumbersU32 (map string_bytes options.now) }
    ensures { sparse_of_code result ≡ model.sparse_of (map string_bytes options.now) }
{
    SparseOptions {
        depth: required_number(options, "depth"),
        select: select_named(value_of(options, "select").unwrap_or("feature")),
        decimals: number_of(options, "decimals"),
        uv: sparse_uv_named(value_of(options, "uv").unwrap_or("none")),
    }
}

fn limit_of(options: &[String]) -> LimitOptions
    requires { AreNumbersU32 (map string_bytes options.now) }
    ensures { limit_of_code result ≡ model.limit_of (map string_bytes options.now) }
{
    LimitOptions {
        depth: required_number(options, "depth"),
        decimals: number_of(options, "decimals"),
    }
}

fn patch_of(options: &[String]) -> PatchOptions
    requires { AreNumbersU32 (map string_bytes options.now) }
    ensures { patch_of_code result ≡ model.patch_of (map string_bytes options.now) }
{
    PatchOptions {
        depth: required_number(options, "depth"),
        face: required_number(options, "face"),
        grid: required_number(options, "grid"),
    }
}

fn map_of(options: &[String]) -> MapOptions
    requires { AreNumbersU32 (map string_bytes options.now) }
    ensures { map_of_code result ≡ model.map_of (map string_bytes options.now) }
{
    MapOptions {
        depth: required_number(options, "depth"),
        face: required_number(options, "face"),
        grid: required_number(options, "grid"),
        corner: required_number(options, "corner"),
        select: select_named(value_of(options, "select").unwrap_or("feature")),
    }
}

fn gen_of(options: &[String]) -> GenOptions
    requires { AreNumbersU32 (map string_bytes options.now) }
    ensures { gen_of_code result ≡ model.gen_of (map string_bytes options.now) }
{
    GenOptions {
        seed: required_number(options, "seed"),
        size: required_number(options, "size"),
        depth: required_number(options, "depth"),
    }
}

fn frames_of(options: &[String]) -> FramesOptions
    requires { AreNumbersU32 (map string_bytes options.now) }
    ensures { frames_of_code result ≡ model.frames_of (map string_bytes options.now) }
{
    FramesOptions {
        depth: required_number(options, "depth"),
        scale: required_number(options, "scale"),
    }
}

// The command of this name with these options.
fn command_named(name: &str, options: &[String]) -> Command
    requires { AreNumbersU32 (map string_bytes options.now) }
    ensures { command_of_code result ≡ model.command_named name.now (map string_bytes options.now) }
{
    match name {
        "refine" => Command::Read(ReadCommand::Refine(refine_of(options))),
        "sparse" => Command::Read(ReadCommand::Sparse(sparse_of(options))),
        "stencils" => Command::Read(ReadCommand::Stencils {
            depth: required_number(options, "depth"),
        }),
        "limit" => Command::Read(ReadCommand::Limit(limit_of(options))),
        "frames" => Command::Stream(StreamCommand::Frames(frames_of(options))),
        "levels" => Command::Read(ReadCommand::Levels {
            depth: required_number(options, "depth"),
        }),
        "patch" => Command::Read(ReadCommand::Patch(patch_of(options))),
        "map" => Command::Read(ReadCommand::Map(map_of(options))),
        "verify" => Command::Stored(StoredCommand::Verify {
            depth: required_number(options, "depth"),
        }),
        "apply" => Command::Stored(StoredCommand::Apply),
        _ => Command::Make(MakeCommand::Gen(gen_of(options))),
    }
}

// The command of this name, by the rule of its options.
fn read_options(rule: &CommandRule, name: &str, options: &[String]) -> Result<Command, u32>
    requires { IsTrue (is_u32_rule (rule_of_code rule.now)) }
    ensures { result_of_code result
        ≡ read_or (usage_of_rule (Some (rule_of_code rule.now)) (map string_bytes options.now)) (name.now ∷ map string_bytes options.now) }
{
    if let Some(place) = first_bad_option(rule.options, options) {
        return Err(place as u32 + 1);
    }
    if !has_required(rule.options, options) {
        return Err(options.len() as u32 + 1);
    }
    Ok(command_named(name, options))
}

fn rule_named<'a>(table: &'a [CommandRule], name: &str) -> Option<&'a CommandRule>
    ensures { option_map (λ rule. rule_of_code rule.now) result ≡ words.rule_named (table_of_code table.now) name.now }
{
    let mut rest = table;
    while let [rule, others @ ..] = rest {
        if name == rule.name {
            return Some(rule);
        }
        rest = others;
    }
    None
}

/// Returns the command of the words by a table.
///
/// The error is the place of the first bad word, counted from 0, or the number of words if only a required option is missing.
pub fn read_words_by(table: &[CommandRule], words: &Vec<String>) -> Result<Command, u32>
    requires { IsTrue (is_u32_table (table_of_code table.now)) }
    ensures { result_of_code result ≡ model.read_words_by (table_of_code table.now) (map string_bytes words.now.items) }
{
    let [command, options @ ..] = words.as_slice() else {
        return Err(0);
    };
    let name = command.as_str();
    match rule_named(table, name) {
        Some(rule) => read_options(rule, name, options),
        None => Err(0),
    }
}

/// Returns the command of the words by the table of the program. Its numbers are in the ranges of the table.
///
/// The error is the place of the first bad word, counted from 0, or the number of words if only a required option is missing.
pub fn read_words(words: &Vec<String>) -> Result<Command, u32>
    ensures read { result_of_code result ≡ model.read_words (map string_bytes words.now.items) }
    ensures in_range { IfOk result (λ command. IsInRange (command_of_code command)) }
{
    read_words_by(command_table(), words)
}
