//! The table of commands. One line of it adds a command or an option.

ghost use Rattle.std.specs.Prelude.{◌≡◌};
ghost use Rattle.far_model.specs.Words as model;
ghost use Rattle.far_words.specs.View.{table_of_code};

/// The values that an option may have.
#[derive(Clone, Copy, Debug)]
pub enum ValueKind {
    /// A number from `least` to `greatest`, in decimal digits without a leading zero.
    Number { least: u32, greatest: u32 },
    /// One of these names.
    OneOf(&'static [&'static str]),
}

/// An option of a command.
#[derive(Clone, Copy, Debug)]
pub struct OptionRule {
    pub name: &'static str,
    pub kind: ValueKind,
    pub required: bool,
}

/// A command with its options.
#[derive(Clone, Copy, Debug)]
pub struct CommandRule {
    pub name: &'static str,
    pub options: &'static [OptionRule],
}

// A required number.
macro_rules! required_option {
    ($name:literal, $least:literal, $greatest:literal) => {
        OptionRule { name: $name, kind: ValueKind::Number { least: $least, greatest: $greatest }, required: true }
    };
}

// An optional number.
macro_rules! number_option {
    ($name:literal, $least:literal, $greatest:literal) => {
        OptionRule { name: $name, kind: ValueKind::Number { least: $least, greatest: $greatest }, required: false }
    };
}

// An optional name, one of several.
macro_rules! name_option {
    ($name:literal, $names:expr) => {
        OptionRule { name: $name, kind: ValueKind::OneOf($names), required: false }
    };
}

const COMMANDS: &[CommandRule] = &[
    CommandRule {
        name: "refine",
        options: &[
            required_option!("depth", 0, 10),
            number_option!("decimals", 0, 18),
            name_option!("uv", &["smooth", "corners", "boundaries", "linear"]),
            name_option!("by", &["table", "level"]),
            name_option!("tags", &["no", "yes"]),
        ],
    },
    CommandRule {
        name: "sparse",
        options: &[
            required_option!("depth", 0, 10),
            name_option!("select", &["feature", "all"]),
            number_option!("decimals", 0, 18),
            name_option!("uv", &["none", "smooth", "corners", "boundaries", "linear"]),
        ],
    },
    CommandRule {
        name: "stencils",
        options: &[required_option!("depth", 0, 10)],
    },
    CommandRule {
        name: "limit",
        options: &[
            required_option!("depth", 1, 10),
            number_option!("decimals", 0, 18),
        ],
    },
    CommandRule {
        name: "frames",
        options: &[
            required_option!("depth", 0, 10),
            number_option!("scale", 0, 18),
        ],
    },
    CommandRule {
        name: "levels",
        options: &[required_option!("depth", 0, 10)],
    },
    CommandRule {
        name: "patch",
        options: &[
            required_option!("depth", 0, 10),
            required_option!("face", 0, 4194303),
            required_option!("grid", 1, 64),
        ],
    },
    CommandRule {
        name: "map",
        options: &[
            required_option!("depth", 0, 10),
            required_option!("face", 0, 1048575),
            required_option!("grid", 1, 256),
            number_option!("corner", 0, 65535),
            name_option!("select", &["feature", "all"]),
        ],
    },
    CommandRule {
        name: "verify",
        options: &[required_option!("depth", 0, 10)],
    },
    CommandRule {
        name: "apply",
        options: &[],
    },
    CommandRule {
        name: "gen",
        options: &[
            required_option!("seed", 0, 4_294_967_295),
            required_option!("size", 1, 256),
            required_option!("depth", 0, 10),
        ],
    },
];

/// Returns the commands and their options.
pub fn command_table() -> &'static [CommandRule]
    ensures { table_of_code result.now ≡ model.command_table }
{
    COMMANDS
}
