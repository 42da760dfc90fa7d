//! Commands as values.

ghost use Rattle.std.specs.Prelude.{◌≡◌, ◌↔◌, IsTrue};
ghost use Rattle.std.specs.Option.{option_map};
ghost use Rattle.far_model.specs.Command.{IsInRange, IsMakeInRange, IsReadInRange, IsStoredInRange, IsStreamInRange};
ghost use Rattle.far_words.specs.View.{command_of_code, make_of_code, read_of_code, sparse_uv_of_code, stored_of_code, stream_of_code, uv_of_code};

/// How the texture is refined.
#[derive(Clone, Copy, Debug, PartialEq, Eq)]
pub enum Uv {
    /// No texture point is fixed beyond those that tags fix.
    Smooth,
    /// Each texture point of only one face is fixed: the corners of charts.
    Corners,
    /// Each texture point on the boundary of a chart is fixed.
    Boundaries,
    /// The texture is refined linearly.
    Linear,
}

/// How refined values are computed.
#[derive(Clone, Copy, Debug, PartialEq, Eq)]
pub enum By {
    /// By stencil tables.
    Table,
    /// Level by level.
    Level,
}

/// The options of `refine`.
#[derive(Clone, Copy, Debug, PartialEq, Eq)]
pub struct RefineOptions {
    /// At most 10.
    pub depth: u32,
    /// How many decimals numbers are rounded to, at most 18, or `None` for fractions in lowest terms.
    pub decimals: Option<u32>,
    pub uv: Uv,
    pub by: By,
    /// Whether the tags of the last level are written.
    pub tags: bool,
}

/// The faces that are refined further.
#[derive(Clone, Copy, Debug, PartialEq, Eq)]
pub enum Select {
    /// The features: faces that are not quads or have an irregular corner, holes excepted.
    Feature,
    /// Every face but holes.
    All,
}

/// Whether the texture of sparse levels is written, and how it is refined.
#[derive(Clone, Copy, Debug, PartialEq, Eq)]
pub enum SparseUv {
    /// No texture is written.
    NoTexture,
    /// No texture point is fixed beyond those that tags fix.
    Smooth,
    /// Each texture point of only one face is fixed: the corners of charts.
    Corners,
    /// Each texture point on the boundary of a chart is fixed.
    Boundaries,
    /// The texture is refined linearly.
    Linear,
}

/// The options of `sparse`.
#[derive(Clone, Copy, Debug, PartialEq, Eq)]
pub struct SparseOptions {
    /// At most 10.
    pub depth: u32,
    pub select: Select,
    /// How many decimals numbers are rounded to, at most 18, or `None` for fractions in lowest terms.
    pub decimals: Option<u32>,
    pub uv: SparseUv,
}

/// The options of `limit`.
#[derive(Clone, Copy, Debug, PartialEq, Eq)]
pub struct LimitOptions {
    /// From 1 to 10.
    pub depth: u32,
    /// How many decimals numbers are rounded to, at most 18, or `None` for fractions in lowest terms.
    pub decimals: Option<u32>,
}

/// The options of `patch`: a depth, a face at that depth, and the steps of its grid along each side.
#[derive(Clone, Copy, Debug, PartialEq, Eq)]
pub struct PatchOptions {
    /// At most 10.
    pub depth: u32,
    /// The number of the face, counted from 0, below 2^22.
    pub face: u32,
    /// From 1 to 64.
    pub grid: u32,
}

/// The options of `map`: a depth, a face of the mesh, and the steps of its grid along each side. The places of a face that is not a quad
/// are on the child face of one corner.
#[derive(Clone, Copy, Debug, PartialEq, Eq)]
pub struct MapOptions {
    /// At most 10.
    pub depth: u32,
    /// The number of the face, counted from 0, below 2^20.
    pub face: u32,
    /// From 1 to 256.
    pub grid: u32,
    /// The corner, counted from 0, below 2^16. For a quad it is 0.
    pub corner: u32,
    pub select: Select,
}

/// The options of `gen`: a sheet of `size` by `size` quads, and its depth.
#[derive(Clone, Copy, Debug, PartialEq, Eq)]
pub struct GenOptions {
    pub seed: u32,
    /// From 1 to 256.
    pub size: u32,
    /// At most 10.
    pub depth: u32,
}

/// The options of `frames`: a depth, and a power of ten that divides the common denominator of the positions.
#[derive(Clone, Copy, Debug, PartialEq, Eq)]
pub struct FramesOptions {
    /// At most 10.
    pub depth: u32,
    /// The exponent of the power of ten, at most 18.
    pub scale: u32,
}

/// A command that reads a mesh and then writes its output. Each depth is at most 10.
#[derive(Clone, Copy, Debug, PartialEq, Eq)]
pub enum ReadCommand {
    /// Refines a mesh and writes it.
    Refine(RefineOptions),
    /// Refines the selected faces of a mesh, and writes each sparse level up to a depth.
    Sparse(SparseOptions),
    /// Writes the stencil table of a mesh at a depth.
    Stencils { depth: u32 },
    /// Writes the limit points of the points of a mesh at a depth, and its faces there.
    Limit(LimitOptions),
    /// Writes the counts of each level of a mesh up to a depth.
    Levels { depth: u32 },
    /// Writes the points of the patch of a face of a mesh at a depth.
    Patch(PatchOptions),
    /// Writes, for each place of a face, the leaf of the sparse levels that contains it.
    Map(MapOptions),
}

/// A command that takes a stored table and then writes its output.
#[derive(Clone, Copy, Debug, PartialEq, Eq)]
pub enum StoredCommand {
    /// Compares the table with that of the mesh before it, at a depth of at most 10.
    Verify { depth: u32 },
    /// Evaluates the table over the points after it.
    Apply,
}

/// A command that makes its mesh and reads nothing.
#[derive(Clone, Copy, Debug, PartialEq, Eq)]
pub enum MakeCommand {
    /// Makes a sheet of quads and refines it.
    Gen(GenOptions),
}

/// A command that writes while it reads, line by line.
#[derive(Clone, Copy, Debug, PartialEq, Eq)]
pub enum StreamCommand {
    /// Moves points of a mesh, and writes the points at a depth that change.
    Frames(FramesOptions),
}

/// A command with all its options.
#[derive(Clone, Copy, Debug, PartialEq, Eq)]
pub enum Command {
    Read(ReadCommand),
    Stored(StoredCommand),
    Make(MakeCommand),
    Stream(StreamCommand),
}

impl SparseUv {
    /// Returns how the texture is refined, or `None` if none is written.
    pub fn texture(self) -> Option<Uv>
        ensures { option_map uv_of_code result ≡ sparse_uv_of_code self }
    {
        match self {
            SparseUv::NoTexture => None,
            SparseUv::Smooth => Some(Uv::Smooth),
            SparseUv::Corners => Some(Uv::Corners),
            SparseUv::Boundaries => Some(Uv::Boundaries),
            SparseUv::Linear => Some(Uv::Linear),
        }
    }
}

impl ReadCommand {
    /// Whether the numbers of the command are in the ranges of its options.
    pub fn is_in_range(&self) -> bool
        ensures { IsTrue result ↔ IsReadInRange (read_of_code self.now) }
    {
        match *self {
            ReadCommand::Refine(options) => {
                options.depth <= 10 && options.decimals.unwrap_or(0) <= 18
            }
            ReadCommand::Sparse(options) => {
                options.depth <= 10 && options.decimals.unwrap_or(0) <= 18
            }
            ReadCommand::Stencils { depth } => depth <= 10,
            ReadCommand::Limit(options) => {
                1 <= options.depth && options.depth <= 10 && options.decimals.unwrap_or(0) <= 18
            }
            ReadCommand::Levels { depth } => depth <= 10,
            ReadCommand::Patch(options) => {
                options.depth <= 10
                    && options.face <= 4194303
                    && 1 <= options.grid
                    && options.grid <= 64
            }
            ReadCommand::Map(options) => {
                options.depth <= 10
                    && options.face <= 1048575
                    && 1 <= options.grid
                    && options.grid <= 256
                    && options.corner <= 65535
            }
        }
    }
}

impl StoredCommand {
    /// Whether the numbers of the command are in the ranges of its options.
    pub fn is_in_range(&self) -> bool
        ensures { IsTrue result ↔ IsStoredInRange (stored_of_code self.now) }
    {
        match *self {
            StoredCommand::Verify { depth } => depth <= 10,
            StoredCommand::Apply => true,
        }
    }
}

impl MakeCommand {
    /// Whether the numbers of the command are in the ranges of its options.
    pub fn is_in_range(&self) -> bool
        ensures { IsTrue result ↔ IsMakeInRange (make_of_code self.now) }
    {
        match *self {
            MakeCommand::Gen(options) => {
                1 <= options.size && options.size <= 256 && options.depth <= 10
            }
        }
    }
}

impl StreamCommand {
    /// Whether the numbers of the command are in the ranges of its options.
    pub fn is_in_range(&self) -> bool
        ensures { IsTrue result ↔ IsStreamInRange (stream_of_code self.now) }
    {
        match *self {
            StreamCommand::Frames(options) => options.depth <= 10 && options.scale <= 18,
        }
    }
}

impl Command {
    /// Whether the numbers of the command are in the ranges of its options. Those of a command that was read always are.
    pub fn is_in_range(&self) -> bool
        ensures { IsTrue result ↔ IsInRange (command_of_code self.now) }
    {
        match self {
            Command::Read(command) => command.is_in_range(),
            Command::Stored(command) => command.is_in_range(),
            Command::Make(command) => command.is_in_range(),
            Command::Stream(command) => command.is_in_range(),
        }
    }
}
