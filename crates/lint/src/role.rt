//! What the arguments of calls, and of the lines of a job, stand for.

/// What an argument stands for. The names are those of the tables in docs/calls.md and
/// docs/jobs.md.
#[derive(Clone, Copy, Debug, PartialEq, Eq)]
pub enum Role {
    /// `h`: a variable for a handle.
    Handle,
    /// `a`: a variable for a handle from which bytes are taken.
    Source,
    /// `b`: a variable for a handle that gets bytes.
    Target,
    /// `p`: a variable for a pointer.
    Pointer,
    /// `name` of `Where`: a variable for a handle or a pointer.
    Variable,
    /// `a` of `BlockMove`: a variable for a handle or a pointer from which bytes are taken.
    From,
    /// `b` of `BlockMove`: a variable for a handle or a pointer that gets bytes.
    Into,
    /// `name`: the name of a grow-zone script.
    GrowZone,
    /// `size`, in bytes.
    Size,
    /// `offset`, in bytes.
    Offset,
    /// `count`, in bytes.
    Count,
    /// `place`: where the content of a block stands.
    Place,
    /// `n`: the number of a file, an index or an entry.
    Number,
    /// `id`: the ID of a resource.
    Id,
    /// `byte`: a number of 8 bits.
    Byte,
    /// `type`: the type of a resource.
    Type,
    /// `bytes`.
    Bytes,
    /// `old`: the bytes that are replaced, or how many there are.
    Old,
    /// `new`: the bytes that are put in their place, or `NIL`.
    New,
    /// `file`: a file's name.
    File,
    /// `text`: a resource's name.
    Text,
    /// `switch`.
    Switch,
    /// `NAME` in a job: an application's name.
    Application,
    /// `N` in a job: the size of the memory in bytes.
    Memory,
    /// `"PATH"` in a job: where a fork is read.
    System,
    /// `"FORK"` in a job: where an application's fork is read.
    Fork,
    /// `"SCRIPT"` in a job: where an application's script is read.
    Script,
}

impl Role {
    /// Returns the name of the argument in the tables.
    pub(crate) fn name(self) -> &'static str {
        match self {
            Role::Handle => "h",
            Role::Source | Role::From => "a",
            Role::Target | Role::Into => "b",
            Role::Pointer => "p",
            Role::Variable | Role::GrowZone => "name",
            Role::Size => "size",
            Role::Offset => "offset",
            Role::Count => "count",
            Role::Place => "place",
            Role::Number => "n",
            Role::Id => "id",
            Role::Byte => "byte",
            Role::Type => "type",
            Role::Bytes => "bytes",
            Role::Old => "old",
            Role::New => "new",
            Role::File => "file",
            Role::Text => "text",
            Role::Switch => "switch",
            Role::Application => "NAME",
            Role::Memory => "N",
            Role::System => "\"PATH\"",
            Role::Fork => "\"FORK\"",
            Role::Script => "\"SCRIPT\"",
        }
    }

    /// Returns what stands in the place of the argument, as it is written.
    pub(crate) fn description(self) -> &'static str {
        match self {
            Role::Handle | Role::Source | Role::Target => "the name of a handle",
            Role::Pointer => "the name of a pointer",
            Role::Variable | Role::From | Role::Into => "the name of a handle or a pointer",
            Role::GrowZone => "the name of a grow-zone script",
            Role::Size => "a size in decimal digits",
            Role::Offset => "an offset in decimal digits",
            Role::Count => "a count in decimal digits",
            Role::Place => "a place in decimal digits, as Where returns it",
            Role::Number => "a number in decimal digits",
            Role::Id => "an ID in decimal digits",
            Role::Byte => "a number from 0 to 255 in decimal digits",
            Role::Type => "a type, four bytes in single quotes",
            Role::Bytes => "bytes, in double quotes or as $ and hexadecimal digits",
            Role::Old => "bytes, in double quotes or as $ and hexadecimal digits, or a count",
            Role::New => "bytes, in double quotes or as $ and hexadecimal digits, or NIL",
            Role::File => "a file's name of 1 to 63 bytes, in double quotes",
            Role::Text => "a resource's name of at most 255 bytes, in double quotes",
            Role::Switch => "TRUE or FALSE",
            Role::Application => "the name of an application",
            Role::Memory => "the size of the memory in decimal digits",
            Role::System => "a path in double quotes",
            Role::Fork => "the path of a fork, in double quotes",
            Role::Script => "the path of a script, in double quotes",
        }
    }
}
