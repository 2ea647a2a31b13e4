// A definition, and what a table has for a character.
#![tactic(auto)]

ghost use Rattle.std.specs.Prelude.{◌≡◌, Some};
ghost use Rattle.definitions.specs.Definitions.{cell_of, target_of, types};

// How many definitions a table may have.
pub const DEFINITION_LIMIT: usize = 1024;

// What a character means: typed and shown dots, shown dots, or an alias to another character.
#[derive(Clone, Copy, PartialEq, Eq)]
pub enum Meaning {
    Typed(u8),
    Shown(u8),
    Alias(u32),
}

// A character together with what it means.
#[derive(Clone, Copy)]
pub struct Definition {
    pub character: u32,
    pub meaning: Meaning,
}

// The end of an alias walk, and how many links it has. The definition `walk` answers it, no function does.
#[derive(Clone, Copy)]
pub struct Walk {
    pub end: u32,
    pub links: usize,
}

// The explicit cell of a meaning.
fn meaning_cell(m: Meaning) -> Option<u8>
    ensures { result ≡ cell_of (Some m) }
{
    match m {
        Meaning::Typed(dots) | Meaning::Shown(dots) => Some(dots),
        Meaning::Alias(_) => None,
    }
}

// The explicit cell of what was found.
pub fn cell_of(found: Option<Meaning>) -> Option<u8>
    ensures { result ≡ cell_of found }
{
    meaning_cell(found?)
}

// The alias target of a meaning.
pub fn meaning_target(m: Meaning) -> Option<u32>
    ensures { result ≡ target_of (Some m) }
{
    match m {
        Meaning::Typed(_) | Meaning::Shown(_) => None,
        Meaning::Alias(target) => Some(target),
    }
}

// The alias target of what was found.
pub fn target_of(found: Option<Meaning>) -> Option<u32>
    ensures { result ≡ target_of found }
{
    meaning_target(found?)
}

// Whether a meaning is that of a `char` line with that cell.
pub fn types_cell(m: Meaning, cell: u8) -> bool
    ensures { result ≡ types m cell }
{
    m == Meaning::Typed(cell)
}
