//! What the variables of a header say of the wanted names.
ghost use Rattle.std.specs.Prelude.{◌≡◌, ◌||◌, ◌++◌, ◌∷◌, [], List as Items, OnOk};
ghost use Rattle.vcd_header.specs.Headers.{Var, path_of};
ghost use Rattle.vcd_header.specs.Sightings.{sighted, sighted_if, sighting_of};
ghost use Rattle.vcd_header.specs.Texts.{same};

use std::alloc::{AllocError, Global};
use wheel_types::List;

/// What variables say of a wanted name: the first code that has it, whether another code has it too, and whether a
/// variable that has it is no single bit.
#[derive(Debug, Drop)]
pub struct Sighting {
    pub code: Option<List<u8>>,
    pub is_twofold: bool,
    pub is_wide: bool,
}

impl Sighting {
    ghost use Rattle.std.specs.Prelude.{◌≡◌, ◌++◌, ◌∷◌, [], List, OnOk};
    ghost use Rattle.vcd_header.specs.Headers.{Var};
    ghost use Rattle.vcd_header.specs.Sightings.{sighting_of};

    /// No variable has the name yet.
    pub fn new() -> Sighting
        ensures { result ≡ sighting_of [] }
    {
        Sighting {
            code: None,
            is_twofold: false,
            is_wide: false,
        }
    }

    /// One more variable has the name.
    fn note(&mut self, alloc: Global, code: &[u8], is_wide: bool) -> Result<(), AllocError>
        ensures ok { OnOk result ((vars : List Var) (v : Var) → self.old ≡ sighting_of vars → code.now ≡ v.code → is_wide ≡ v.wide → self.new ≡ sighting_of (vars ++ v ∷ [])) }
    {
        match &self.code {
            Some(first) => {
                let is_same = code == first.as_slice();
                self.is_twofold = self.is_twofold || !is_same;
            }
            None => self.code = Some(List::from_slice(alloc, code)?),
        }
        self.is_wide = self.is_wide || is_wide;
        Ok(())
    }
}

/// The scopes' names and this one, joined by points, are the name.
fn is_path(name: &[u8], scopes: &[List<u8>], own: &[u8]) -> bool
    ensures { result ≡ same (path_of scopes.now own.now) name.now }
{
    let mut rest = name;
    'scopes: for scope in scopes {
        let Some(behind) = rest.strip_prefix(scope.as_slice()) else {
            return false;
        };
        let Some(next) = behind.strip_prefix(b".".as_slice()) else {
            return false;
        };
        rest = next;
    }
    own == rest
}

/// Takes note of a variable, where its own name or its path is the wanted name.
pub fn note_if_named(
    alloc: Global,
    seen: &mut Sighting,
    name: &[u8],
    scopes: &[List<u8>],
    own: &[u8],
    code: &[u8],
    is_wide: bool,
) -> Result<(), AllocError>
    ensures ok { OnOk result ((vars : Items Var) → seen.old ≡ sighted name.now vars
        → seen.new ≡ sighted name.now (vars ++ record { code = code.now; name = own.now; path = path_of scopes.now own.now; wide = is_wide } ∷ [])) }
{
    if own == name || is_path(name, scopes, own) {
        seen.note(alloc, code, is_wide)?;
    }
    Ok(())
}

/// The same for a name that may not be wanted.
pub fn note_if_wanted(
    alloc: Global,
    seen: &mut Sighting,
    name: &Option<List<u8>>,
    scopes: &[List<u8>],
    own: &[u8],
    code: &[u8],
    is_wide: bool,
) -> Result<(), AllocError>
    ensures ok { OnOk result ((vars : Items Var) → seen.old ≡ sighted_if name.now vars
        → seen.new ≡ sighted_if name.now (vars ++ record { code = code.now; name = own.now; path = path_of scopes.now own.now; wide = is_wide } ∷ [])) }
{
    match name {
        Some(name) => note_if_named(alloc, seen, name.as_slice(), scopes, own, code, is_wide),
        None => Ok(()),
    }
}
